//! What lines are made of: keys, pairs, tags among words, and reasons.
ghost use Rattle.std.specs.Prelude.{◌≡◌, ◌++◌, codes, option_copied, OnOk};
ghost use Rattle.sentences.specs.Words.{tag_text};
ghost use Rattle.traces.specs.Words.{pair_text, reason_text};

use sentences::{append, append_number, append_tag, append_value};
use tag::{Key, Memory, Tag, Value};

/// Adds the words and then the key.
pub(crate) fn append_key(text: &mut Vec<u8>, words: &str, key: &Key) -> Result<(), Memory>
    ensures { OnOk result (text.new.items ≡ text.old.items ++ (words.now ++ key.now)) }
{
    append(text, words)?;
    append(text, key.as_str())
}

/// Adds the tag between words.
pub(crate) fn append_tag_between(
    text: &mut Vec<u8>,
    words: &str,
    tag: Tag,
    further: &str,
) -> Result<(), Memory>
    ensures { OnOk result
        (text.new.items ≡ text.old.items ++ (words.now ++ tag_text tag ++ further.now)) }
{
    append(text, words)?;
    append_tag(text, tag)?;
    append(text, further)
}

/// Adds the tag and the value of a pair.
#[tactic(auto, unfolding(crate::specs::Words::pair_text))]
pub(crate) fn append_pair(text: &mut Vec<u8>, tag: Tag, value: Option<&Value>) -> Result<(), Memory>
    ensures { OnOk result
        (text.new.items ≡ text.old.items ++ pair_text tag (option_copied value.entry)) }
{
    append_tag(text, tag)?;
    append(text, " ")?;
    append_value(text, value)
}

/// Adds the words, the pair, and the key that the pair is of.
pub(crate) fn append_pair_of(
    text: &mut Vec<u8>,
    words: &str,
    tag: Tag,
    value: Option<&Value>,
    key: &Key,
) -> Result<(), Memory>
    ensures { OnOk result (text.new.items ≡ text.old.items
        ++ (words.now ++ pair_text tag (option_copied value.entry) ++ codes " for " ++ key.now)) }
{
    append(text, words)?;
    append_pair(text, tag, value)?;
    append_key(text, " for ", key)
}

/// Adds that something is refused, and the reason's number, name and sentence.
#[tactic(auto, unfolding(crate::specs::Words::reason_text))]
pub(crate) fn append_reason(
    text: &mut Vec<u8>,
    number: u8,
    name: &str,
    sentence: &str,
) -> Result<(), Memory>
    ensures { OnOk result
        (text.new.items ≡ text.old.items ++ reason_text number name.now sentence.now) }
{
    append_number(text, " is refused: ", u64::from(number))?;
    append(text, " ")?;
    append(text, name)?;
    append(text, ", ")?;
    append(text, sentence)
}
