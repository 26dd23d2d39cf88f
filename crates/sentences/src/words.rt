//! Words, and numbers, tags and values among them.
ghost use Rattle.std.specs.Prelude.{◌≡◌, ◌++◌, option_copied, OnOk};
ghost use Rattle.sentences.specs.Words.{numbered, tag_text, value_text};

use crate::quoted::append_quoted;
use itoa::Buffer;
use tag::{Memory, Tag, Value};

/// Adds the words.
pub fn append(text: &mut Vec<u8>, words: &str) -> Result<(), Memory>
    ensures { OnOk result (text.new.items ≡ text.old.items ++ words.now) }
{
    text.extend_from_slice(words.as_bytes())?;
    Ok(())
}

/// Adds the words and then the number.
pub fn append_number(text: &mut Vec<u8>, words: &str, number: u64) -> Result<(), Memory>
    ensures { OnOk result (text.new.items ≡ text.old.items ++ numbered words.now number) }
{
    let mut digits = Buffer::new();
    append(text, words)?;
    append(text, digits.format(number))
}

/// Adds the tag.
#[tactic(auto, unfolding(crate::specs::Words::tag_text))]
pub fn append_tag(text: &mut Vec<u8>, tag: Tag) -> Result<(), Memory>
    ensures { OnOk result (text.new.items ≡ text.old.items ++ tag_text tag) }
{
    append_number(text, "(", u64::from(tag.number()))?;
    append_number(text, ", ", u64::from(tag.writer()))?;
    append(text, ")")
}

/// Adds the value as a JSON text, or `null` where there is none.
#[tactic(auto, unfolding(crate::specs::Words::value_text))]
pub fn append_value(text: &mut Vec<u8>, value: Option<&Value>) -> Result<(), Memory>
    ensures { OnOk result
        (text.new.items ≡ text.old.items ++ value_text (option_copied value.entry)) }
{
    match value {
        None => append(text, "null"),
        Some(value) => append_quoted(text, value.as_str()),
    }
}
