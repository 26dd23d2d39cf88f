//! What sentences say of calls: numbers, values that are written or due, and tags.
ghost use Rattle.std.specs.Prelude.{◌≡◌, ◌++◌, decimal, OnOk};
ghost use Rattle.sentences.specs.Words.{value_text};
ghost use Rattle.explanations.specs.Sentences.{above_text, due_line};

use recorder::{ActionRef, ValueRef};
use sentences::{append, append_number, append_quoted, append_tag};
use tag::{Memory, OpId, Tag};

/// Adds the words and then the call's number.
pub(crate) fn append_op(text: &mut Vec<u8>, words: &str, op: OpId) -> Result<(), Memory>
    ensures { OnOk result (text.new.items ≡ text.old.items ++ (words.now ++ decimal op.0)) }
{
    append_number(text, words, u64::from(op.0))
}

/// Adds the value, which a history keeps, as a JSON text, or `null` where there is none.
#[tactic(auto, unfolding(sentences::specs::Words::value_text))]
pub fn append_value(text: &mut Vec<u8>, value: &Option<ValueRef<'_>>) -> Result<(), Memory>
    ensures { OnOk result (text.new.items ≡ text.old.items ++ value_text value.now) }
{
    match value {
        None => append(text, "null"),
        Some(value) => append_quoted(text, value.as_str()),
    }
}

/// Says what a read should have answered.
#[tactic(auto, unfolding(crate::specs::Sentences::due_line))]
pub(crate) fn append_due(text: &mut Vec<u8>, value: &Option<ValueRef<'_>>) -> Result<(), Memory>
    ensures { OnOk result
        (text.new.items ≡ text.old.items ++ due_line value.now) }
{
    append(text, "  so the read should have answered ")?;
    append_value(text, value)?;
    append(text, "\n")
}

/// Adds the tags that a call of that action may have after a call that is noted with the tag.
#[tactic(auto, unfolding(crate::specs::Sentences::above_text))]
pub(crate) fn append_above(
    text: &mut Vec<u8>,
    action: &ActionRef<'_>,
    tag: Tag,
) -> Result<(), Memory>
    ensures { OnOk result (text.new.items ≡ text.old.items ++ above_text action.now tag) }
{
    match action.written() {
        None => {
            append_tag(text, tag)?;
            append(text, " or above")
        }
        Some(_) => {
            append(text, "above ")?;
            append_tag(text, tag)
        }
    }
}
