//! What a call is noted with, and how tags compare.
ghost use Rattle.std.specs.Prelude.{◌≡◌, ◌↔◌, ◌⊎◌, IsTrue, Some};
ghost use Rattle.recorder.specs.Parts.{Precedes};
ghost use Rattle.tag.specs.Tags.{IsBelow, Tag, least};
ghost use Rattle.tag.specs.declared.actions.Returned.{Returned};
ghost use Rattle.tag_check.specs.Rules.{LacksNote, IsWriteOf, IsLeastWrite, IsAnsweredRead, IsTooLow, IsNotAbove};
ghost use Rattle.tag_check.specs.Greatest.{IsGreatest, Falls};

use recorder::{Call, ReturnedRef, ValueRef};
use std::cmp::Ordering;
use tag::Tag;

/// Whether the call is completed and has no note.
pub(crate) fn lacks_note(call: &Call<'_>) -> bool
    ensures { IsTrue result ↔ LacksNote call.now }
{
    call.response.is_some() && call.note.is_none()
}

/// The tag of a write, if it is noted.
pub(crate) fn write_tag(call: &Call<'_>) -> Option<Tag>
    ensures { (tag : Tag) → (result ≡ Some tag) ↔ IsWriteOf call.now tag }
{
    match call.action.written() {
        Some(_) => call.note,
        None => None,
    }
}

/// Whether the first tag is below the second.
pub(crate) fn is_below(a: Tag, b: Tag) -> bool
    ensures { IsTrue result ↔ IsBelow a b }
{
    match a.cmp(&b) {
        Ordering::Less => true,
        Ordering::Equal | Ordering::Greater => false,
    }
}

/// Whether the tags are one.
pub(crate) fn is_same(a: Tag, b: Tag) -> bool
    ensures { IsTrue result ↔ (a ≡ b) }
{
    a == b
}

/// The tag of a read that has its response, if it is noted.
pub(crate) fn read_tag(call: &Call<'_>) -> Option<Tag>
    ensures { (tag : Tag) → (result ≡ Some tag) ↔ IsAnsweredRead call.now tag }
{
    match (call.action.written(), &call.response) {
        (None, Some(_)) => call.note,
        _ => None,
    }
}

/// Whether the tag is the least.
pub(crate) fn is_least(tag: Tag) -> bool
    ensures { IsTrue result ↔ (tag ≡ least) }
{
    tag.number() == 0 && tag.writer() == 0
}

/// Whether the call is a write that is noted with the least tag.
pub(crate) fn is_least_write(call: &Call<'_>) -> bool
    ensures { IsTrue result ↔ IsLeastWrite call.now }
{
    match write_tag(call) {
        Some(tag) => is_least(tag),
        None => false,
    }
}

/// The greater of two tags that there may be.
pub(crate) fn greater(a: Option<Tag>, b: Option<Tag>) -> Option<Tag>
    ensures { IsGreatest (λ tag. (a ≡ Some tag) ⊎ (b ≡ Some tag)) result }
{
    match (a, b) {
        (Some(s), Some(t)) => match s.cmp(&t) {
            Ordering::Less => b,
            Ordering::Equal | Ordering::Greater => a,
        },
        (None, _) => b,
        (_, None) => a,
    }
}

/// Whether the call, noted with `t`, may not follow one that is noted with `s`.
fn is_too_low(later: &Call<'_>, t: Tag, s: Tag) -> bool
    ensures { IsTrue result ↔ IsTooLow later.now t s }
{
    match t.cmp(&s) {
        Ordering::Less => true,
        Ordering::Equal => later.action.written().is_some(),
        Ordering::Greater => false,
    }
}

/// Whether the call may not follow one that is noted with that tag, if there is one.
pub(crate) fn falls(call: &Call<'_>, greatest: &Option<Tag>) -> bool
    ensures { IsTrue result ↔ Falls call.now greatest.now }
{
    match (&call.note, greatest) {
        (Some(t), Some(s)) => is_too_low(call, *t, *s),
        _ => false,
    }
}

/// Whether the earlier call was answered before the later one began.
fn precedes(earlier: &Call<'_>, later: &Call<'_>) -> bool
    ensures { IsTrue result ↔ Precedes earlier.now later.now }
{
    match &earlier.response {
        Some(response) => response.place < later.invoked,
        None => false,
    }
}

/// Whether the later call began after the earlier one was answered, and is noted below it, or, as a
/// write, not above it.
pub(crate) fn is_not_above(earlier: &Call<'_>, later: &Call<'_>) -> bool
    ensures { IsTrue result ↔ IsNotAbove earlier.now later.now }
{
    precedes(earlier, later) && falls(later, &earlier.note)
}

/// Whether the answer is that value.
pub(crate) fn answers(returned: &ReturnedRef<'_>, value: &Option<ValueRef<'_>>) -> bool
    ensures { IsTrue result ↔ (returned.now ≡ Returned.Value value.now) }
{
    match returned.answered() {
        Some(answer) => answer == *value,
        None => false,
    }
}
