//! Reads of nothing that began too late.
ghost use Rattle.std.specs.Prelude.{◌≡◌, ◌<◌, ◌↔◌, ℕ, IsTrue, MatchOption, Some, length, slice_get};
ghost use Rattle.recorder.specs.declared.part.Call.{Call};
ghost use Rattle.tag_check.specs.Least.{HasNoPair, LacksCall};
ghost use Rattle.value_order.specs.Faults.{AnswersUnwritten, IsLateNothing};
ghost use Rattle.value_order.specs.Nothings.{IsFirstShown, IsLeastLate, ShowsAt};
ghost use Rattle.value_order.specs.Sources.{AreSources, shows_value};
ghost use Rattle.value_order.specs.Writers.{AnswersNothing};

use crate::placed::PlacedPart;
use crate::sources::Source;
use tag::OpId;

/// Whether a call of that source writes or answers a value that is written.
fn shows_value(source: Source) -> bool
    ensures { result ≡ shows_value source }
{
    match source {
        Source::Write | Source::Only(_) | Source::Doubt(_, _) | Source::Early(_) => true,
        Source::Unwritten | Source::Nothing | Source::Pending => false,
    }
}

/// Where the call at index `i` ended, if it did, and if it writes or answers a value.
fn shown_end(part: &PlacedPart<'_, '_>, sources: &[Source], i: usize) -> Option<u32>
    requires sources { AreSources part.now sources.now }
    requires written { LacksCall part.now (AnswersUnwritten part.now) }
    requires inside { i < length part.now }
    ensures { (end : ℕ) → (result ≡ Some end) ↔ ShowsAt part.now i end }
{
    if shows_value(sources[i]) {
        part.places(i).response
    } else {
        None
    }
}

/// Whether the end comes before that one, if there is one.
fn is_sooner(end: u32, first: Option<(usize, u32)>) -> bool
    ensures { IsTrue result ↔ ((k other : ℕ) → first ≡ Some (k, other) → end < other) }
{
    match first {
        Some((_, other)) => end < other,
        None => true,
    }
}

/// The index and the end of the call that ended first of those that write or answer a value.
fn first_shown(part: &PlacedPart<'_, '_>, sources: &[Source]) -> Option<(usize, u32)>
    requires sources { AreSources part.now sources.now }
    requires written { LacksCall part.now (AnswersUnwritten part.now) }
    ensures { IsFirstShown part.now (length part.now) result }
{
    let mut first = None;
    for i in 0..part.len() {
        if let Some(end) = shown_end(part, sources, i) {
            if is_sooner(end, first) {
                first = Some((i, end));
            }
        }
    }
    first
}

/// Whether the call at index `i` is a read that answers nothing and began after that place.
fn is_late(part: &PlacedPart<'_, '_>, sources: &[Source], end: u32, i: usize) -> bool
    requires sources { AreSources part.now sources.now }
    requires inside { i < length part.now }
    ensures { (call : Call) × (slice_get part.now i ≡ Some call)
        × (IsTrue result ↔ (AnswersNothing call × (end < call.invoked))) }
{
    let Source::Nothing = sources[i] else {
        return false;
    };
    end < part.places(i).invoked
}

/// The first read that answers nothing and began after such a call had ended, and the first of these
/// that ended.
pub(crate) fn first_late(part: &PlacedPart<'_, '_>, sources: &[Source]) -> Option<(OpId, OpId)>
    requires sources { AreSources part.now sources.now }
    requires written { LacksCall part.now (AnswersUnwritten part.now) }
    ensures { MatchOption result (HasNoPair part.now IsLateNothing)
        (λ pair. IsLeastLate part.now pair.0 pair.1) }
{
    let (shown, end) = first_shown(part, sources)?;
    for i in 0..part.len() {
        if is_late(part, sources, end, i) {
            let read = part.op(i);
            let call = part.op(shown);
            return Some((read, call));
        }
    }
    None
}
