//! The first reads that have no writer, or two.
ghost use Rattle.std.specs.Prelude.{◌<◌, MatchOption, length};
ghost use Rattle.tag_check.specs.Least.{HasNoPair, IsFirstCall, IsLeastPair};
ghost use Rattle.value_order.specs.Doubts.{AreNamed, IsFirstDoubt};
ghost use Rattle.value_order.specs.Faults.{AnswersUnwritten, EndsTooEarly};
ghost use Rattle.value_order.specs.Sources.{AreSources};

use crate::decision::Doubt;
use crate::placed::PlacedPart;
use crate::sources::Source;
use tag::OpId;

/// The first read that answers what no write writes.
pub(crate) fn first_unwritten(part: &PlacedPart<'_, '_>, sources: &[Source]) -> Option<OpId>
    requires { AreSources part.now sources.now }
    ensures { IsFirstCall part.now (AnswersUnwritten part.now) result }
{
    for i in 0..part.len() {
        if let Source::Unwritten = sources[i] {
            return Some(part.op(i));
        }
    }
    None
}

/// The first read that was answered before any write of its value began, after the first such write.
pub(crate) fn first_early(part: &PlacedPart<'_, '_>, sources: &[Source]) -> Option<(OpId, OpId)>
    requires { AreSources part.now sources.now }
    ensures { MatchOption result (HasNoPair part.now (EndsTooEarly part.now))
        (λ pair. IsLeastPair part.now (EndsTooEarly part.now) pair.0 pair.1) }
{
    for i in 0..part.len() {
        if let Source::Early(write) = sources[i] {
            return Some((part.op(write as usize), part.op(i)));
        }
    }
    None
}

/// The doubt of the read at index `i`, whose least writers are at these indexes.
pub(crate) fn doubt_at(part: &PlacedPart<'_, '_>, i: usize, first: usize, second: usize) -> Doubt
    requires read { i < length part.now }
    requires first { first < length part.now }
    requires second { second < length part.now }
    ensures { AreNamed part.now i first second result }
{
    let read = part.op(i);
    let one = part.op(first);
    let two = part.op(second);
    Doubt {
        read,
        first: one,
        second: two,
    }
}

/// The first read that has two writers, after its first two.
pub(crate) fn first_doubt(part: &PlacedPart<'_, '_>, sources: &[Source]) -> Option<Doubt>
    requires { AreSources part.now sources.now }
    ensures { IsFirstDoubt part.now result }
{
    for i in 0..part.len() {
        if let Source::Doubt(first, second) = sources[i] {
            return Some(doubt_at(part, i, first as usize, second as usize));
        }
    }
    None
}
