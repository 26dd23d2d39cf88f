//! The first read in doubt that is stale.
ghost use Rattle.std.specs.Prelude.{◌<◌, MatchOption, length};
ghost use Rattle.recorder.specs.Parts.{IsSequence};
ghost use Rattle.tag_check.specs.Least.{LacksCall};
ghost use Rattle.value_order.specs.Faults.{IsStaleDoubt};
ghost use Rattle.value_order.specs.Sources.{AreSources};
ghost use Rattle.value_order.specs.Stales.{AreOverwriters, IsLeastOverwritten, IsOverwrittenAt, NotOverwrittenAt};

use crate::decision::Doubt;
use crate::faults::doubt_at;
use crate::placed::PlacedPart;
use crate::sources::Source;
use tag::OpId;

/// The doubt of the read at index `i` and a write between it and each of its writers, if it has two
/// writers and is stale.
fn overwritten_at(
    part: &PlacedPart<'_, '_>,
    sources: &[Source],
    found: &[Option<usize>],
    i: usize,
) -> Option<(Doubt, OpId)>
    requires sequence { IsSequence part.now }
    requires sources { AreSources part.now sources.now }
    requires found { AreOverwriters part.now found.now }
    requires inside { i < length part.now }
    ensures { MatchOption result (NotOverwrittenAt part.now i)
        (λ pair. IsOverwrittenAt part.now i pair.0 pair.1) }
{
    let Source::Doubt(first, second) = sources[i] else {
        return None;
    };
    let between = found[i]?;
    let doubt = doubt_at(part, i, first as usize, second as usize);
    let call = part.op(between);
    Some((doubt, call))
}

/// The first read that has two writers and is stale, with its first two; and a write between it and
/// each of its writers.
pub(crate) fn first_overwritten(
    part: &PlacedPart<'_, '_>,
    sources: &[Source],
    found: &[Option<usize>],
) -> Option<(Doubt, OpId)>
    requires sources { AreSources part.now sources.now }
    requires found { AreOverwriters part.now found.now }
    ensures { MatchOption result (LacksCall part.now (IsStaleDoubt part.now))
        (λ pair. IsLeastOverwritten part.now pair.0 pair.1) }
{
    for i in 0..part.len() {
        if let Some(pair) = overwritten_at(part, sources, found, i) {
            return Some(pair);
        }
    }
    None
}
