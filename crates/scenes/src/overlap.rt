//! How many calls are under way at once.
ghost use Rattle.std.specs.Prelude.{◌≡◌, IfOk};
ghost use Rattle.std.specs.List.Sorted.{IsNonDecreasing};
ghost use Rattle.scenes.specs.Overlaps.{AreEnds, IsMostAtOnce, up_to};

use crate::bars::end_of;
use crate::ticks::add_some;
use recorder::Part;
use std::alloc::Global;
use tag::Memory;

/// The greatest number of the part's calls that are under way at one place.
///
/// It takes time in proportion to the calls and the logarithm of their count, and answers `Memory`
/// only where an allocation was refused.
pub fn most_at_once(alloc: Global, part: &Part<'_>) -> Result<usize, Memory>
    ensures { IfOk result (λ most. IsMostAtOnce part.now most) }
{
    let ends = sorted_ends(alloc, part)?;
    Ok(most_by_ends(part, &ends))
}

/// The same, of the calls whose responses have these places.
fn most_by_ends(part: &Part<'_>, ends: &[usize]) -> usize
    requires ends { AreEnds part.now ends.now }
    requires sorted { IsNonDecreasing ends.now }
    ensures { IsMostAtOnce part.now result }
{
    let mut most = 0usize;
    for k in 0..part.len() {
        // All calls up to this one have begun here, and no later one.
        let answered = count_up_to(ends, part.call(k).invoked);
        most = most.max(k + 1 - answered);
    }
    most
}

/// How many of the places don't come after that one.
fn count_up_to(places: &[usize], place: usize) -> usize
    requires { IsNonDecreasing places.now }
    ensures { result ≡ up_to places.now place }
{
    places.partition_point(|end| *end <= place)
}

/// The places of the calls' responses, sorted.
fn sorted_ends(alloc: Global, part: &Part<'_>) -> Result<Vec<usize>, Memory>
    ensures ends { IfOk result (λ ends. AreEnds part.now ends.items) }
    ensures sorted { IfOk result (λ ends. IsNonDecreasing ends.items) }
{
    let mut ends = ends_of(alloc, part)?;
    ends.sort_unstable();
    Ok(ends)
}

/// The places of the calls' responses, in the order of the calls.
fn ends_of(alloc: Global, part: &Part<'_>) -> Result<Vec<usize>, Memory>
    ensures { IfOk result (λ ends. AreEnds part.now ends.items) }
{
    let mut ends = Vec::new(alloc);
    for k in 0..part.len() {
        add_some(&mut ends, end_of(&part.call(k).response))?;
    }
    Ok(ends)
}
