//! The writes that ended before a place.
ghost use Rattle.std.specs.Prelude.{◌≡◌, ◌≤◌, ◌<◌, ℕ, IfOk, MatchOption, None, Some, max, length, slice_get};
ghost use Rattle.value_order.specs.Ended.{AreByEnd, AreEndKeys, IsGreatestIndex, IsPassed, WriteEnds};

use crate::keys::SortKey;
use crate::placed::PlacedPart;
use std::alloc::Global;
use tag::Memory;

/// The key of the call at index `i`, if it is a write that has a response.
fn end_key(part: &PlacedPart<'_, '_>, i: usize) -> Option<SortKey>
    requires { i < length part.now }
    ensures { MatchOption result ((end : ℕ) → WriteEnds part.now i end → ⊥)
        (λ key. (key.index ≡ i) × WriteEnds part.now i key.rank) }
{
    let state = part.state(i);
    if !state.is_write {
        return None;
    }
    let end = state.response?;
    Some(SortKey {
        rank: u64::from(end),
        family: i,
        is_read: false,
        index: i,
    })
}

/// Keys of the writes that have a response, each by its end.
fn end_keys(alloc: Global, part: &PlacedPart<'_, '_>) -> Result<Vec<SortKey>, Memory>
    ensures { IfOk result (λ keys. AreEndKeys part.now (length part.now) keys.items) }
{
    let mut keys = Vec::new(alloc);
    for i in 0..part.len() {
        if let Some(key) = end_key(part, i) {
            keys.push(key)?;
        }
    }
    Ok(keys)
}

/// The same, sorted.
pub(crate) fn writes_by_end(
    alloc: Global,
    part: &PlacedPart<'_, '_>,
) -> Result<Vec<SortKey>, Memory>
    ensures { IfOk result (λ keys. AreByEnd part.now keys.items) }
{
    let mut keys = end_keys(alloc, part)?;
    keys.sort_unstable();
    Ok(keys)
}

/// The first keys, as far as they were looked at.
#[derive(Clone, Copy)]
pub(crate) struct Passed {
    /// How many there are.
    pub(crate) count: usize,
    /// The greatest index of them.
    pub(crate) latest: Option<usize>,
}

/// Of two indexes, if there are two, the greater one.
fn later_of(latest: Option<usize>, index: usize) -> usize
    ensures first { latest ≡ None → result ≡ index }
    ensures later { (other : ℕ) → latest ≡ Some other → result ≡ max other index }
{
    match latest {
        Some(other) => other.max(index),
        None => index,
    }
}

/// Those of ends before a place, after those before a place that is no greater.
pub(crate) fn ended_before(keys: &[SortKey], before: Passed, place: u32) -> Passed
    requires rises { (p q : ℕ) (a b : SortKey) → p < q → slice_get keys.now p ≡ Some a
        → slice_get keys.now q ≡ Some b → a.rank ≤ b.rank }
    requires passed { (p : ℕ) (key : SortKey) → p < before.count → slice_get keys.now p ≡ Some key
        → key.rank < place }
    requires latest { IsGreatestIndex keys.now before.count before.latest }
    ensures passed { IsPassed keys.now result.count place }
    ensures latest { IsGreatestIndex keys.now result.count result.latest }
{
    let mut count = before.count;
    let mut latest = before.latest;
    'ends: while count < keys.len() {
        let key = keys[count];
        if u64::from(place) <= key.rank {
            return Passed { count, latest };
        }
        latest = Some(later_of(latest, key.index));
        count += 1;
    }
    Passed { count, latest }
}
