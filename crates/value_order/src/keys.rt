//! The order of calls by their families.
ghost use Rattle.std.specs.Prelude.{◌≡◌, ◌<◌, ℕ, IfOk, IsPermutation, IsSorted, Some, length, slice_get};
ghost use Rattle.recorder.specs.declared.part.Call.{Call};
ghost use Rattle.value_order.specs.Keys.{IsByFamilies, key_cmp};
ghost use Rattle.value_order.specs.SortKeys.{AreSortKeys, HaveZones, IsKeyIf, AreKeysSorted, AreNumbersOf};
ghost use Rattle.value_order.specs.Sources.{AreSources, family_of};
ghost use Rattle.value_order.specs.Writers.{IsOnlyWriter};

use crate::placed::PlacedPart;
use crate::sources::{Source, family_of};
use crate::zones::{Zone, rank};
use recorder::Order;
use std::alloc::Global;
use tag::{Memory, OpId};

/// What a call is sorted by: the rank of its family; the family, by the index of its write; whether it
/// reads; its index. Reads of nothing are first.
#[derive(Clone, Copy, PartialEq, Eq, PartialOrd, Ord)]
pub(crate) struct SortKey {
    pub(crate) rank: u64,
    pub(crate) family: usize,
    pub(crate) is_read: bool,
    pub(crate) index: usize,
}

/// What the call at index `i` is sorted by, if it is listed.
fn sort_key(i: usize, source: Source, zones: &[Zone]) -> Option<SortKey>
    requires { (k : ℕ) → family_of i source ≡ Some k → k < length zones.now }
    ensures { IsKeyIf zones.now i source result }
{
    if let Source::Nothing = source {
        return Some(SortKey {
            rank: 0,
            family: 0,
            is_read: true,
            index: i,
        });
    }
    let family = family_of(i, source)?;
    let zone = zones[family];
    let end = zone.first_end?;
    Some(SortKey {
        rank: rank(end, zone.last_begin),
        family,
        is_read: family != i,
        index: i,
    })
}

/// What the listed calls are sorted by.
fn sort_keys(alloc: Global, sources: &[Source], zones: &[Zone]) -> Result<Vec<SortKey>, Memory>
    requires { HaveZones sources.now zones.now }
    ensures { IfOk result
        (λ keys. AreSortKeys zones.now sources.now (length sources.now) keys.items) }
{
    let mut keys = Vec::new(alloc);
    for i in 0..sources.len() {
        if let Some(key) = sort_key(i, sources[i], zones) {
            keys.push(key)?;
        }
    }
    Ok(keys)
}

/// The same, sorted.
fn sorted_keys(alloc: Global, sources: &[Source], zones: &[Zone]) -> Result<Vec<SortKey>, Memory>
    requires { HaveZones sources.now zones.now }
    ensures { IfOk result (λ keys. AreKeysSorted zones.now sources.now keys.items) }
{
    let mut keys = sort_keys(alloc, sources, zones)?;
    keys.sort_unstable();
    Ok(keys)
}

/// The numbers of the calls with these keys.
fn numbers(alloc: Global, part: &PlacedPart<'_, '_>, keys: &[SortKey]) -> Result<Vec<OpId>, Memory>
    requires { (p : ℕ) (key : SortKey) → slice_get keys.now p ≡ Some key
        → key.index < length part.now }
    ensures { IfOk result (λ ops. AreNumbersOf part.now keys.now (length keys.now) ops.items) }
{
    let mut ops = Vec::with_capacity(alloc, keys.len())?;
    for i in 0..keys.len() {
        ops.push(part.op(keys[i].index))?;
    }
    Ok(ops)
}

/// The calls by their families.
pub(crate) fn sorted_order(
    alloc: Global,
    part: &PlacedPart<'_, '_>,
    sources: &[Source],
    zones: &[Zone],
) -> Result<Order, Memory>
    requires sources { AreSources part.now sources.now }
    requires zones { HaveZones sources.now zones.now }
    ensures { IfOk result
        (λ order. IsByFamilies part.now (IsOnlyWriter part.now) zones.now order) }
{
    part.attest();
    let keys = sorted_keys(alloc, sources, zones)?;
    Ok(Order::from_vec(numbers(alloc, part, keys.as_slice())?))
}
