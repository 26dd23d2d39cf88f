//! The least row by which two families oppose each other, and what they then have.
ghost use Rattle.std.specs.Prelude.{◌≡◌, ◌<◌, ◌↔◌, ℕ, IfOk, IsTrue, MatchBool, MatchOption, Some, length, slice_get};
ghost use Rattle.recorder.specs.Parts.{IsSequence};
ghost use Rattle.recorder.specs.declared.part.Call.{Call};
ghost use Rattle.value_order.specs.Rows.{HasOpposedBy, HasNoPairAt, NoneOpposedBy, IsLeastRow, ArePairAt, EndedAt};
ghost use Rattle.value_order.specs.Rows.{HasMember, IsMember, HasSide, IsSideOf, IsFirstOpposed};
ghost use Rattle.value_order.specs.Sources.{AreSources, family_of};
ghost use Rattle.value_order.specs.Writers.{IsOnlyWriter};
ghost use Rattle.value_order.specs.Zones.{AreZones};

use crate::crossing::{first_crossing, have_crossing};
use crate::decision::Side;
use crate::placed::PlacedPart;
use crate::sources::{Source, family_of};
use crate::zones::{Zone, zones};
use std::alloc::Global;
use tag::{Memory, OpId};

/// Whether the call at index `i` is of the family of that index.
fn is_of(i: usize, source: Source, family: usize) -> bool
    ensures { IsTrue result ↔ (family_of i source ≡ Some family) }
{
    match family_of(i, source) {
        Some(other) => other == family,
        None => false,
    }
}

/// Whether the call at index `i` ended at the place.
fn ends_at(part: &PlacedPart<'_, '_>, i: usize, place: u32) -> bool
    requires { i < length part.now }
    ensures { (call : Call) × (slice_get part.now i ≡ Some call)
        × (IsTrue result ↔ EndedAt call place) }
{
    match part.places(i).response {
        Some(end) => end == place,
        None => false,
    }
}

/// Whether two families oppose each other by the row.
fn opposed_by(
    alloc: Global,
    part: &PlacedPart<'_, '_>,
    sources: &[Source],
    row: u32,
) -> Result<bool, Memory>
    requires { AreSources part.now sources.now }
    ensures { IfOk result
        (λ opposed. MatchBool opposed (HasOpposedBy part.now row) (NoneOpposedBy part.now row)) }
{
    part.attest();
    let zones = zones(alloc, part, sources, row)?;
    Ok(have_crossing(part, sources, zones.as_slice()))
}

/// The least row by which two do, where two do by row `last`.
fn least_row(
    alloc: Global,
    part: &PlacedPart<'_, '_>,
    sources: &[Source],
    last: u32,
) -> Result<u32, Memory>
    requires sources { AreSources part.now sources.now }
    requires opposed { HasOpposedBy part.now last }
    ensures { IfOk result (λ row. IsLeastRow part.now row) }
{
    let mut low = 0;
    let mut high = last;
    'halves: while low < high {
        let middle = low + (high - low) / 2;
        if opposed_by(alloc, part, sources, middle)? {
            high = middle;
        } else {
            low = middle + 1;
        }
    }
    Ok(low)
}

/// The family of the read at index `i`, if that was answered at the row, and the first family that is
/// opposed to it by then, if one is.
fn pair_of(
    part: &PlacedPart<'_, '_>,
    sources: &[Source],
    zones: &[Zone],
    row: u32,
    i: usize,
) -> Option<(usize, usize)>
    requires sequence { IsSequence part.now }
    requires sources { AreSources part.now sources.now }
    requires zones { AreZones part.now (IsOnlyWriter part.now) row zones.now }
    requires inside { i < length part.now }
    ensures { MatchOption result (HasNoPairAt part.now row i)
        (λ pair. ArePairAt part.now row pair.0 pair.1) }
{
    let Source::Only(family) = sources[i] else {
        return None;
    };
    if !ends_at(part, i, row) {
        return None;
    }
    let family = family as usize;
    let other = first_crossing(zones, family)?;
    Some((family, other))
}

/// The family of a read that was answered at the row, and the first that is opposed to it by then.
fn pair_at(
    part: &PlacedPart<'_, '_>,
    sources: &[Source],
    zones: &[Zone],
    row: u32,
) -> (usize, usize)
    requires sources { AreSources part.now sources.now }
    requires zones { AreZones part.now (IsOnlyWriter part.now) row zones.now }
    requires least { IsLeastRow part.now row }
    ensures { ArePairAt part.now row result.0 result.1 }
{
    for i in 0..part.len() {
        if let Some(pair) = pair_of(part, sources, zones, row, i) {
            return pair;
        }
    }
    unreachable!()
}

/// The call of the family that ended at the place.
fn ended_at(part: &PlacedPart<'_, '_>, sources: &[Source], family: usize, place: u32) -> OpId
    requires sources { AreSources part.now sources.now }
    requires there { HasMember part.now family (λ call. EndedAt call place) }
    ensures { IsMember part.now family (λ call. EndedAt call place) result }
{
    for i in 0..part.len() {
        if is_of(i, sources[i], family) && ends_at(part, i, place) {
            return part.op(i);
        }
    }
    unreachable!()
}

/// The call of the family that began at the place.
fn begun_at(part: &PlacedPart<'_, '_>, sources: &[Source], family: usize, place: u32) -> OpId
    requires sources { AreSources part.now sources.now }
    requires there { HasMember part.now family (λ call. call.invoked ≡ place) }
    ensures { IsMember part.now family (λ call. call.invoked ≡ place) result }
{
    for i in 0..part.len() {
        if is_of(i, sources[i], family) && part.places(i).invoked == place {
            return part.op(i);
        }
    }
    unreachable!()
}

/// What the family has by the row.
fn side(part: &PlacedPart<'_, '_>, sources: &[Source], zones: &[Zone], family: usize) -> Side
    requires sources { AreSources part.now sources.now }
    requires there { HasSide part.now zones.now family }
    ensures { (row : ℕ) → AreZones part.now (IsOnlyWriter part.now) row zones.now
        → (write : Call) × (slice_get part.now family ≡ Some write)
        × IsSideOf part.now row write result }
{
    part.attest();
    let zone = zones[family];
    let Some(end) = zone.first_end else {
        unreachable!()
    };
    Side {
        write: part.op(family),
        first_ended: ended_at(part, sources, family, end),
        last_begun: begun_at(part, sources, family, zone.last_begin),
    }
}

/// The two families that oppose each other first, where two do by row `last`.
pub(crate) fn first_opposed(
    alloc: Global,
    part: &PlacedPart<'_, '_>,
    sources: &[Source],
    last: u32,
) -> Result<(Side, Side), Memory>
    requires sources { AreSources part.now sources.now }
    requires opposed { HasOpposedBy part.now last }
    ensures { IfOk result (λ sides. IsFirstOpposed part.now sides.0 sides.1) }
{
    part.attest();
    let row = least_row(alloc, part, sources, last)?;
    let zones = zones(alloc, part, sources, row)?;
    let (a, b) = pair_at(part, sources, zones.as_slice(), row);
    Ok((
        side(part, sources, zones.as_slice(), a),
        side(part, sources, zones.as_slice(), b),
    ))
}
