//! The zones of families: first end and last begin.
ghost use Rattle.std.specs.Prelude.{◌≡◌, IfOk, length};
ghost use Rattle.value_order.specs.Sources.{AreSources};
ghost use Rattle.value_order.specs.Writers.{IsOnlyWriter};
ghost use Rattle.value_order.specs.Zones.{AreBegins, AreZones, IsLastRow, IsZoneWith, rank_of};

use crate::placed::PlacedPart;
use crate::sources::{Source, family_of};
use std::alloc::Global;
use tag::Memory;

/// The zone of a family.
#[derive(Clone, Copy)]
pub(crate) struct Zone {
    /// The least place of a response, if there is one.
    pub(crate) first_end: Option<u32>,
    /// The greatest place of an invocation.
    pub(crate) last_begin: u32,
}

/// What a family is sorted by: its first end or its last begin, whichever comes first; where they are
/// at one place, the begin is first.
pub(crate) fn rank(end: u32, begin: u32) -> u64
    ensures { result ≡ rank_of end begin }
{
    let begun = 2 * u64::from(begin) + 1;
    let ended = 2 * u64::from(end) + 2;
    begun.min(ended)
}

/// The zone with a call that ended and began at these places.
fn zone_with(zone: Zone, end: u32, begin: u32) -> Zone
    ensures { IsZoneWith zone end begin result }
{
    let first = match zone.first_end {
        Some(first) => first.min(end),
        None => end,
    };
    Zone {
        first_end: Some(first),
        last_begin: zone.last_begin.max(begin),
    }
}

/// Beside each call a zone of its invocation alone.
fn begin_zones(alloc: Global, part: &PlacedPart<'_, '_>) -> Result<Vec<Zone>, Memory>
    ensures { IfOk result (λ zones. AreBegins part.now (length part.now) zones.items) }
{
    let mut zones = Vec::with_capacity(alloc, part.len())?;
    for i in 0..part.len() {
        zones.push(Zone {
            first_end: None,
            last_begin: part.places(i).invoked,
        })?;
    }
    Ok(zones)
}

/// Beside each write the zone of its family, of the calls that were answered by the row.
pub(crate) fn zones(
    alloc: Global,
    part: &PlacedPart<'_, '_>,
    sources: &[Source],
    row: u32,
) -> Result<Vec<Zone>, Memory>
    requires { AreSources part.now sources.now }
    ensures { IfOk result (λ zones. AreZones part.now (IsOnlyWriter part.now) row zones.items) }
{
    let mut zones = begin_zones(alloc, part)?;
    for i in 0..part.len() {
        if let Some(family) = family_of(i, sources[i]) {
            let own = part.places(i);
            if let Some(end) = own.response {
                if end <= row {
                    zones[family] = zone_with(zones[family], end, own.invoked);
                }
            }
        }
    }
    Ok(zones)
}

/// The greatest place of a response.
pub(crate) fn last_row(part: &PlacedPart<'_, '_>) -> u32
    ensures { IsLastRow part.now result }
{
    let mut last = 0;
    for i in 0..part.len() {
        if let Some(end) = part.places(i).response {
            last = last.max(end);
        }
    }
    last
}
