//! Whether two zones cross: each ends before the other's last begin.
ghost use Rattle.std.specs.Prelude.{◌≡◌, ◌<◌, ◌↔◌, ℕ, IsTrue, MatchBool, Some, length};
ghost use Rattle.value_order.specs.Crossing.{HasCrossing, IsFirstCrossing, IsWithin};
ghost use Rattle.value_order.specs.Sources.{AreSources};
ghost use Rattle.value_order.specs.Writers.{IsOnlyWriter};
ghost use Rattle.value_order.specs.Zones.{AreZones, Cross, CrossAt, NoneCross};

use crate::placed::PlacedPart;
use crate::sources::{Source, family_of};
use crate::zones::Zone;

/// Whether the two zones cross.
fn do_cross(a: Zone, b: Zone) -> bool
    ensures { IsTrue result ↔ Cross a b }
{
    match (a.first_end, b.first_end) {
        (Some(end_a), Some(end_b)) => end_a < b.last_begin && end_b < a.last_begin,
        _ => false,
    }
}

/// Whether the place is within the zone: after its first end, and not after its last begin.
fn is_within(zone: Zone, place: u32) -> bool
    ensures { IsTrue result ↔ IsWithin zone place }
{
    match zone.first_end {
        Some(end) => end < place && place <= zone.last_begin,
        None => false,
    }
}

/// Whether the zone of the family crosses that one, if there is one.
fn crosses(zones: &[Zone], nearest: Option<usize>, family: usize) -> bool
    requires nearest { (other : ℕ) → nearest ≡ Some other → other < length zones.now }
    requires family { family < length zones.now }
    ensures { MatchBool result
        ((other : ℕ) × (nearest ≡ Some other) × CrossAt zones.now other family)
        ((other : ℕ) → nearest ≡ Some other → CrossAt zones.now other family → ⊥) }
{
    match nearest {
        Some(other) => other != family && do_cross(zones[other], zones[family]),
        None => false,
    }
}

/// Whether two zones cross.
///
/// It goes from the last call to the first, with the family whose zone had the latest of the begins that are within
/// their zones. A zone that crosses that one shows at a begin of its own; any other zone is over by then.
pub(crate) fn have_crossing(part: &PlacedPart<'_, '_>, sources: &[Source], zones: &[Zone]) -> bool
    requires sources { AreSources part.now sources.now }
    requires zones { (row : ℕ) × AreZones part.now (IsOnlyWriter part.now) row zones.now }
    ensures { MatchBool result (HasCrossing zones.now) (NoneCross zones.now) }
{
    let mut nearest: Option<usize> = None;
    let mut i = part.len();
    'calls: while i > 0 {
        i -= 1;
        if let Some(family) = family_of(i, sources[i]) {
            if crosses(zones, nearest, family) {
                return true;
            }
            if is_within(zones[family], part.places(i).invoked) {
                nearest = Some(family);
            }
        }
    }
    false
}

/// The first zone that crosses that one.
pub(crate) fn first_crossing(zones: &[Zone], k: usize) -> Option<usize>
    requires { k < length zones.now }
    ensures { IsFirstCrossing zones.now k result }
{
    for m in 0..zones.len() {
        if m != k && do_cross(zones[k], zones[m]) {
            return Some(m);
        }
    }
    None
}
