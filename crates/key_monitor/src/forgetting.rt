//! Forgetting, a family at a time.
ghost use Rattle.key_monitor.specs.Forgetting.{ForgetsOne};

use kept_zones::Zones;

/// Takes out the zone of a forgotten family, and answers its first end; if none is forgotten, it answers `None`.
///
/// The place is that at which the first open read began; without one it is the place of the next row. Each zone is
/// compared with all that were there before, also with those that went.
pub fn forget_one(zones: &mut Zones, place: u64) -> Option<u64>
    ensures { ForgetsOne zones.old place result zones.new }
{
    match zones.spent(place) {
        Some(end) => {
            zones.remove(end);
            Some(end)
        }
        None => None,
    }
}
