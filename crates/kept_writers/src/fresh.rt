//! Which of some ends no zone overwrites before a place.
ghost use Rattle.std.specs.Prelude.{◌≡◌, ◌≤◌, ℕ, Some, IsSome, MatchOption};
ghost use Rattle.kept_writers.specs.Ends.{number_at};
ghost use Rattle.kept_writers.specs.Fresh.{AreFreshEnds, IsFreshUpTo, NoneUpTo};

use crate::ends::{Ends, greatest, greatest_before};
use kept_zones::Zones;

/// Which ends are fresh: none, one, or more, of which these are two.
#[derive(Debug, Clone, Copy, Drop, PartialEq)]
pub enum FreshEnds {
    None,
    One(u64),
    Several(u64, u64),
}

/// The end, if it is fresh; else the zone that overwrites its own, if that is fresh: no other end up to it is then.
fn fresh_up_to(ends: &Ends, zones: &Zones, end: u64, place: u64) -> Option<u64>
    requires there { IsSome (number_at ends.now.entries end) }
    requires high { (e n : ℕ) → number_at ends.now.entries e ≡ Some n → zones.now.floor ≤ e }
    ensures { MatchOption result (NoneUpTo ends.now.entries zones.now.zones place end)
        (λ f. IsFreshUpTo ends.now.entries zones.now.zones place end f) }
{
    let Some(over) = zones.overwriter(end, place) else {
        return Some(end);
    };
    if ends.contains_key(&over) && zones.overwriter(over, place).is_none() {
        Some(over)
    } else {
        None
    }
}

/// Which ends no zone overwrites before the place.
#[tactic(auto, using(crate::proofs::Greatest::none_fresh, crate::proofs::Greatest::one_earlier, crate::proofs::Greatest::one_alone, crate::proofs::Greatest::one_before, crate::proofs::Greatest::one_itself, crate::proofs::Greatest::two_fresh))]
pub fn fresh_ends(ends: &Ends, zones: &Zones, place: u64) -> FreshEnds
    requires { (e n : ℕ) → number_at ends.now.entries e ≡ Some n → zones.now.floor ≤ e }
    ensures { AreFreshEnds ends.now.entries zones.now.zones place result }
{
    let Some(last) = greatest(ends) else {
        return FreshEnds::None;
    };
    let Some(found) = fresh_up_to(ends, zones, last, place) else {
        return FreshEnds::None;
    };
    if found != last {
        return FreshEnds::One(found);
    }
    let Some(next) = greatest_before(ends, last) else {
        return FreshEnds::One(found);
    };
    let Some(other) = fresh_up_to(ends, zones, next, place) else {
        return FreshEnds::One(found);
    };
    if other == found {
        FreshEnds::One(found)
    } else {
        FreshEnds::Several(found, other)
    }
}
