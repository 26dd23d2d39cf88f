//! Which of the kept writes of one value a read may have read.
ghost use Rattle.std.specs.Prelude.{◌≡◌, ◌≤◌, ℕ, [], Some, IsSome};
ghost use Rattle.kept_writers.specs.Candidates.{AreCandidates, IsLeast, IsLeastAfter, StandOnce};
ghost use Rattle.kept_writers.specs.Ends.{number_at};

use crate::ends::Ends;
use crate::fresh::{FreshEnds, fresh_ends};
use kept_zones::Zones;
use std::collections::BTreeMap;
use std::ops::Bound;

/// A map from the numbers of writes to the places where they began.
pub type Begins = BTreeMap<u32, u64>;

/// Which writes a read may have read: none, one, or more, of which these are two.
#[derive(Debug, Clone, Copy, Drop, PartialEq)]
pub enum Candidates {
    None,
    One(u32),
    Several(u32, u32),
}

/// The least number.
pub(crate) fn least(begins: &Begins) -> Option<u32>
    ensures { IsLeast begins.now.entries result }
{
    match begins.first_key_value() {
        Some((number, _)) => Some(*number),
        None => None,
    }
}

/// The least number after that one.
fn least_after(begins: &Begins, number: u32) -> Option<u32>
    ensures { IsLeastAfter begins.now.entries number result }
{
    match begins
        .range((Bound::Excluded(number), Bound::Unbounded))
        .next()
    {
        Some((next, _)) => Some(*next),
        None => None,
    }
}

/// The number of the write with that end.
fn number_of(ends: &Ends, end: u64) -> u32
    requires { IsSome (number_at ends.now.entries end) }
    ensures { number_at ends.now.entries end ≡ Some result }
{
    match ends.get(&end) {
        Some(number) => *number,
        None => unreachable!(),
    }
}

/// Of the writes with an end those that a read may have read.
#[tactic(auto, using(crate::proofs::Choosing::ended_none, crate::proofs::Choosing::ended_one, crate::proofs::Choosing::ended_several))]
fn ended_candidates(ends: &Ends, zones: &Zones, place: u64) -> Candidates
    requires high { (e n : ℕ) → number_at ends.now.entries e ≡ Some n → zones.now.floor ≤ e }
    requires once { StandOnce [] ends.now.entries }
    ensures { AreCandidates [] ends.now.entries zones.now.zones place result }
{
    match fresh_ends(ends, zones, place) {
        FreshEnds::None => Candidates::None,
        FreshEnds::One(end) => Candidates::One(number_of(ends, end)),
        FreshEnds::Several(one, two) => {
            Candidates::Several(number_of(ends, one), number_of(ends, two))
        }
    }
}

/// Which of the writes a read that began at the place may have read. The writes are those of the value that it answers:
/// of some no call of the family has ended, and the others have their first ends.
#[tactic(auto, using(crate::proofs::Choosing::once_ended, crate::proofs::Choosing::none_begun, crate::proofs::Choosing::two_begun, crate::proofs::Choosing::one_begun, crate::proofs::Choosing::one_beside, crate::proofs::Choosing::two_beside))]
pub fn readable_writes(begins: &Begins, ends: &Ends, zones: &Zones, place: u64) -> Candidates
    requires high { (e n : ℕ) → number_at ends.now.entries e ≡ Some n → zones.now.floor ≤ e }
    requires once { StandOnce begins.now.entries ends.now.entries }
    ensures { AreCandidates begins.now.entries ends.now.entries zones.now.zones place result }
{
    let Some(first) = least(begins) else {
        return ended_candidates(ends, zones, place);
    };
    if let Some(second) = least_after(begins, first) {
        return Candidates::Several(first, second);
    }
    match ended_candidates(ends, zones, place) {
        Candidates::None => Candidates::One(first),
        Candidates::One(number) => Candidates::Several(first, number),
        Candidates::Several(number, _) => Candidates::Several(first, number),
    }
}
