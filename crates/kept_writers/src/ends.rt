//! First ends, each with the number of its family's write.
ghost use Rattle.kept_writers.specs.Ends.{IsGreatest, IsGreatestBefore, IsLeastEnd, IsLeastEndAfter};

use std::collections::BTreeMap;
use std::ops::Bound;

/// A map from first ends to the numbers of writes.
pub type Ends = BTreeMap<u64, u32>;

/// The greatest end.
pub(crate) fn greatest(ends: &Ends) -> Option<u64>
    ensures { IsGreatest ends.now.entries result }
{
    match ends.last_key_value() {
        Some((end, _)) => Some(*end),
        None => None,
    }
}

/// The greatest end before the place.
pub(crate) fn greatest_before(ends: &Ends, place: u64) -> Option<u64>
    ensures { IsGreatestBefore ends.now.entries place result }
{
    match ends.range(..place).next_back() {
        Some((end, _)) => Some(*end),
        None => None,
    }
}

/// The least end, with its number.
pub(crate) fn first_end(ends: &Ends) -> Option<(u64, u32)>
    ensures { IsLeastEnd ends.now.entries result }
{
    match ends.first_key_value() {
        Some((end, number)) => Some((*end, *number)),
        None => None,
    }
}

/// The least end after that one, with its number.
pub(crate) fn first_end_after(ends: &Ends, end: u64) -> Option<(u64, u32)>
    ensures { IsLeastEndAfter ends.now.entries end result }
{
    match ends.range((Bound::Excluded(end), Bound::Unbounded)).next() {
        Some((next, number)) => Some((*next, *number)),
        None => None,
    }
}
