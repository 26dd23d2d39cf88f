//! The entry of a map that is nearest to a place.
ghost use Rattle.kept_zones.specs.Nearest.{IsFirstAfter, IsFirstOfAll, IsLastBefore, IsLastUpTo};

use std::collections::BTreeMap;
use std::ops::Bound;

/// A place with what is there.
pub type Entry = (u64, u64);

/// A tree of places.
pub(crate) type Tree = BTreeMap<u64, u64>;

/// The last entry before the place.
pub(crate) fn last_before(places: &Tree, place: u64) -> Option<Entry>
    ensures { IsLastBefore places.now.entries place result }
{
    match places.range(..place).next_back() {
        Some((key, value)) => Some((*key, *value)),
        None => None,
    }
}

/// The last entry up to the place.
pub(crate) fn last_up_to(places: &Tree, place: u64) -> Option<Entry>
    ensures { IsLastUpTo places.now.entries place result }
{
    match places.range(..=place).next_back() {
        Some((key, value)) => Some((*key, *value)),
        None => None,
    }
}

/// The first entry after the place.
pub(crate) fn first_after(places: &Tree, place: u64) -> Option<Entry>
    ensures { IsFirstAfter places.now.entries place result }
{
    match places
        .range((Bound::Excluded(place), Bound::Unbounded))
        .next()
    {
        Some((key, value)) => Some((*key, *value)),
        None => None,
    }
}

/// The first entry.
pub(crate) fn first_of_all(places: &Tree) -> Option<Entry>
    ensures { IsFirstOfAll places.now.entries result }
{
    match places.first_key_value() {
        Some((key, value)) => Some((*key, *value)),
        None => None,
    }
}
