//! Room for one entry, in front of others.
ghost use Rattle.std.specs.Prelude.{◌≡◌, ◌≢◌, ◌∷◌, ℕ, List, Some, MatchBool, MatchOption, IfSome, IsTrue};
ghost use Rattle.kept_zones.specs.Nearest.{IsEarlier, IsFirstAfter, IsFirstOfAll, IsLastBefore, IsLastUpTo, IsLater};
ghost use Rattle.kept_zones.specs.Overwriting.{last_of};
ghost use Rattle.kept_zones.specs.Places.{HasNoOther, LacksKey, put_before};

use crate::nearest::Entry;

/// Whether the entry has that key.
pub(crate) fn is_at(slot: Option<Entry>, key: u64) -> bool
    ensures { MatchBool result ((value : ℕ) × (slot ≡ Some (key, value)))
        (IfSome slot (λ e. e.0 ≢ key)) }
{
    match slot {
        Some(entry) => entry.0 == key,
        None => false,
    }
}

/// What is at the key, if the others have `rest` there.
pub(crate) fn value_at(slot: Option<Entry>, key: u64, rest: Option<u64>) -> Option<u64>
    ensures { (es : List (ℕ × ℕ)) → last_of es key ≡ rest
        → last_of (put_before slot es) key ≡ result }
{
    match slot {
        Some(entry) if entry.0 == key => Some(entry.1),
        _ => rest,
    }
}

/// Whether the entry has that key, if there is one.
pub(crate) fn has_no_other(slot: Option<Entry>, key: u64) -> bool
    ensures { IsTrue result → (es : List (ℕ × ℕ)) → HasNoOther es key
        → HasNoOther (put_before slot es) key }
{
    match slot {
        Some(entry) => entry.0 == key,
        None => true,
    }
}

/// Nothing, if the entry has that key; else the entry.
pub(crate) fn without(slot: Option<Entry>, key: u64) -> Option<Entry>
    ensures { (old new : List (ℕ × ℕ)) → LacksKey old key new
        → LacksKey (put_before slot old) key (put_before result new) }
{
    if is_at(slot, key) { None } else { slot }
}

/// The later of the entry and the other, if there is one.
fn later(entry: Entry, other: Option<Entry>) -> Option<Entry>
    ensures { IsLater entry other result }
{
    match other {
        Some(next) if entry.0 < next.0 => other,
        _ => Some(entry),
    }
}

/// The earlier of the entry and the other, if there is one.
fn earlier(entry: Entry, other: Option<Entry>) -> Option<Entry>
    ensures { IsEarlier entry other result }
{
    match other {
        Some(next) if next.0 < entry.0 => other,
        _ => Some(entry),
    }
}

/// The last entry before the place, if `rest` is that of the others.
pub(crate) fn last_before(slot: Option<Entry>, place: u64, rest: Option<Entry>) -> Option<Entry>
    ensures { (es : List (ℕ × ℕ)) → IsLastBefore es place rest
        → IsLastBefore (put_before slot es) place result }
{
    match slot {
        Some(entry) if entry.0 < place => later(entry, rest),
        _ => rest,
    }
}

/// The last entry up to the place, if `rest` is that of the others.
pub(crate) fn last_up_to(slot: Option<Entry>, place: u64, rest: Option<Entry>) -> Option<Entry>
    ensures { (es : List (ℕ × ℕ)) → IsLastUpTo es place rest
        → IsLastUpTo (put_before slot es) place result }
{
    match slot {
        Some(entry) if entry.0 <= place => later(entry, rest),
        _ => rest,
    }
}

/// The first entry after the place, if `rest` is that of the others.
pub(crate) fn first_after(slot: Option<Entry>, place: u64, rest: Option<Entry>) -> Option<Entry>
    ensures { (es : List (ℕ × ℕ)) → IsFirstAfter es place rest
        → IsFirstAfter (put_before slot es) place result }
{
    match slot {
        Some(entry) if place < entry.0 => earlier(entry, rest),
        _ => rest,
    }
}

/// The first entry, if `rest` is that of the others.
pub(crate) fn first_of_all(slot: Option<Entry>, rest: Option<Entry>) -> Option<Entry>
    ensures { (es : List (ℕ × ℕ)) → IsFirstOfAll es rest → IsFirstOfAll (put_before slot es) result }
{
    match slot {
        Some(entry) => earlier(entry, rest),
        None => rest,
    }
}
