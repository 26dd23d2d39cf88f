//! A slot for one kept write, in front of others.
ghost use Rattle.std.specs.Prelude.{◌≡◌, ◌≤◌, ℕ, List, Option, Some, None, IfSome, MatchBool, MatchOption};
ghost use Rattle.std.specs.Option.{option_map};
ghost use Rattle.kept_zones.specs.Overwriting.{IsOverwritten, Known};
ghost use Rattle.key_monitor.specs.KeptWrites.{HasNoneFresh, IsFreshBy, KeptWrite};
ghost use Rattle.monitored_key.specs.Maps.{entry_at};
ghost use Rattle.monitored_key.specs.Readable.{AreReadable, AreStale, with_candidate, with_stale};
ghost use Rattle.monitored_key.specs.Slots.{GoesHere, HasEndHere, HasOtherEnd, HasOtherNumber, IsHighIn, owner_beside, put_before};

use crate::stale::Stale;
use crate::write::Write;
use kept_writers::Candidates;
use kept_zones::Zones;

/// A kept write with its number, or room for one.
pub(crate) type Slot = Option<(u32, Write)>;

/// The slot's write, if it has that number.
pub(crate) fn write_at(slot: &Slot, number: u32) -> Option<&Write>
    ensures { MatchOption result
        ((es : List (ℕ × KeptWrite)) → entry_at (put_before slot.now es) number ≡ entry_at es number)
        (λ w. (es : List (ℕ × KeptWrite)) → entry_at (put_before slot.now es) number ≡ Some w.now) }
{
    match slot {
        Some((own, write)) if *own == number => Some(write),
        _ => None,
    }
}

/// The number of the slot's write.
pub(crate) fn number_of(slot: &Slot) -> Option<u32>
    ensures { result ≡ option_map (λ w. w.0) slot.now }
{
    match slot {
        Some((number, _)) => Some(*number),
        None => None,
    }
}

/// The number of the slot's write, if its family ended first there.
pub(crate) fn owner_at(slot: &Slot, end: u64) -> Option<u32>
    ensures { (others : ℕ → Option ℕ) → MatchOption result
        (owner_beside slot.now others end ≡ others end)
        (λ n. owner_beside slot.now others end ≡ Some n) }
{
    match slot {
        Some((number, write)) if write.end() == Some(end) => Some(*number),
        _ => None,
    }
}

/// The slot's write ends first at the place, if it has that number; answers whether it has.
pub(crate) fn end_at(slot: &mut Slot, number: u32, place: u64) -> bool
    ensures { MatchBool result (HasEndHere slot.old number place slot.new)
        (HasOtherNumber slot.old number × (slot.new ≡ slot.old)) }
{
    match slot {
        Some((own, write)) if *own == number => {
            write.set_end(place);
            true
        }
        _ => false,
    }
}

/// Forgets the slot's write, if its family ended first there; answers whether it did.
pub(crate) fn forget_at(slot: &mut Slot, end: u64) -> bool
    ensures { MatchBool result (GoesHere slot.old end slot.new)
        (HasOtherEnd slot.old end × (slot.new ≡ slot.old)) }
{
    let is = match slot {
        Some((_, write)) => write.end() == Some(end),
        None => false,
    };
    if is {
        *slot = None;
    }
    is
}

/// Whether a read that began at the place may have read a write with that first end.
fn is_fresh(end: Option<u64>, zones: &Zones, begin: u64) -> bool
    requires { IfSome end (λ e. zones.now.floor ≤ e) }
    ensures { MatchBool result (IsFreshBy zones.now begin end)
        ((e : ℕ) × (end ≡ Some e) × IsOverwritten zones.now.zones begin e) }
{
    match end {
        Some(end) => zones.overwriter(end, begin).is_none(),
        None => true,
    }
}

/// The candidates with that write.
fn with_candidate(number: u32, rest: Candidates) -> Candidates
    ensures { result ≡ with_candidate number rest }
{
    match rest {
        Candidates::None => Candidates::One(number),
        Candidates::One(other) => Candidates::Several(number, other),
        Candidates::Several(other, _) => Candidates::Several(number, other),
    }
}

/// Which writes of the value a read that began at the place may have read, if of the others it may have read `rest`.
pub(crate) fn candidates_beside(
    slot: &Slot,
    text: &str,
    zones: &Zones,
    begin: u64,
    rest: Candidates,
) -> Candidates
    requires { IsHighIn slot.now zones.now.floor }
    ensures { (es : List (ℕ × KeptWrite)) → IfSome slot.now (λ w. entry_at es w.0 ≡ None)
        → AreReadable zones.now (entry_at es) begin text.now rest
        → AreReadable zones.now (entry_at (put_before slot.now es)) begin text.now result }
{
    match slot {
        Some((number, write)) if write.text() == text && is_fresh(write.end(), zones, begin) => {
            with_candidate(*number, rest)
        }
        _ => rest,
    }
}

/// The writes with that one, which ended first there.
fn with_stale(end: u64, number: u32, rest: Stale) -> Stale
    ensures { result ≡ with_stale end number rest }
{
    match rest {
        Stale::None => Stale::One(end, number),
        Stale::One(_, other) => Stale::Several(number, other),
        Stale::Several(other, _) => Stale::Several(number, other),
    }
}

/// The writes of the value, none of which a read can have read, if of the others these are `rest`.
pub(crate) fn stale_beside(slot: &Slot, text: &str, rest: Stale) -> Stale
    ensures { (es : List (ℕ × KeptWrite)) (known : Known) (begin : ℕ)
        → IfSome slot.now (λ w. entry_at es w.0 ≡ None)
        → HasNoneFresh known (entry_at (put_before slot.now es)) begin text.now
        → AreStale known (entry_at es) begin text.now rest
        → AreStale known (entry_at (put_before slot.now es)) begin text.now result }
{
    match slot {
        Some((number, write)) if write.text() == text => match write.end() {
            Some(end) => with_stale(end, *number, rest),
            None => rest,
        },
        _ => rest,
    }
}
