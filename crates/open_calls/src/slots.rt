//! Slots, each with room for a value and its number.
ghost use Rattle.std.specs.Prelude.{◌≡◌, ◌<◌, ◌≤◌, ℕ, Some, None, MatchBool, OnOk, OnErr, length, slice_get};
ghost use Rattle.std.specs.Option.{option_copied};
ghost use Rattle.open_calls.specs.declared.open_call.OpenCall.{OpenCall};
ghost use Rattle.open_calls.specs.Indexes.{entry_at};
ghost use Rattle.open_calls.specs.Numbered.{Empties, IsElsewhere, IsNoted, Leaves, MovesOut, Notes, Puts, held_in, home_of, left_in, slot_of};

use crate::open_call::OpenCall;
use std::collections::BTreeMap;
use tag::Memory;

/// How many slots there are.
const SLOTS: u64 = 64;

/// A number and its value, or room for them.
pub(crate) type Slot<T> = Option<(u64, T)>;

/// The place of the number's slot.
pub(crate) fn home_of(number: u64) -> usize
    ensures is { result ≡ home_of number }
    ensures small { result < 64 }
{
    (number % SLOTS) as usize
}

/// The slot's value, if it has that number.
fn held<T>(slot: &Slot<T>, number: u64) -> Option<&T>
    ensures { option_copied result ≡ held_in slot.now number }
{
    match slot {
        Some((own, value)) if *own == number => Some(value),
        _ => None,
    }
}

/// The value of that number, if it stands in its slot.
pub(crate) fn standing<T>(slots: &[Slot<T>], number: u64) -> Option<&T>
    ensures { option_copied result ≡ held_in (slot_of slots.now (home_of number)) number }
{
    match slots.get(home_of(number)) {
        Some(slot) => held(slot, number),
        None => None,
    }
}

/// Makes the slots, unless they are made.
pub(crate) fn make<T: Drop>(slots: &mut Vec<Slot<T>>) -> Result<(), Memory>
    ensures ok { OnOk result (64 ≤ length slots.new.items) }
    ensures same { (place : ℕ) → slot_of slots.new.items place ≡ slot_of slots.old.items place }
{
    while slots.len() < SLOTS as usize {
        slots.push(None)?;
    }
    Ok(())
}

/// Moves what stands in the slot to the others.
fn move_out<T: Drop>(slot: &mut Slot<T>, others: &mut BTreeMap<u64, T>) -> Result<(), Memory>
    ensures ok { OnOk result (slot.new ≡ None) }
    ensures moved { OnOk result
        (MovesOut slot.old (entry_at others.old.entries) (entry_at others.new.entries)) }
    ensures err { OnErr result (slot.new ≡ slot.old) }
    ensures stays { OnErr result (others.new.entries ≡ others.old.entries) }
{
    let Some((number, value)) = slot.take() else {
        return Ok(());
    };
    match others.insert(number, value) {
        Ok(_) => Ok(()),
        Err(failed) => {
            *slot = Some(failed.value);
            Err(Memory)
        }
    }
}

/// Takes the slot's value out, if it has that number.
fn take_out<T: Drop>(slot: &mut Slot<T>, number: u64) -> Option<T>
    ensures value { result ≡ held_in slot.old number }
    ensures left { slot.new ≡ left_in slot.old number }
{
    if held(slot, number).is_none() {
        return None;
    }
    match slot.take() {
        Some((_, value)) => Some(value),
        None => None,
    }
}

/// Takes the value of that number out of its slot, if it stands there.
pub(crate) fn take_from<T: Drop>(slots: &mut Vec<Slot<T>>, number: u64) -> Option<T>
    ensures value { result ≡ held_in (slot_of slots.old.items (home_of number)) number }
    ensures left { Leaves (slot_of slots.old.items) number (slot_of slots.new.items) }
{
    let home = home_of(number);
    if home < slots.len() {
        take_out(&mut slots[home], number)
    } else {
        None
    }
}

/// The slot's call has a note, if it has that number; answers whether it has.
fn note_at<T>(slot: &mut Slot<OpenCall<T>>, number: u64) -> bool
    ensures { MatchBool result (IsNoted slot.old number slot.new)
        ((held_in slot.old number ≡ None) × (slot.new ≡ slot.old)) }
{
    match slot {
        Some((own, call)) if *own == number => {
            call.is_noted = true;
            true
        }
        _ => false,
    }
}

/// The call of that number has a note, if it stands in its slot; answers whether it does.
pub(crate) fn note_standing<T>(slots: &mut Vec<Slot<OpenCall<T>>>, number: u64) -> bool
    ensures { MatchBool result (Notes (slot_of slots.old.items) number (slot_of slots.new.items))
        (IsElsewhere (slot_of slots.old.items) number (slot_of slots.new.items)) }
{
    let home = home_of(number);
    if home < slots.len() {
        note_at(&mut slots[home], number)
    } else {
        false
    }
}

/// Puts the value into the slot at that place.
pub(crate) fn put<T: Drop>(slots: &mut Vec<Slot<T>>, place: usize, number: u64, value: T)
    requires { place < length slots.old.items }
    ensures { Puts (slot_of slots.old.items) place (Some (number, value)) (slot_of slots.new.items) }
{
    slots[place] = Some((number, value));
}

/// Moves what stands in the slot at that place to the others.
pub(crate) fn empty<T: Drop>(
    slots: &mut Vec<Slot<T>>,
    place: usize,
    others: &mut BTreeMap<u64, T>,
) -> Result<(), Memory>
    requires { place < length slots.old.items }
    ensures ok { OnOk result (Empties (slot_of slots.old.items) place (entry_at others.old.entries)
        (slot_of slots.new.items) (entry_at others.new.entries)) }
    ensures many { length slots.new.items ≡ length slots.old.items }
    ensures err { OnErr result ((at : ℕ) → slot_of slots.new.items at ≡ slot_of slots.old.items at) }
    ensures stays { OnErr result (others.new.entries ≡ others.old.entries) }
{
    move_out(&mut slots[place], others)
}
