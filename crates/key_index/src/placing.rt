//! Numbers of keys, placed in a table or among the others.
ghost use Rattle.std.specs.Prelude.{◌≡◌, ◌≢◌, ◌⊎◌, ◌++◌, ◌∷◌, [], List, ℕ, Some, IfOk, OnOk, OnErr};
ghost use Rattle.std.specs.List.{slice_get, Contains};
ghost use Rattle.key_index.specs.Marks.{mark_of};
ghost use Rattle.key_index.specs.Numbers.{EachOnce};
ghost use Rattle.key_index.specs.Placed.{AreRight, ArePlaced, Grows, Has, StillStand};
ghost use Rattle.key_index.specs.Slots.{free, Stands};

use crate::slots::{FREE, FREE_SLOT, Slot, put};
use std::alloc::Global;
use std::collections::BTreeMap;
use tag::{Key, KeyText, Memory};

/// Puts that number, if a key has it, among the others.
fn put_among_others(
    others: &mut BTreeMap<KeyText, usize>,
    keys: &[Key],
    number: usize,
) -> Result<(), Memory>
    requires distinct { EachOnce keys.now }
    requires right { AreRight others.old keys.now }
    ensures grows { Grows others.old others.new keys.now }
    ensures ok { OnOk result
        ((key : List ℕ) → slice_get keys.now number ≡ Some key → Has others.new key number) }
{
    if let Some(key) = keys.get(number) {
        others.insert(KeyText::of(key), number)?;
    }
    Ok(())
}

/// Puts the slot's number, if it has one, into the new table, or among the others.
fn move_slot(
    slot: Slot,
    slots: &mut [Slot],
    others: &mut BTreeMap<KeyText, usize>,
    keys: &[Key],
) -> Result<(), Memory>
    requires distinct { EachOnce keys.now }
    requires right { AreRight others.old keys.now }
    ensures grows { Grows others.old others.new keys.now }
    ensures kept { StillStand slots.old slots.new }
    ensures ok { OnOk result ((key : List ℕ) → slice_get keys.now slot.number ≡ Some key
        → slot.number ≢ free → Stands slots.new slot.mark slot.number ⊎ Has others.new key slot.number) }
{
    let number = slot.number as usize;
    if slot.number == FREE || put(slots, slot.mark, number) {
        return Ok(());
    }
    put_among_others(others, keys, number)
}

/// A table of so many slots, with the numbers that stand in `slots`. A number that finds no free place
/// in it is put among the others. `Memory` may leave more numbers among the others, each its key's.
pub(crate) fn enlarged(
    alloc: Global,
    count: usize,
    slots: &[Slot],
    others: &mut BTreeMap<KeyText, usize>,
    keys: &[Key],
) -> Result<Vec<Slot>, Memory>
    requires { ArePlaced slots.now others.old keys.now }
    ensures ok { IfOk result (λ made. ArePlaced made.items others.new keys.now) }
    ensures still { ArePlaced slots.now others.new keys.now }
{
    let mut made = vec![in alloc; FREE_SLOT; count]?;
    for slot in slots {
        move_slot(*slot, &mut made, others, keys)?;
    }
    Ok(made)
}

/// Places the next number, which is that key's, in the table or among the others.
pub(crate) fn place_next(
    slots: &mut [Slot],
    others: &mut BTreeMap<KeyText, usize>,
    keys: &[Key],
    mark: u32,
    key: &Key,
) -> Result<(), Memory>
    requires placed { ArePlaced slots.old others.old keys.now }
    requires mark { mark ≡ mark_of key.now }
    requires unseen { Contains keys.now key.now → ⊥ }
    ensures ok { OnOk result (ArePlaced slots.new others.new (keys.now ++ key.now ∷ [])) }
    ensures err { OnErr result (ArePlaced slots.new others.new keys.now) }
{
    let number = keys.len();
    if put(slots, mark, number) {
        return Ok(());
    }
    others.insert(KeyText::of(key), number)?;
    Ok(())
}
