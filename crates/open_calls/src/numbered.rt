//! Values by number.
ghost use Rattle.std.specs.Prelude.{◌≡◌, ℕ, Some, None, IsSome, OnOk, OnErr};
ghost use Rattle.std.specs.Option.{option_copied};
ghost use Rattle.open_calls.specs.declared.open_call.OpenCall.{OpenCall};
ghost use Rattle.open_calls.specs.Indexes.{entry_at};
ghost use Rattle.open_calls.specs.Numbered.{AreFit, Sets, noted_call, value_in};

use crate::open_call::OpenCall;
use crate::slots::{Slot, empty, home_of, make, note_standing, put, standing, take_from};
use std::alloc::Global;
use std::collections::BTreeMap;
use tag::Memory;

/// Values by number: the latest stand in slots, where they are found at once, and the others in a tree.
///
/// A number shares its slot with each 64th number. A value that comes takes the slot, and what stood there goes to the tree.
#[derive(Drop)]
pub(crate) struct Numbered<T> {
    /// No slots until a value comes, and from then on 64.
    slots: Vec<Slot<T>>,
    others: BTreeMap<u64, T>,
}

/// The call of that number has a note, if it is there.
fn note_in<T>(calls: &mut BTreeMap<u64, OpenCall<T>>, number: u64)
    ensures { (call : OpenCall T) → entry_at calls.old.entries number ≡ Some call
        → Sets (entry_at calls.old.entries) number (Some (noted_call call))
        (entry_at calls.new.entries) }
{
    if let Some(call) = calls.get_mut(&number) {
        call.is_noted = true;
    }
}

impl<T: Drop> Numbered<T> {
    /// No values.
    pub(crate) fn new(alloc: Global) -> Numbered<T>
        ensures fit { AreFit result }
        ensures none { (number : ℕ) → value_in result number ≡ None }
    {
        Numbered {
            slots: Vec::new(alloc),
            others: BTreeMap::new(alloc),
        }
    }

    /// The value of that number.
    pub(crate) fn get(&self, number: u64) -> Option<&T>
        ensures { option_copied result ≡ value_in self.now number }
    {
        match standing(self.slots.as_slice(), number) {
            Some(value) => Some(value),
            None => self.others.get(&number),
        }
    }

    /// Adds the value of a number that has none. `Memory` leaves all as it was.
    pub(crate) fn insert(&mut self, number: u64, value: T) -> Result<(), Memory>
        requires fit { AreFit self.old }
        requires new { value_in self.old number ≡ None }
        ensures fit { AreFit self.new }
        ensures ok { OnOk result (Sets (value_in self.old) number (Some value) (value_in self.new)) }
        ensures err { OnErr result ((n : ℕ) → value_in self.new n ≡ value_in self.old n) }
    {
        make(&mut self.slots)?;
        let home = home_of(number);
        empty(&mut self.slots, home, &mut self.others)?;
        put(&mut self.slots, home, number, value);
        Ok(())
    }

    /// Takes out the value of that number.
    pub(crate) fn remove(&mut self, number: u64) -> Option<T>
        requires fit { AreFit self.old }
        ensures fit { AreFit self.new }
        ensures value { result ≡ value_in self.old number }
        ensures gone { Sets (value_in self.old) number None (value_in self.new) }
    {
        match take_from(&mut self.slots, number) {
            Some(value) => Some(value),
            None => self.others.remove(&number),
        }
    }
}

impl<T: Drop> Numbered<OpenCall<T>> {
    /// The call of that number has a note.
    pub(crate) fn note(&mut self, number: u64)
        requires fit { AreFit self.old }
        requires there { IsSome (value_in self.old number) }
        ensures fit { AreFit self.new }
        ensures noted { (call : OpenCall T) → value_in self.old number ≡ Some call
            → Sets (value_in self.old) number (Some (noted_call call)) (value_in self.new) }
    {
        if !note_standing(&mut self.slots, number) {
            note_in(&mut self.others, number);
        }
    }
}
