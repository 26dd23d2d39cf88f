//! The first write of each value.
ghost use Rattle.std.specs.Prelude.{◌≡◌, ◌<◌, ◌≤◌, ◌+◌, ◌↔◌, ℕ, IfOk, IsTrue, List, OnOk, Some, length, slice_get};
ghost use Rattle.recorder.specs.declared.part.Call.{Call};
ghost use Rattle.tag.specs.declared.actions.Action.TheVariants.{Write};
ghost use Rattle.value_order.specs.Classes.{IsFirstBelow, IsFirstWrite};
ghost use Rattle.value_order.specs.Firsts.{AreFirsts, AreKnown, IsProbed, WritesAt, mark_of, place_of};
ghost use Rattle.value_order.specs.declared.firsts.Probe.TheVariants as Probe;

use recorder::Part;
use std::alloc::Global;
use std::collections::BTreeMap;
use std::hash::{FoldHasher, Hasher};
use tag::Memory;

/// At how many places, from its mark's home on, a first write may stand.
const PLACES: usize = 16;

/// A place of the table: a value's mark, and the index of its first write. The mark 0 says that it is free.
#[derive(Clone, Copy)]
pub(crate) struct Slot {
    pub(crate) mark: u32,
    pub(crate) index: u32,
}

/// A place that is free.
const FREE: Slot = Slot { mark: 0, index: 0 };

/// What the places of a value's mark say of it.
#[derive(Clone, Copy)]
pub(crate) enum Probe {
    /// The index of its first write, which stands there.
    Stands(u32),
    /// It doesn't stand there, and that place is the first free one.
    Free(usize),
    /// It doesn't stand there, and none is free.
    Full,
}

/// The first write of each value.
#[derive(Drop)]
pub(crate) struct Firsts<'h> {
    /// The indexes of most of them, each at the first place that was free of the sixteen from its mark's
    /// home on. The places are a power of two, and at least twice as many as the calls.
    slots: Vec<Slot>,
    /// The indexes of those that found no free place: next to none, unless somebody chose the values. To
    /// look here takes a time that grows with the logarithm of their count.
    others: BTreeMap<&'h str, u32>,
}

/// The value's mark, which isn't 0. Two values may have one mark; that costs time, and changes no answer.
fn mark_of(value: &str) -> u32
    ensures { result ≡ mark_of value.now }
{
    let mut hasher = FoldHasher::default();
    hasher.write(value.as_bytes());
    let mark = (hasher.finish() >> 32) as u32;
    mark.max(1)
}

/// The place of that mark, so many steps from its home, in a table of so many.
fn place_of(mark: u32, steps: usize, count: usize) -> usize
    requires steps { steps < 16 }
    requires room { 0 < count }
    ensures place { result ≡ place_of mark steps count }
    ensures within { result < count }
{
    (mark as usize + steps) & (count - 1)
}

/// Whether the call at index `k` writes the value.
fn is_written(part: &Part<'_>, k: usize, value: &str) -> bool
    requires { k < length part.now }
    ensures { (call : Call) × (slice_get part.now k ≡ Some call)
        × (IsTrue result ↔ (call.action ≡ Write value.now)) }
{
    match part.call(k).action.written() {
        Some(written) => written.as_str() == value,
        None => false,
    }
}

/// What the places of that mark say of the value.
fn probe_places(part: &Part<'_>, slots: &[Slot], mark: u32, value: &str) -> Probe
    requires room { 0 < length slots.now }
    requires known { AreKnown part.now slots.now }
    ensures { IsProbed part.now slots.now mark value.now result }
{
    for steps in 0..PLACES {
        let place = place_of(mark, steps, slots.len());
        let slot = slots[place];
        if slot.mark == 0 {
            return Probe::Free(place);
        }
        if slot.mark == mark && is_written(part, slot.index as usize, value) {
            return Probe::Stands(slot.index);
        }
    }
    Probe::Full
}

impl<'h> Firsts<'h> {
    /// None, with room for those of so many calls.
    pub(crate) fn new(alloc: Global, calls: usize) -> Result<Firsts<'h>, Memory>
        ensures { IfOk result (λ firsts. (part : List Call)
            → AreFirsts part 0 firsts.slots.items firsts.others) }
    {
        let count = (calls.min(1 << 32) * 2).next_power_of_two();
        Ok(Firsts {
            slots: vec![in alloc; FREE; count]?,
            others: BTreeMap::new(alloc),
        })
    }

    /// The index of the first write of the value that the call at index `i` writes: a call before it, or
    /// itself, which is then kept.
    pub(crate) fn number(&mut self, part: &Part<'h>, i: u32, value: &'h str) -> Result<u32, Memory>
        requires firsts { AreFirsts part.now i self.old.slots.items self.old.others }
        requires writes { WritesAt part.now i value.now }
        ensures first { IfOk result (IsFirstWrite part.now value.now) }
        ensures kept { OnOk result (AreFirsts part.now (i + 1) self.new.slots.items self.new.others) }
    {
        let mark = mark_of(value);
        match probe_places(part, self.slots.as_slice(), mark, value) {
            Probe::Stands(first) => Ok(first),
            Probe::Free(place) => {
                self.slots[place] = Slot { mark, index: i };
                Ok(i)
            }
            Probe::Full => self.number_among_others(part, i, value),
        }
    }

    /// The same, where the value stands at no place of its mark, and none of these is free.
    fn number_among_others(
        &mut self,
        part: &Part<'h>,
        i: u32,
        value: &'h str,
    ) -> Result<u32, Memory>
        requires firsts { AreFirsts part.now i self.old.slots.items self.old.others }
        requires writes { WritesAt part.now i value.now }
        requires full { IsProbed part.now self.old.slots.items (mark_of value.now) value.now Probe.Full }
        ensures first { IfOk result (IsFirstWrite part.now value.now) }
        ensures kept { OnOk result (AreFirsts part.now (i + 1) self.new.slots.items self.new.others) }
    {
        if let Some(first) = self.others.get(value) {
            return Ok(*first);
        }
        self.others.insert(value, i)?;
        Ok(i)
    }

    /// The index of the value's first write, if there is one.
    pub(crate) fn find(&self, part: &Part<'h>, value: &str) -> Option<u32>
        requires { AreFirsts part.now (length part.now) self.now.slots.items self.now.others }
        ensures { IsFirstBelow part.now value.now (length part.now) result }
    {
        match probe_places(part, self.slots.as_slice(), mark_of(value), value) {
            Probe::Stands(first) => Some(first),
            Probe::Free(_) => None,
            Probe::Full => self.others.get(value).copied(),
        }
    }
}
