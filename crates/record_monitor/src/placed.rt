//! Calls by the places where they began.
ghost use Rattle.std.specs.Prelude.{◌≡◌, ℕ, None, OnOk};
ghost use Rattle.monitored_key.specs.Maps.{Lacks, Sets, entry_at};
ghost use Rattle.record_monitor.specs.Placed.{NotesAt, StaysIn, call_in, has_begun, noted_as};

use crate::told::{ToldCall, ToldNote};
use std::alloc::Global;
use std::collections::BTreeMap;
use tag::{Memory, OpId};

/// Calls, each at the place where it began. One needs no block: it stands in front of the map.
#[derive(Drop)]
pub(crate) struct Placed {
    first: Option<ToldCall>,
    more: BTreeMap<u64, ToldCall>,
}

/// The call is noted, if it has that number.
fn note_call(call: &mut ToldCall, op: OpId, note: &ToldNote)
    ensures { call.new ≡ noted_as op note.now call.old }
{
    if call.op.0 == op.0 {
        call.noted = Some(*note);
    }
}

/// The call of the map that began there is noted, if it has that number.
fn note_in(calls: &mut BTreeMap<u64, ToldCall>, place: u64, op: OpId, note: &ToldNote)
    ensures { NotesAt (entry_at calls.old.entries) place op note.now (entry_at calls.new.entries) }
{
    if let Some(call) = calls.get_mut(&place) {
        note_call(call, op, note);
    }
}

/// Whether the call is there, and began at that place.
fn has_begun(call: &Option<ToldCall>, place: u64) -> bool
    ensures { result ≡ has_begun call.now place }
{
    match call {
        Some(call) => call.begun == place,
        None => false,
    }
}

impl Placed {
    /// No calls.
    pub(crate) fn new(alloc: Global) -> Placed
        ensures { (place : ℕ) → call_in result place ≡ None }
    {
        Placed {
            first: None,
            more: BTreeMap::new(alloc),
        }
    }

    /// The call that began there.
    pub(crate) fn get(&self, place: u64) -> Option<ToldCall>
        ensures { result ≡ call_in self.now place }
    {
        if has_begun(&self.first, place) {
            return self.first;
        }
        self.more.get(&place).copied()
    }

    /// Puts the call where it began.
    pub(crate) fn put(&mut self, call: &ToldCall) -> Result<(), Memory>
        ensures { OnOk result (Sets (call_in self.old) call.now.begun call.now (call_in self.new)) }
    {
        if self.first.is_none() || has_begun(&self.first, call.begun) {
            self.first = Some(*call);
            return Ok(());
        }
        self.more.insert(call.begun, *call)?;
        Ok(())
    }

    /// Takes out the call that began there.
    pub(crate) fn take(&mut self, place: u64) -> Option<ToldCall>
        ensures value { result ≡ call_in self.old place }
        ensures gone { Lacks (call_in self.old) place (call_in self.new) }
    {
        let other = self.more.remove(&place);
        if has_begun(&self.first, place) {
            return self.first.take();
        }
        other
    }

    /// The call that began there is noted, if it has that number.
    pub(crate) fn note(&mut self, place: u64, op: OpId, note: &ToldNote)
        ensures at { NotesAt (call_in self.old) place op note.now (call_in self.new) }
        ensures stays { StaysIn self.old self.new }
    {
        match &mut self.first {
            Some(call) if call.begun == place => note_call(call, op, note),
            _ => note_in(&mut self.more, place, op, note),
        }
    }
}
