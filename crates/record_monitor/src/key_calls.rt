//! Calls of a key by which a refusal is told.
ghost use Rattle.std.specs.Prelude.{◌≡◌, [], ◌∷◌, ◌++◌, ℕ, true, List, Some, IfOk, IfSome, OnOk, IsSome, IsTrue, Contains, filter, find};
ghost use Rattle.std.specs.Option.{option_copied};
ghost use Rattle.recorder.specs.declared.row.Row.{Row};
ghost use Rattle.monitored_key.specs.declared.kept_zone.KeptZone.{KeptZone as Zone};
ghost use Rattle.record_monitor.specs.KeyCalls.{AreAmong, AreNotes, AreToldAt, GoesOver, HasAnswered, HasBegun};
ghost use Rattle.record_monitor.specs.KeyCalls.{KeepsAll, KeepsCalls, KnowsCalls};
ghost use Rattle.record_monitor.specs.Placed.{StaysBut, StaysIn};
ghost use Rattle.record_monitor.specs.KeyCalls.{has_place, is_begun_at, is_ended_at};
ghost use Rattle.record_monitor.specs.Told.{EndedAs, HasAnswerAt, HasNoteAt, IsToldCall};

use crate::placed::Placed;
use crate::told::{ToldCall, ToldNote};
use monitored_key::KeptZone;
use std::alloc::Global;
use std::collections::{BTreeMap, BTreeSet};
use tag::{Memory, OpId};

/// So few answered calls are kept without asking which of them are needed.
const FEW: usize = 16;

/// The note of a pending read of that number.
#[derive(Clone, Copy, Debug, Drop)]
pub(crate) struct ReadNote {
    op: OpId,
    note: ToldNote,
}

/// A call that showed a value, and that value.
#[derive(Drop)]
pub(crate) struct Shown {
    pub call: ToldCall,
    pub value: String,
}

/// The calls of a key by which a refusal may be told.
///
/// These are the pending writes, and of the answered calls the writes of the kept families, the calls of them that ended first
/// and that began last, and at most as many again. A pending read is told only once it is answered: of it only a note is kept.
#[derive(Drop)]
pub(crate) struct KeyCalls {
    alloc: Global,
    /// The pending writes, by the place where they began.
    writes: Placed,
    /// The notes of pending reads, by the place where these began, but for those that were given up.
    notes: BTreeMap<u64, ReadNote>,
    /// Answered calls, in no order.
    answered: Vec<ToldCall>,
    /// The call that first showed a value.
    first: Option<Shown>,
    /// How many answered calls were left when those were dropped that no family needs.
    needed: usize,
}

/// Adds the call.
fn add(calls: &mut Vec<ToldCall>, call: &ToldCall) -> Result<(), Memory>
    ensures { OnOk result (calls.new.items ≡ calls.old.items ++ call.now ∷ []) }
{
    let ToldCall {
        op,
        client,
        is_write,
        begun,
        noted,
        answered,
    } = *call;
    calls.push(ToldCall {
        op,
        client,
        is_write,
        begun,
        noted,
        answered,
    })?;
    Ok(())
}

/// Takes out the write that began there, and gives its note, if it is there and has one.
fn take_write(writes: &mut Placed, begin: u64, op: OpId) -> Option<ToldNote>
    ensures note { (rows : List Row) (key : List ℕ) → AreToldAt rows key writes.old
        → IfSome result (HasNoteAt rows op) }
    ensures told { (rows : List Row) (key : List ℕ) → AreToldAt rows key writes.old
        → AreToldAt rows key writes.new }
    ensures stays { StaysBut begin writes.old writes.new }
{
    match writes.take(begin) {
        Some(call) if call.op.0 == op.0 => call.noted,
        _ => None,
    }
}

/// Takes out the note of the read that began there, if it has one.
fn take_note(notes: &mut BTreeMap<u64, ReadNote>, begin: u64, op: OpId) -> Option<ToldNote>
    ensures note { (rows : List Row) → AreNotes rows notes.old → IfSome result (HasNoteAt rows op) }
    ensures notes { (rows : List Row) → AreNotes rows notes.old → AreNotes rows notes.new }
{
    match notes.remove(&begin) {
        Some(noted) if noted.op.0 == op.0 => Some(noted.note),
        _ => None,
    }
}

/// The first of the calls that began there.
fn begun_in(calls: &[ToldCall], place: u64) -> Option<&ToldCall>
    ensures { option_copied result ≡ find (is_begun_at place) calls.now }
{
    calls.iter().find(|call| call.begun == place)
}

/// The first of the calls that was answered there.
fn ended_in(calls: &[ToldCall], place: u64) -> Option<&ToldCall>
    ensures { option_copied result ≡ find (is_ended_at place) calls.now }
{
    calls.iter().find(|call| call.is_ended_at(place))
}

/// The places of the zones.
fn places_of(alloc: Global, zones: &[KeptZone]) -> Result<BTreeSet<u64>, Memory>
    ensures { IfOk result (λ places. (zone : Zone) → Contains zones.now zone → AreAmong places zone) }
{
    let mut places = BTreeSet::new(alloc);
    for zone in zones {
        places.insert(zone.begin)?;
        places.insert(zone.last)?;
        places.insert(zone.end)?;
    }
    Ok(places)
}

/// Whether the call began or was answered at one of the places.
fn has_place(places: &BTreeSet<u64>, call: &ToldCall) -> bool
    ensures { result ≡ has_place places.now call.now }
{
    if places.contains(&call.begun) {
        return true;
    }
    match call.answered {
        Some(end) => places.contains(&end),
        None => false,
    }
}

/// Keeps the calls that began or were answered at one of the places.
fn keep_at(calls: &mut Vec<ToldCall>, places: &BTreeSet<u64>)
    ensures { calls.new.items ≡ filter (has_place places.now) calls.old.items }
{
    calls.retain(|call| has_place(places, call));
}

impl KeyCalls {
    /// No calls.
    pub(crate) fn new(alloc: Global) -> KeyCalls
        ensures { (rows : List Row) (key : List ℕ) → KnowsCalls rows key result }
    {
        KeyCalls {
            alloc,
            writes: Placed::new(alloc),
            notes: BTreeMap::new(alloc),
            answered: Vec::new(alloc),
            first: None,
            needed: 0,
        }
    }

    /// A call begins.
    pub(crate) fn begin(&mut self, call: &ToldCall) -> Result<(), Memory>
        ensures knows { OnOk result ((rows : List Row) (key : List ℕ) → KnowsCalls rows key self.old
            → IsToldCall rows key call.now → KnowsCalls rows key self.new) }
        ensures keeps { OnOk result (KeepsAll self.old self.new) }
        ensures here { OnOk result (call.now.is_write ≡ true → HasBegun self.new call.now.begun) }
    {
        if call.is_write {
            self.writes.put(call)
        } else {
            Ok(())
        }
    }

    /// The pending call that began there is noted.
    pub(crate) fn note(
        &mut self,
        begin: u64,
        op: OpId,
        is_write: bool,
        note: &ToldNote,
    ) -> Result<(), Memory>
        ensures knows { OnOk result ((rows : List Row) (key : List ℕ) → KnowsCalls rows key self.old
            → HasNoteAt rows op note.now → KnowsCalls rows key self.new) }
        ensures keeps { KeepsAll self.old self.new }
    {
        if is_write {
            self.writes.note(begin, op, note);
            return Ok(());
        }
        self.notes.insert(begin, ReadNote { op, note: *note })?;
        Ok(())
    }

    /// The pending read that began there is given up.
    pub(crate) fn give_up(&mut self, begin: u64)
        ensures knows { (rows : List Row) (key : List ℕ) → KnowsCalls rows key self.old
            → KnowsCalls rows key self.new }
        ensures keeps { KeepsAll self.old self.new }
    {
        self.notes.remove(&begin);
    }

    /// Takes out what is kept of the pending call, and gives its note, if it has one.
    fn take_pending(&mut self, call: &ToldCall) -> Option<ToldNote>
        ensures knows { (rows : List Row) (key : List ℕ) → KnowsCalls rows key self.old
            → KnowsCalls rows key self.new }
        ensures note { (rows : List Row) (key : List ℕ) → KnowsCalls rows key self.old
            → IfSome result (HasNoteAt rows call.now.op) }
        ensures answered { self.new.answered ≡ self.old.answered }
        ensures writes { StaysBut call.now.begun self.old.writes self.new.writes }
    {
        if call.is_write {
            take_write(&mut self.writes, call.begun, call.op)
        } else {
            take_note(&mut self.notes, call.begun, call.op)
        }
    }

    /// The pending call with its answer, and with its note, if it has one. It is kept no longer as pending.
    pub(crate) fn answered(&mut self, call: &ToldCall, place: u64) -> ToldCall
        ensures knows { (rows : List Row) (key : List ℕ) → KnowsCalls rows key self.old
            → KnowsCalls rows key self.new }
        ensures told { (rows : List Row) (key : List ℕ) → KnowsCalls rows key self.old
            → IsToldCall rows key call.now → HasAnswerAt rows call.now.op place
            → IsToldCall rows key result }
        ensures same { EndedAs call.now place result }
        ensures answered { self.new.answered ≡ self.old.answered }
        ensures writes { StaysBut call.now.begun self.old.writes self.new.writes }
    {
        let noted = self.take_pending(call);
        ToldCall {
            op: call.op,
            client: call.client,
            is_write: call.is_write,
            begun: call.begun,
            noted,
            answered: Some(place),
        }
    }

    /// The call shows the value, if it shows one: as the first if none did before.
    fn show(&mut self, call: &ToldCall, value: Option<&str>) -> Result<(), Memory>
        ensures knows { OnOk result ((rows : List Row) (key : List ℕ) → KnowsCalls rows key self.old
            → IsToldCall rows key call.now → KnowsCalls rows key self.new) }
        ensures answered { self.new.answered ≡ self.old.answered }
        ensures writes { self.new.writes ≡ self.old.writes }
    {
        let Some(text) = value else {
            return Ok(());
        };
        if self.first.is_none() {
            self.first = Some(Shown {
                call: *call,
                value: String::from_str(self.alloc, text)?,
            });
        }
        Ok(())
    }

    /// The answered call is kept, and shows the value, if it shows one.
    pub(crate) fn end(&mut self, call: &ToldCall, value: Option<&str>) -> Result<(), Memory>
        ensures knows { OnOk result ((rows : List Row) (key : List ℕ) → KnowsCalls rows key self.old
            → IsToldCall rows key call.now → KnowsCalls rows key self.new) }
        ensures keeps { OnOk result (KeepsCalls self.old self.new) }
        ensures begun { OnOk result (HasBegun self.new call.now.begun) }
        ensures ended { OnOk result ((place : ℕ) → call.now.answered ≡ Some place
            → HasAnswered self.new place) }
    {
        add(&mut self.answered, call)?;
        self.show(call, value)
    }

    /// The call that began there, if it is kept.
    pub(crate) fn begun_at(&self, begin: u64) -> Option<ToldCall>
        ensures told { (rows : List Row) (key : List ℕ) → KnowsCalls rows key self.now
            → IfSome result (λ call. IsToldCall rows key call × (call.begun ≡ begin)) }
        ensures there { HasBegun self.now begin → IsSome result }
    {
        match begun_in(self.answered.as_slice(), begin) {
            Some(call) => Some(*call),
            None => self.writes.get(begin),
        }
    }

    /// The call that was answered there, if it is kept.
    pub(crate) fn ended_at(&self, end: u64) -> Option<ToldCall>
        ensures told { (rows : List Row) (key : List ℕ) → KnowsCalls rows key self.now
            → IfSome result (λ call. IsToldCall rows key call × (call.answered ≡ Some end)) }
        ensures there { HasAnswered self.now end → IsSome result }
    {
        ended_in(self.answered.as_slice(), end).copied()
    }

    /// The call that first showed a value.
    pub(crate) fn first(&self) -> Option<&Shown>
        ensures { option_copied result ≡ self.now.first }
    {
        self.first.as_ref()
    }

    /// Keeps no calls.
    pub(crate) fn clear(&mut self)
        ensures { (rows : List Row) (key : List ℕ) → KnowsCalls rows key self.new }
    {
        *self = KeyCalls::new(self.alloc);
    }

    /// What its texts and lists are kept by.
    pub(crate) fn alloc(&self) -> Global {
        self.alloc
    }

    /// Whether the answered calls are many, and more than half of them may not be needed.
    pub(crate) fn is_full(&self) -> bool {
        let count = self.answered.len();
        count >= FEW && count / 2 >= self.needed
    }

    /// Drops the answered calls that no family needs whose zone is among these.
    pub(crate) fn keep_only(&mut self, zones: &[KeptZone]) -> Result<(), Memory>
        ensures knows { OnOk result ((rows : List Row) (key : List ℕ) → KnowsCalls rows key self.old
            → KnowsCalls rows key self.new) }
        ensures keeps { OnOk result ((zone : Zone) → Contains zones.now zone
            → GoesOver self.old self.new zone) }
        ensures pending { OnOk result (StaysIn self.old.writes self.new.writes) }
        ensures first { OnOk result (self.new.first ≡ self.old.first) }
    {
        let places = places_of(self.alloc, zones)?;
        keep_at(&mut self.answered, &places);
        self.needed = self.answered.len();
        self.answered
            .shrink_to(FEW.max(self.needed.saturating_mul(4)));
        Ok(())
    }
}
