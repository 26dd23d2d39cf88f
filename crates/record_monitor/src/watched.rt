//! One key of a record.
ghost use Rattle.std.specs.Prelude.{◌≡◌, ◌<◌, ◌≤◌, ◌+◌, ◌^◌, ℕ, [], ◌∷◌, ◌++◌, List, None, Some, true, false, Contains, IfOk, IfSome};
ghost use Rattle.std.specs.Prelude.{IsSome, OnOk, box_value, length, option_map, slice_get};
ghost use Rattle.std.specs.Option.{option_copied};
ghost use Rattle.tag.specs.declared.actions.Action.TheVariants as asked;
ghost use Rattle.tag.specs.declared.actions.Returned.TheVariants as answered;
ghost use Rattle.tag.specs.declared.numbers.OpId.{OpId as Number};
ghost use Rattle.recorder.specs.declared.row.Row.{Row};
ghost use Rattle.recorder.specs.Histories.{IsWellFormed, HasResponse, MayFollow};
ghost use Rattle.recorder.specs.Records.{BeginsAt};
ghost use Rattle.recorder.specs.States.{is_write};
ghost use Rattle.growing_parts.specs.PartsWithout.{AreReadsOf};
ghost use Rattle.monitored_key.specs.Changes.{nothing_held};
ghost use Rattle.monitored_key.specs.Held.{IsLost, state_of};
ghost use Rattle.record_monitor.specs.Ended.{HasEnded, first_doubt};
ghost use Rattle.record_monitor.specs.Followed.{AreTold, FollowsBegun, FollowsFirst, FollowsKey, FollowsState, GoesOn, IsNextAt};
ghost use Rattle.record_monitor.specs.Followed.{IsNumberedAt, KeepsState, KeepsTold, is_doubtful, is_refused, kept_of, told_of};
ghost use Rattle.record_monitor.specs.Told.{AnswersWith, HasAnswerAt, HasNoteAt, IsBareCall, IsToldCall};
ghost use Rattle.record_monitor.specs.Waiting.{AreGivenUp};

use crate::key_calls::KeyCalls;
use crate::report::Finding;
use crate::telling::tell;
use crate::told::{Told, ToldCall, ToldNote};
use monitored_key::{Judged, MonitoredKey, Refusal};
use recorder::ActionRef;
use std::alloc::Global;
use tag::{Memory, OpId};

/// What is known of a key.
#[derive(Drop)]
pub(crate) struct Watched {
    /// What is known of its calls, until they have no order.
    state: Option<MonitoredKey>,
    /// Whether a read of it was undecided.
    is_doubtful: bool,
    /// Those of its calls by which a refusal would be told.
    calls: KeyCalls,
    /// Why it was refused, in a block of its own, since few keys are.
    told: Option<Box<Told>>,
}

/// What is told, in a block of its own.
fn boxed(alloc: Global, told: Option<Told>) -> Result<Option<Box<Told>>, Memory>
    ensures { IfOk result (λ boxed. option_map box_value boxed ≡ told) }
{
    match told {
        Some(told) => Ok(Some(Box::new(alloc, told)?)),
        None => Ok(None),
    }
}

/// A call of the key begins.
fn begin_call(
    state: &mut MonitoredKey,
    op: OpId,
    action: &ActionRef<'_>,
    place: u64,
) -> Result<(), Memory>
    requires next { state.old.next ≤ place }
    requires number { state.old.number ≤ op.0 }
    requires small { place < 2 ^ 63 }
    ensures follows { OnOk result
        (FollowsBegun (state_of state.new) op.0 action.now place (state_of state.old)) }
    ensures first { OnOk result (state.old ≡ nothing_held
        → FollowsFirst (state_of state.new) op.0 action.now place) }
    ensures next { OnOk result (state.new.next ≡ place + 1) }
    ensures number { OnOk result (state.new.number ≤ op.0 + 1) }
    ensures kept { OnOk result (IsLost state.new → ⊥) }
{
    match action.written() {
        None => state.begin_read(op.0, place),
        Some(value) => state.begin_write(op.0, value.as_str(), place),
    }
}

impl Watched {
    /// Whether its calls have no order.
    pub(crate) fn is_refused(&self) -> bool
        ensures { result ≡ is_refused self.now }
    {
        self.state.is_none()
    }

    /// Whether a read of it was undecided.
    pub(crate) fn is_doubtful(&self) -> bool
        ensures { result ≡ is_doubtful self.now }
    {
        self.is_doubtful
    }

    /// Why it was refused.
    pub(crate) fn told(&self) -> Option<&Told>
        ensures { option_copied result ≡ told_of self.now }
    {
        match &self.told {
            Some(told) => Some(told.as_ref()),
            None => None,
        }
    }

    /// How many of its families are kept.
    pub(crate) fn kept_count(&self) -> usize
        ensures { result ≡ kept_of self.now }
    {
        match &self.state {
            Some(state) => state.kept_count(),
            None => 0,
        }
    }

    /// What is known after the first call of a key.
    pub(crate) fn first(
        alloc: Global,
        call: &ToldCall,
        action: &ActionRef<'_>,
        place: u64,
    ) -> Result<Watched, Memory>
        requires bare { IsBareCall call.now (is_write action.now) place }
        requires small { place < 2 ^ 63 }
        ensures follows { IfOk result (λ watched. (rows : List Row) (key gone : List ℕ)
            → IsWellFormed rows → length rows ≡ place
            → MayFollow rows (Row.Invoke call.now.op call.now.client key action.now) → AreReadsOf rows gone
            → ((begin : ℕ) → BeginsAt rows key begin → ⊥)
            → FollowsKey (rows ++ Row.Invoke call.now.op call.now.client key action.now ∷ []) key gone watched) }
        ensures state { IfOk result (λ watched. IsSome watched.state) }
        ensures doubt { IfOk result (λ watched. watched.is_doubtful ≡ false) }
    {
        let mut state = MonitoredKey::new(alloc);
        begin_call(&mut state, call.op, action, place)?;
        let mut calls = KeyCalls::new(alloc);
        calls.begin(call)?;
        Ok(Watched {
            state: Some(state),
            is_doubtful: false,
            calls,
            told: None,
        })
    }

    /// A further call begins, for its state.
    fn begin_state(&mut self, op: OpId, action: &ActionRef<'_>, place: u64) -> Result<(), Memory>
        requires next { IsNextAt self.old place }
        requires number { IsNumberedAt self.old op.0 }
        requires small { place < 2 ^ 63 }
        ensures follows { OnOk result ((rows : List Row) (key gone : List ℕ) (client : ℕ)
            → IsWellFormed rows → length rows ≡ place
            → MayFollow rows (Row.Invoke op client key action.now) → AreReadsOf rows gone
            → FollowsState rows key gone self.old
            → FollowsState (rows ++ Row.Invoke op client key action.now ∷ []) key gone self.new) }
        ensures goes { OnOk result (GoesOn self.old self.new) }
        ensures told { KeepsTold self.old self.new }
    {
        match &mut self.state {
            Some(state) => begin_call(state, op, action, place),
            None => Ok(()),
        }
    }

    /// The call that begins may be told of.
    fn keep_begun(&mut self, call: &ToldCall) -> Result<(), Memory>
        ensures state { KeepsState self.old self.new }
        ensures told { OnOk result ((rows : List Row) (key : List ℕ) → AreTold rows key self.old
            → IsToldCall rows key call.now → AreTold rows key self.new) }
    {
        match self.state {
            Some(_) => self.calls.begin(call),
            None => Ok(()),
        }
    }

    /// A further call begins.
    pub(crate) fn begin(
        &mut self,
        call: &ToldCall,
        action: &ActionRef<'_>,
        place: u64,
    ) -> Result<(), Memory>
        requires bare { IsBareCall call.now (is_write action.now) place }
        requires next { IsNextAt self.old place }
        requires number { IsNumberedAt self.old call.now.op.0 }
        requires small { place < 2 ^ 63 }
        ensures follows { OnOk result ((rows : List Row) (key gone : List ℕ)
            → IsWellFormed rows → length rows ≡ place
            → MayFollow rows (Row.Invoke call.now.op call.now.client key action.now) → AreReadsOf rows gone
            → FollowsKey rows key gone self.old
            → FollowsKey (rows ++ Row.Invoke call.now.op call.now.client key action.now ∷ []) key gone self.new) }
        ensures goes { OnOk result (GoesOn self.old self.new) }
    {
        self.begin_state(call.op, action, place)?;
        self.keep_begun(call)
    }

    /// A pending call is noted, which may be told.
    pub(crate) fn note(
        &mut self,
        begin: u64,
        op: OpId,
        is_write: bool,
        note: &ToldNote,
    ) -> Result<(), Memory>
        ensures state { KeepsState self.old self.new }
        ensures told { OnOk result ((rows : List Row) (key : List ℕ) → AreTold rows key self.old
            → HasNoteAt rows op note.now → AreTold rows key self.new) }
    {
        match self.state {
            Some(_) => self.calls.note(begin, op, is_write, note),
            None => Ok(()),
        }
    }

    /// Drops the calls that nothing would be told of, if these may be the most.
    fn make_room(&mut self) -> Result<(), Memory>
        ensures state { KeepsState self.old self.new }
        ensures told { OnOk result ((rows : List Row) (key : List ℕ) → AreTold rows key self.old
            → AreTold rows key self.new) }
    {
        if !self.calls.is_full() {
            return Ok(());
        }
        match &self.state {
            Some(state) => {
                let zones = state.zones(self.calls.alloc())?;
                self.calls.keep_only(&zones)
            }
            None => Ok(()),
        }
    }

    /// A write is answered, for its state.
    fn end_write_state(&mut self, op: OpId, place: u64) -> Result<(), Memory>
        requires next { IsNextAt self.old place }
        requires small { place < 2 ^ 63 }
        ensures follows { OnOk result ((rows : List Row) (key gone value : List ℕ) (client : ℕ)
            → IsWellFormed rows → length rows ≡ place
            → Contains rows (Row.Invoke op client key (asked.Write value))
            → MayFollow rows (Row.Respond op answered.Written) → (Contains gone op.0 → ⊥)
            → FollowsState rows key gone self.old
            → FollowsState (rows ++ Row.Respond op answered.Written ∷ []) key gone self.new) }
        ensures goes { OnOk result (GoesOn self.old self.new) }
        ensures told { KeepsTold self.old self.new }
    {
        match &mut self.state {
            Some(state) => state.end_write(op.0, place),
            None => Ok(()),
        }
    }

    /// The answered write may be told of.
    fn keep_write(&mut self, call: &ToldCall, place: u64) -> Result<(), Memory>
        ensures state { KeepsState self.old self.new }
        ensures told { OnOk result ((rows : List Row) (key : List ℕ) → AreTold rows key self.old
            → IsToldCall rows key call.now → HasAnswerAt rows call.now.op place
            → AreTold rows key self.new) }
    {
        self.make_room()?;
        match &self.state {
            Some(state) => {
                let write = self.calls.answered(call, place);
                self.calls.end(&write, state.text(call.op.0))
            }
            None => Ok(()),
        }
    }

    /// A write is answered.
    pub(crate) fn end_write(&mut self, call: &ToldCall, place: u64) -> Result<(), Memory>
        requires bare { IsBareCall call.now true call.now.begun }
        requires next { IsNextAt self.old place }
        requires small { place < 2 ^ 63 }
        ensures follows { OnOk result ((rows : List Row) (key gone value : List ℕ)
            → IsWellFormed rows → length rows ≡ place → slice_get rows call.now.begun
            ≡ Some (Row.Invoke call.now.op call.now.client key (asked.Write value))
            → MayFollow rows (Row.Respond call.now.op answered.Written)
            → (Contains gone call.now.op.0 → ⊥) → FollowsKey rows key gone self.old
            → FollowsKey (rows ++ Row.Respond call.now.op answered.Written ∷ []) key gone self.new) }
        ensures goes { OnOk result (GoesOn self.old self.new) }
    {
        self.keep_write(call, place)?;
        self.end_write_state(call.op, place)
    }

    /// The answered read may be told of.
    fn keep_read(&mut self, read: &ToldCall, value: Option<&str>) -> Result<(), Memory>
        ensures state { KeepsState self.old self.new }
        ensures told { OnOk result ((rows : List Row) (key : List ℕ) → AreTold rows key self.old
            → IsToldCall rows key read.now → AreTold rows key self.new) }
    {
        self.make_room()?;
        self.calls.end(read, value)
    }

    /// By that state the read has no order: why, is told, and no calls are kept.
    fn tell_refusal(
        &mut self,
        state: &MonitoredKey,
        read: &ToldCall,
        value: Option<&str>,
        refusal: Refusal,
    ) -> Result<(), Memory>
        ensures state { KeepsState self.old self.new }
        ensures told { OnOk result ((rows : List Row) (key : List ℕ) → AreTold rows key self.old
            → IsToldCall rows key read.now → AnswersWith rows read.now (option_copied value.entry)
            → AreTold rows key self.new) }
    {
        let told = tell(&self.calls, state, read, value, refusal)?;
        self.told = boxed(self.calls.alloc(), told)?;
        self.calls.clear();
        Ok(())
    }

    /// The read has no order: why, is told, and no calls are kept. The key has no state from then on.
    fn refuse(
        &mut self,
        read: &ToldCall,
        value: Option<&str>,
        refusal: Refusal,
    ) -> Result<(), Memory>
        ensures state { OnOk result (self.new.state ≡ None) }
        ensures doubt { self.new.is_doubtful ≡ self.old.is_doubtful }
        ensures told { OnOk result ((rows : List Row) (key : List ℕ) → AreTold rows key self.old
            → IsToldCall rows key read.now → AnswersWith rows read.now (option_copied value.entry)
            → AreTold rows key self.new) }
    {
        let Some(state) = self.state.take() else {
            return Ok(());
        };
        self.tell_refusal(&state, read, value, refusal)
    }

    /// The answer of a read is judged. What is found is answered: that no order has it, or the key's first doubt.
    fn judge(
        &mut self,
        read: &ToldCall,
        value: Option<&str>,
        place: u64,
    ) -> Result<Option<Finding>, Memory>
        requires began { read.now.begun < place }
        requires next { IsNextAt self.old place }
        requires small { place < 2 ^ 63 }
        ensures { IfOk result (λ found. (most : ℕ) (rows : List Row) (key gone : List ℕ)
            → IsWellFormed rows → length rows ≡ place → slice_get rows read.now.begun
            ≡ Some (Row.Invoke read.now.op read.now.client key asked.Read)
            → MayFollow rows (Row.Respond read.now.op (answered.Value (option_copied value.entry)))
            → AreGivenUp most rows gone → (Contains gone read.now.op.0 → ⊥) → read.now.answered ≡ Some place
            → FollowsState rows key gone self.old → AreTold
            (rows ++ Row.Respond read.now.op (answered.Value (option_copied value.entry)) ∷ []) key self.old
            → IsToldCall (rows ++ Row.Respond read.now.op (answered.Value (option_copied value.entry)) ∷ [])
            key read.now → HasEnded most
            (rows ++ Row.Respond read.now.op (answered.Value (option_copied value.entry)) ∷ []) place key gone
            self.old self.new found) }
    {
        let Some(state) = &mut self.state else {
            return Ok(None);
        };
        match state.end_read(read.begun, value, place)? {
            Judged::Passes => Ok(None),
            Judged::Undecided(one, two) => Ok(self.doubt(read.op, one, two)),
            Judged::Refused(refusal) => {
                self.refuse(read, value, refusal)?;
                Ok(Some(Finding::Refused(refusal)))
            }
        }
    }

    /// A read that isn't given up is answered. What is found is answered: that no order has the answer, or the key's first doubt.
    pub(crate) fn end_read(
        &mut self,
        call: &ToldCall,
        value: Option<&str>,
        place: u64,
    ) -> Result<Option<Finding>, Memory>
        requires bare { IsBareCall call.now false call.now.begun }
        requires began { call.now.begun < place }
        requires next { IsNextAt self.old place }
        requires small { place < 2 ^ 63 }
        ensures { IfOk result (λ found. (most : ℕ) (rows : List Row) (key gone : List ℕ)
            → IsWellFormed rows → length rows ≡ place → slice_get rows call.now.begun
            ≡ Some (Row.Invoke call.now.op call.now.client key asked.Read)
            → MayFollow rows (Row.Respond call.now.op (answered.Value (option_copied value.entry)))
            → AreGivenUp most rows gone → (Contains gone call.now.op.0 → ⊥) → FollowsKey rows key gone self.old
            → HasEnded most (rows ++ Row.Respond call.now.op (answered.Value (option_copied value.entry)) ∷ [])
            place key gone self.old self.new found) }
    {
        if self.state.is_none() {
            return Ok(None);
        }
        let read = self.calls.answered(call, place);
        self.keep_read(&read, value)?;
        self.judge(&read, value, place)
    }

    /// A read is undecided, and nothing else changes. If it is the first, that is found.
    fn doubt(&mut self, op: OpId, one: u32, two: u32) -> Option<Finding>
        ensures state { self.new.state ≡ self.old.state }
        ensures told { KeepsTold self.old self.new }
        ensures doubt { self.new.is_doubtful ≡ true }
        ensures found { result ≡ first_doubt self.old.is_doubtful op one two }
    {
        let is_first = !self.is_doubtful;
        self.is_doubtful = true;
        if is_first {
            Some(Finding::Undecided(op, one, two))
        } else {
            None
        }
    }

    /// A pending read is given up, for its state.
    fn give_up_state(&mut self, begin: u64)
        ensures follows { (rows : List Row) (key gone : List ℕ) (op : Number) (client : ℕ)
            → IsWellFormed rows → slice_get rows begin ≡ Some (Row.Invoke op client key asked.Read)
            → (HasResponse rows op → ⊥) → (Contains gone op.0 → ⊥) → FollowsState rows key gone self.old
            → FollowsState rows key (op.0 ∷ gone) self.new }
        ensures goes { GoesOn self.old self.new }
        ensures told { KeepsTold self.old self.new }
    {
        if let Some(state) = &mut self.state {
            state.give_up(begin);
        }
    }

    /// A pending read is given up.
    pub(crate) fn give_up(&mut self, begin: u64)
        ensures follows { (rows : List Row) (key gone : List ℕ) (op : Number) (client : ℕ)
            → IsWellFormed rows → slice_get rows begin ≡ Some (Row.Invoke op client key asked.Read)
            → (HasResponse rows op → ⊥) → (Contains gone op.0 → ⊥) → FollowsKey rows key gone self.old
            → FollowsKey rows key (op.0 ∷ gone) self.new }
        ensures goes { GoesOn self.old self.new }
    {
        self.give_up_state(begin);
        self.calls.give_up(begin);
    }
}
