//! Histories: rows of calls as they come.
ghost use Rattle.std.specs.Prelude.{ℕ, ◌≡◌, ◌≤◌, ◌<◌, List, [], IfOk, IfErr, OnOk, OnErr, IfSome};
ghost use Rattle.std.specs.Prelude.{IfNone, IsSome, Some, None, slice_get, true, false, IsTrue};
ghost use Rattle.std.specs.Prelude.{◌↔◌, length, vec_len, vec_capacity};
ghost use Rattle.tag.specs.Limits.{call_limit};
ghost use Rattle.tag.specs.Names.{is_key};
ghost use Rattle.recorder.specs.declared.record.CallState.{CallState};
ghost use Rattle.recorder.specs.Histories.{IsBusy, IsWellFormed, call_count, caller_of};
ghost use Rattle.recorder.specs.Answers.{RecordsRow, IsRefused, MayBegin, with_row};
ghost use Rattle.recorder.specs.States.{is_write};
ghost use Rattle.recorder.specs.Tables.{row_limit};

mod equal;
mod parts;

use crate::clients::ClientSet;
use crate::record::{CallState, Record};
use crate::refs::{ActionRef, ReturnedRef};
use crate::row::{Row, RowRefusal};
use std::alloc::Global;
use std::marker::Model;
use tag::{Action, ClientId, Key, Memory, OpId, Returned, Tag};

/// The rows of calls, as they came.
///
/// Calls are numbered 0, 1, 2 and so on as they begin. A client has one pending call at most. A
/// call gets one note and one response at most, both while it is pending, and an answer of its
/// kind. A row that breaks a rule is refused and leaves the history as it was; adding one takes
/// the same time however many rows there are, but for the look-up of an invocation's key.
#[derive(Debug, Drop)]
pub struct History {
    record: Record,
    /// The clients that have a pending call.
    busy: ClientSet,
    limit: u32,
}

impl Model for History {
    ghost use Rattle.recorder.specs.Histories.{Recorded};

    ghost Value = { Recorded };

    ghost use Rattle.recorder.specs.Kept.{record_within, IsKept};

    ghost view = { record_within };

    ghost invariant = { IsKept };
}

impl History {
    /// A history without a row, that may have so many calls.
    pub fn new(alloc: Global, limit: u32) -> History
        requires { limit ≤ call_limit }
        ensures { result ≡ record { rows = []; limit = limit } }
    {
        History {
            record: Record::new(alloc),
            busy: ClientSet::new(alloc),
            limit,
        }
    }

    /// How many rows there are.
    pub fn row_count(&self) -> usize
        ensures count { result ≡ length self.now.rows }
        ensures formed { IsWellFormed self.now.rows }
        ensures few { result ≤ row_limit }
    {
        self.record.rows.len()
    }

    /// The row at that place, from 0, in the order in which they came.
    pub fn row(&self, place: usize) -> Row<'_>
        requires { place < length self.now.rows }
        ensures { slice_get self.now.rows place ≡ Some result }
    {
        self.record.rows.row(place)
    }

    /// How many calls were begun.
    pub fn calls(&self) -> usize
        ensures count { result ≡ call_count self.now.rows }
        ensures most { result ≤ self.now.limit }
        ensures few { result ≤ call_limit }
    {
        self.record.states.len()
    }

    /// How many calls may be begun.
    pub fn limit(&self) -> u32
        ensures limit { result ≡ self.now.limit }
        ensures most { result ≤ call_limit }
    {
        self.limit
    }

    /// An equal history: the same rows and the same limit. `Memory` comes only where an allocation was
    /// refused.
    pub fn copy(&self) -> Result<History, Memory>
        ensures { IfOk result (λ history. history ≡ self.now) }
    {
        Ok(History {
            record: self.record.copy()?,
            busy: self.busy.copy()?,
            limit: self.limit,
        })
    }

    /// Whether the client has a pending call.
    pub fn is_busy(&self, client: ClientId) -> bool
        ensures busy { IsTrue result → IsBusy self.now.rows client }
        ensures idle { (result ≡ false) → IsBusy self.now.rows client → ⊥ }
    {
        self.busy.contains(client)
    }

    /// The client that began the call, if it was begun.
    pub fn caller(&self, op: OpId) -> Option<ClientId>
        ensures { result ≡ caller_of self.now.rows op }
    {
        match self.record.states.get(op.0 as usize) {
            Some(state) => Some(state.client),
            None => None,
        }
    }

    /// Begins a call, and answers its number. `OpsFull` comes where the history has all the calls
    /// that it may have, else `ClientBusy` where the client has a pending call, else `Memory` only
    /// where an allocation was refused; each leaves the history as it was.
    pub fn invoke(&mut self, client: ClientId, key: Key, action: Action) -> Result<OpId, RowRefusal>
        ensures row { RecordsRow self.old (Row.Invoke
            (record { 0 = call_count self.old.rows }) client key action) result self.new }
        ensures number { IfOk result (λ op. op.0 ≡ call_count self.old.rows) }
        ensures may { OnOk result (MayBegin self.old client) }
        ensures err { OnErr result (self.new ≡ self.old) }
    {
        self.invoke_text(client, key.as_str(), &ActionRef::of(&action))
    }

    /// The same on the key of that text. It takes no memory for a key that this history was given
    /// before (what it is a copy of doesn't count).
    pub fn invoke_on(
        &mut self,
        client: ClientId,
        key: &str,
        action: Action,
    ) -> Result<OpId, RowRefusal>
        requires { is_key key.now ≡ true }
        ensures row { RecordsRow self.old (Row.Invoke
            (record { 0 = call_count self.old.rows }) client key.now action) result self.new }
        ensures number { IfOk result (λ op. op.0 ≡ call_count self.old.rows) }
        ensures may { OnOk result (MayBegin self.old client) }
        ensures err { OnErr result (self.new ≡ self.old) }
    {
        self.invoke_text(client, key, &ActionRef::of(&action))
    }

    /// The same where the value's text is somebody else's, too.
    pub fn invoke_text(
        &mut self,
        client: ClientId,
        key: &str,
        action: &ActionRef<'_>,
    ) -> Result<OpId, RowRefusal>
        requires { is_key key.now ≡ true }
        ensures row { RecordsRow self.old (Row.Invoke
            (record { 0 = call_count self.old.rows }) client key.now action.now) result self.new }
        ensures number { IfOk result (λ op. op.0 ≡ call_count self.old.rows) }
        ensures may { OnOk result (MayBegin self.old client) }
        ensures err { OnErr result (self.new ≡ self.old) }
    {
        self.check_begin(client)?;
        let op = self.next_call();
        self.begin(op, client, key, action)?;
        Ok(op)
    }

    /// The number of the next call.
    fn next_call(&self) -> OpId
        ensures { result.0 ≡ call_count self.now.rows }
    {
        OpId(self.calls() as u32)
    }

    /// Refuses a call that the client can't begin, whatever it asks.
    fn check_begin(&self, client: ClientId) -> Result<(), RowRefusal>
        ensures err { IfErr result
            (λ refusal. (op : OpId) (key : List ℕ) (action : Action)
            → IsRefused self.now (Row.Invoke op client key action) refusal) }
        ensures ok { OnOk result (MayBegin self.now client) }
    {
        if self.calls() >= self.limit as usize {
            return Err(RowRefusal::OpsFull);
        }
        if self.is_busy(client) {
            return Err(RowRefusal::ClientBusy);
        }
        Ok(())
    }

    /// Begins a call that nothing refuses. On `Memory` nothing changed.
    fn begin(
        &mut self,
        op: OpId,
        client: ClientId,
        key: &str,
        action: &ActionRef<'_>,
    ) -> Result<(), Memory>
        requires next { op.0 ≡ call_count self.old.rows }
        requires may { MayBegin self.old client }
        requires lawful { is_key key.now ≡ true }
        ensures ok { OnOk result (self.new
            ≡ with_row self.old (Row.Invoke op client key.now action.now)) }
        ensures err { OnErr result (self.new ≡ self.old) }
    {
        let is_write = action.written().is_some();
        let invoked = self.record.rows.len() as u32;
        // Whatever can be refused comes first.
        self.record.states.reserve(1)?;
        self.busy.insert(client)?;
        let Ok((key, value)) = self.record.rows.push_invoke(op, client, key, action) else {
            self.busy.remove(client);
            return Err(Memory);
        };
        self.record.states.push(CallState {
            client,
            note: None,
            key,
            is_write,
            invoked,
            response: None,
            value,
        })?;
        Ok(())
    }

    /// Fixes a pending call's tag. `NotPending` comes where the call isn't pending, else
    /// `NoteTwice` where it has a note, else `Memory` only where an allocation was refused; each leaves
    /// the history as it was.
    pub fn note(&mut self, op: OpId, tag: Tag) -> Result<(), RowRefusal>
        ensures { RecordsRow self.old (Row.Note op tag) result self.new }
    {
        let Some(state) = pending_state(&self.record.states, op) else {
            return Err(RowRefusal::NotPending);
        };
        if state.note.is_some() {
            return Err(RowRefusal::NoteTwice);
        }
        self.record.rows.push_note(op, tag)?;
        self.record.states[op.0 as usize].note = Some(tag);
        Ok(())
    }

    /// Answers a pending call. `NotPending` comes where the call isn't pending, else `WrongKind`
    /// where the answer isn't of the call's kind, else `Memory` only where an allocation was refused;
    /// each leaves the history as it was.
    pub fn respond(&mut self, op: OpId, returned: Returned) -> Result<(), RowRefusal>
        ensures { RecordsRow self.old (Row.Respond op returned) result self.new }
    {
        self.respond_text(op, &ReturnedRef::of(&returned))
    }

    /// The same where the value's text is somebody else's.
    pub fn respond_text(&mut self, op: OpId, returned: &ReturnedRef<'_>) -> Result<(), RowRefusal>
        ensures { RecordsRow self.old (Row.Respond op returned.now) result self.new }
    {
        let Some(state) = pending_state(&self.record.states, op) else {
            return Err(RowRefusal::NotPending);
        };
        if state.is_write != returned.answered().is_none() {
            return Err(RowRefusal::WrongKind);
        }
        let place = self.record.rows.len() as u32;
        let value = self.record.rows.push_respond(op, returned)?;
        self.record.states[op.0 as usize] = state.with_response(place, value);
        self.busy.remove(state.client);
        Ok(())
    }
}

/// The state of a call, where it is pending.
fn pending_state(states: &[CallState], op: OpId) -> Option<CallState>
    ensures some { IfSome result
        (λ state. (slice_get states.now op.0 ≡ Some state) × (state.response ≡ None)) }
    ensures none { IfNone result ((state : CallState) → slice_get states.now op.0 ≡ Some state
        → IsSome state.response) }
{
    match states.get(op.0 as usize) {
        Some(state) if state.response.is_none() => Some(*state),
        _ => None,
    }
}
