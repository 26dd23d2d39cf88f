//! What a history keeps.
ghost use Rattle.std.specs.Prelude.{◌≡◌, ◌<◌, [], length, cond, Some, IfOk};
ghost use Rattle.std.specs.Option.{ForSome};
ghost use Rattle.recorder.specs.KeptCalls.{AreKept};
ghost use Rattle.recorder.specs.PartRecords.{AreKeyNumbers};
ghost use Rattle.recorder.specs.States.{AreStates, IsStateOf, action_by, call_of, response_at, returned_by};
ghost use Rattle.recorder.specs.Texts.{IsValueAt, value_in};

use crate::part::{Call, Response};
use crate::refs::{ActionRef, ReturnedRef};
use crate::row_table::{RowTable, Span};
use std::alloc::Global;
use tag::{ClientId, Memory, OpId, Tag};

/// What a history knows of a call without reading its rows.
#[derive(Clone, Copy, Debug)]
pub struct CallState {
    pub client: ClientId,
    pub note: Option<Tag>,
    /// The number of its key.
    pub(crate) key: u32,
    pub is_write: bool,
    /// The place of its invocation's row.
    pub invoked: u32,
    /// The place of its response's row.
    pub response: Option<u32>,
    /// Where the text of the value stands that it wrote or answered.
    pub(crate) value: Option<Span>,
}

impl CallState {
    /// The state after a response at that place; a read answers the value that stands there.
    pub(crate) fn with_response(&self, place: u32, value: Option<Span>) -> CallState
        ensures { result ≡ record self.now {
          response = Some place;
          value = cond self.now.is_write self.now.value value;
        } }
    {
        CallState {
            client: self.client,
            note: self.note,
            key: self.key,
            is_write: self.is_write,
            invoked: self.invoked,
            response: Some(place),
            value: if self.is_write { self.value } else { value },
        }
    }
}

/// The rows of a history, and of each call what can be told without reading them.
#[derive(Debug, Drop)]
pub(crate) struct Record {
    pub(crate) rows: RowTable,
    pub(crate) states: Vec<CallState>,
}

impl Record {
    /// No row.
    pub(crate) fn new(alloc: Global) -> Record
        ensures rows { result.rows ≡ record { rows = []; keys = []; texts = [] } }
        ensures states { result.states.items ≡ [] }
    {
        Record {
            rows: RowTable::new(alloc),
            states: Vec::new(alloc),
        }
    }

    /// An equal record.
    pub(crate) fn copy(&self) -> Result<Record, Memory>
        ensures rows { IfOk result (λ copy. copy.rows ≡ self.now.rows) }
        ensures states { IfOk result (λ copy. copy.states.items ≡ self.now.states.items) }
    {
        let alloc = *self.states.allocator();
        Ok(Record {
            rows: self.rows.copy()?,
            states: Vec::from_slice(alloc, &self.states)?,
        })
    }

    /// The number of each call's key.
    pub(crate) fn key_numbers(&self) -> Result<Vec<u32>, Memory>
        requires states { AreStates self.now.rows.rows self.now.states.items }
        requires kept { AreKept self.now.rows self.now.states.items }
        ensures { IfOk result (λ numbers. AreKeyNumbers self.now numbers.items) }
    {
        let mut numbers = Vec::with_capacity(*self.states.allocator(), self.states.len())?;
        for number in 0..self.states.len() {
            numbers.push(self.states[number].key)?;
        }
        Ok(numbers)
    }

    /// The state of the call of that number.
    pub(crate) fn state(&self, op: OpId) -> CallState
        requires begun { op.0 < length self.now.states.items }
        requires states { AreStates self.now.rows.rows self.now.states.items }
        requires kept { AreKept self.now.rows self.now.states.items }
        ensures { IsStateOf (call_of self.now.rows.texts self.now.states.items op.0) result }
    {
        self.states[op.0 as usize]
    }

    /// The call of that number.
    pub(crate) fn call(&self, op: OpId) -> Call<'_>
        requires begun { op.0 < length self.now.states.items }
        requires kept { AreKept self.now.rows self.now.states.items }
        ensures { result ≡ call_of self.now.rows.texts self.now.states.items op.0 }
    {
        let state = &self.states[op.0 as usize];
        Call {
            op,
            client: state.client,
            action: action_of(&self.rows, state),
            note: state.note,
            invoked: state.invoked as usize,
            response: response_of(&self.rows, state),
        }
    }
}

/// What the call of that state asks.
fn action_of<'h>(rows: &'h RowTable, state: &CallState) -> ActionRef<'h>
    requires { ForSome state.now.value (IsValueAt rows.now.texts) }
    ensures { result ≡ action_by state.now.is_write (value_in rows.now.texts state.now.value) }
{
    if !state.is_write {
        return ActionRef::read();
    }
    match rows.value(state.value) {
        Some(value) => ActionRef::write(value),
        None => ActionRef::read(),
    }
}

/// What the call of that state answers, where it has its response.
fn returned_of<'h>(rows: &'h RowTable, state: &CallState) -> ReturnedRef<'h>
    requires { ForSome state.now.value (IsValueAt rows.now.texts) }
    ensures { result ≡ returned_by state.now.is_write (value_in rows.now.texts state.now.value) }
{
    if state.is_write {
        ReturnedRef::done()
    } else {
        ReturnedRef::value(rows.value(state.value))
    }
}

/// The response of the call of that state.
fn response_of<'h>(rows: &'h RowTable, state: &CallState) -> Option<Response<'h>>
    requires { ForSome state.now.value (IsValueAt rows.now.texts) }
    ensures { result ≡ response_at state.now.response
        (returned_by state.now.is_write (value_in rows.now.texts state.now.value)) }
{
    match state.response {
        Some(place) => Some(Response {
            place: place as usize,
            returned: returned_of(rows, state),
        }),
        None => None,
    }
}
