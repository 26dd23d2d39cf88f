//! The calls on one key.
ghost use Rattle.std.specs.Prelude.{◌≡◌, ◌<◌, [], length, Some};
ghost use Rattle.std.specs.List.{slice_get};

use crate::record::{CallState, Record};
use crate::refs::{ActionRef, ReturnedRef};
use std::marker::Model;
use tag::{ClientId, OpId, Tag};

/// A response: its row's place in the history, and what it answers.
#[derive(Debug, Drop, PartialEq)]
pub struct Response<'h> {
    pub place: usize,
    pub returned: ReturnedRef<'h>,
}

/// A call as a history recorded it.
#[derive(Debug, Drop, PartialEq)]
pub struct Call<'h> {
    pub op: OpId,
    pub client: ClientId,
    pub action: ActionRef<'h>,
    pub note: Option<Tag>,
    /// The place of the invocation's row in the history.
    pub invoked: usize,
    pub response: Option<Response<'h>>,
}

/// The calls on one key, in the order of their invocations, lent by the history that recorded them.
///
/// Their numbers and the places of their invocations rise, and each response stands after its
/// invocation. Only a history has parts with calls.
#[derive(Debug, Drop)]
pub struct Part<'h> {
    from: Option<&'h Record>,
    /// The calls' numbers in the history.
    numbers: &'h [u32],
}

impl<'h> Model for Part<'h> {
    ghost use Rattle.std.specs.Prelude.{List};
    ghost use Rattle.std.specs.Option.{option_copied};
    ghost use Rattle.recorder.specs.declared.part.Call.{Call};

    ghost Value = { List Call };

    ghost use Rattle.recorder.specs.PartRecords.{part_of, IsPartOf};

    ghost view = { λ p. part_of (option_copied p.from) p.numbers.now };

    ghost invariant = { λ p. IsPartOf (option_copied p.from) p.numbers.now };
}

impl<'h> Part<'h> {
    ghost use Rattle.recorder.specs.Parts.{IsSequence};
    ghost use Rattle.recorder.specs.PartRecords.{calls_of, HasCalls};
    ghost use Rattle.recorder.specs.declared.part.Call.{Call};
    ghost use Rattle.recorder.specs.States.{IsStateOf};

    /// A part without a call.
    pub fn empty() -> Part<'h>
        ensures { result ≡ [] }
    {
        Part {
            from: None,
            numbers: &[],
        }
    }

    /// The part of the record that has the calls of these numbers.
    pub(crate) fn of(from: &'h Record, numbers: &'h [u32]) -> Part<'h>
        requires { HasCalls from.now numbers.now }
        ensures { result ≡ calls_of from.now numbers.now }
    {
        Part {
            from: Some(from),
            numbers,
        }
    }

    /// How many calls there are.
    pub fn len(&self) -> usize
        ensures count { result ≡ length self.now }
        ensures sequence { IsSequence self.now }
    {
        self.numbers.len()
    }

    /// The call at that place of the part, from 0.
    pub fn call(&self, place: usize) -> Call<'h>
        requires { place < length self.now }
        ensures { slice_get self.now place ≡ Some result }
    {
        match self.from {
            Some(from) => from.call(OpId(self.numbers[place])),
            None => unreachable!(),
        }
    }

    /// The number of the call at that place.
    pub fn op(&self, place: usize) -> OpId
        requires { place < length self.now }
        ensures { (call : Call) × (slice_get self.now place ≡ Some call) × (result ≡ call.op) }
    {
        match self.from {
            Some(_) => OpId(self.numbers[place]),
            None => unreachable!(),
        }
    }

    /// The call at that place without its texts, in less time than `call` takes.
    pub fn state(&self, place: usize) -> CallState
        requires { place < length self.now }
        ensures { (call : Call) × (slice_get self.now place ≡ Some call) × IsStateOf call result }
    {
        match self.from {
            Some(from) => from.state(OpId(self.numbers[place])),
            None => unreachable!(),
        }
    }
}
