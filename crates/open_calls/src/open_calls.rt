//! Pending calls, by number.
ghost use Rattle.std.specs.Prelude.{◌≡◌, ◌≢◌, ◌↔◌, [], ℕ, List, IsSome, IsTrue, Some, IfOk, IfErr, OnOk, OnErr, MatchOption};
ghost use Rattle.std.specs.FinMap as finite;
ghost use Rattle.std.specs.Option.{option_copied};
ghost use Rattle.tag.specs.Tags.{Tag};
ghost use Rattle.recorder.specs.declared.row.Row.{Row};
ghost use Rattle.recorder.specs.Histories.{IsBusy, IsPendingOp, IsWellFormed};
ghost use Rattle.recorder.specs.States.{is_write};
ghost use Rattle.open_calls.specs.declared.open_call.OpenCall.{OpenCall};
ghost use Rattle.open_calls.specs.Open.{HasCallOf, begun_call, call_at, with_answer, with_begun, with_note};
ghost use Rattle.open_calls.specs.Rows.{KeepsOpen, TakesRow};
ghost use Rattle.open_calls.specs.Steps.{IsAnswerRefused, IsBeginRefused, IsNoteRefused};
ghost use Rattle.open_calls.specs.Steps.{MayBeAnswered, MayBeNoted, MayBegin};

use crate::numbered::Numbered;
use crate::open_call::OpenCall;
use crate::refusal::CallRefusal;
use recorder::{ActionRef, ReturnedRef};
use std::alloc::Global;
use std::marker::Model;
use tag::{ClientId, Memory, OpId};

/// How many calls were begun, and what is kept of each pending one: with it what was given when it began.
///
/// Calls are numbered 0, 1, 2 and so on as they begin, up to 4,294,967,295. A client has one pending call at most. A
/// row that breaks a rule is refused, and leaves all as it was. A call that never ends stays.
#[derive(Drop)]
pub struct OpenCalls<T> {
    begun: u64,
    /// How many of them are pending.
    count: usize,
    calls: Numbered<OpenCall<T>>,
    /// The number of each client's call.
    clients: Numbered<u32>,
}

impl<T> Model for OpenCalls<T> {
    ghost use Rattle.open_calls.specs.Open.{Open, open_code};
    ghost use Rattle.open_calls.specs.Kept.{AreKept};
    ghost use Rattle.open_calls.specs.Numbered.{map_of};

    ghost Value = { Open T };

    ghost coded = { open_code T.code };

    ghost view = { λ o. record { begun = o.begun; calls = map_of o.calls } };

    ghost invariant = { λ o. AreKept o.begun o.count o.calls o.clients };
}

impl<T: Drop> OpenCalls<T> {
    /// No call was begun.
    pub fn new(alloc: Global) -> OpenCalls<T>
        ensures open { result ≡ record { begun = 0; calls = finite.empty } }
        ensures rows { KeepsOpen [] result }
    {
        OpenCalls {
            begun: 0,
            count: 0,
            calls: Numbered::new(alloc),
            clients: Numbered::new(alloc),
        }
    }

    /// How many calls were begun: the number of the next one.
    pub fn begun(&self) -> u64
        ensures { result ≡ self.now.begun }
    {
        self.begun
    }

    /// How many calls are pending.
    pub fn open_count(&self) -> usize
        ensures { result ≡ finite.len self.now.calls }
    {
        self.count
    }

    /// What is kept of the call, if it is pending.
    pub fn call(&self, op: OpId) -> Option<&OpenCall<T>>
        ensures { option_copied result ≡ call_at self.now op.0 }
    {
        self.calls.get(u64::from(op.0))
    }

    /// The client's pending call.
    pub fn call_of(&self, client: ClientId) -> Option<OpId>
        ensures { MatchOption result (HasCallOf self.now client → ⊥)
            (λ op. (call : OpenCall T) × (call_at self.now op.0 ≡ Some call)
            × (call.client ≡ client)) }
    {
        match self.clients.get(u64::from(client.get())) {
            Some(number) => Some(OpId(*number)),
            None => None,
        }
    }

    /// Whether the call is pending.
    pub fn is_pending(&self, op: OpId) -> bool
        ensures { (rows : List Row) → KeepsOpen rows self.now → IsTrue result ↔ IsPendingOp rows op }
    {
        self.call(op).is_some()
    }

    /// Whether the client has a pending call.
    pub fn is_busy(&self, client: ClientId) -> bool
        ensures { (rows : List Row) → IsWellFormed rows → KeepsOpen rows self.now
            → IsTrue result ↔ IsBusy rows client }
    {
        self.call_of(client).is_some()
    }

    /// Begins a call on any key, and keeps the payload. `OutOfTurn` comes where the number isn't the next one, else
    /// `ClientBusy` where the client has a pending call, else `Memory` only where an allocation was refused; each
    /// leaves all as it was.
    pub fn begin(
        &mut self,
        op: OpId,
        client: ClientId,
        action: &ActionRef<'_>,
        payload: T,
    ) -> Result<(), CallRefusal>
        ensures row { (rows : List Row) (key : List ℕ) → IsWellFormed rows
            → KeepsOpen rows self.old
            → TakesRow rows self.old (Row.Invoke op client key action.now) result self.new }
        ensures ok { OnOk result (self.new
            ≡ with_begun self.old (begun_call client (is_write action.now) payload)) }
        ensures err { OnErr result (self.new ≡ self.old) }
    {
        self.check_begin(op, client)?;
        self.add(op, client, action.written().is_some(), payload)?;
        Ok(())
    }

    /// Refuses a call that the client can't begin.
    fn check_begin(&self, op: OpId, client: ClientId) -> Result<(), CallRefusal>
        ensures ok { OnOk result (MayBegin self.now op.0 client) }
        ensures err { IfErr result (IsBeginRefused self.now op.0 client) }
    {
        if u64::from(op.0) != self.begun {
            return Err(CallRefusal::OutOfTurn);
        }
        if self.call_of(client).is_some() {
            return Err(CallRefusal::ClientBusy);
        }
        Ok(())
    }

    /// Adds a call that may begin. On `Memory` nothing changed.
    fn add(&mut self, op: OpId, client: ClientId, is_write: bool, payload: T) -> Result<(), Memory>
        requires { MayBegin self.old op.0 client }
        ensures ok { OnOk result (self.new ≡ with_begun self.old (begun_call client is_write payload)) }
        ensures err { OnErr result (self.new ≡ self.old) }
    {
        let name = u64::from(client.get());
        self.clients.insert(name, op.0)?;
        let call = OpenCall {
            client,
            is_write,
            is_noted: false,
            payload,
        };
        match self.calls.insert(u64::from(op.0), call) {
            Ok(()) => {
                self.begun += 1;
                self.count += 1;
                Ok(())
            }
            Err(Memory) => {
                self.clients.remove(name);
                Err(Memory)
            }
        }
    }

    /// Notes that a pending call has a tag. `NotPending` comes where the call isn't pending, else `NoteTwice` where it
    /// has a note; each leaves all as it was.
    pub fn note(&mut self, op: OpId) -> Result<(), CallRefusal>
        ensures row { (rows : List Row) (tag : Tag) → KeepsOpen rows self.old
            → TakesRow rows self.old (Row.Note op tag) result self.new }
        ensures ok { OnOk result ((call : OpenCall T) × MayBeNoted self.old op.0 call
            × (self.new ≡ with_note self.old op.0 call)) }
        ensures err { OnErr result (self.new ≡ self.old) }
        ensures free { IfErr result (λ refusal. refusal ≢ CallRefusal.Memory) }
    {
        self.check_note(op)?;
        self.set_note(op);
        Ok(())
    }

    /// Refuses a note that the call can't have.
    fn check_note(&self, op: OpId) -> Result<(), CallRefusal>
        ensures ok { OnOk result ((call : OpenCall T) × MayBeNoted self.now op.0 call) }
        ensures err { IfErr result (IsNoteRefused self.now op.0) }
    {
        match self.call(op) {
            None => Err(CallRefusal::NotPending),
            Some(call) if call.is_noted => Err(CallRefusal::NoteTwice),
            Some(_) => Ok(()),
        }
    }

    /// Keeps that the call has a note.
    fn set_note(&mut self, op: OpId)
        requires { IsSome (call_at self.old op.0) }
        ensures { (call : OpenCall T) → call_at self.old op.0 ≡ Some call
            → self.new ≡ with_note self.old op.0 call }
    {
        self.calls.note(u64::from(op.0));
    }

    /// Answers a pending call, and gives back what was kept of it. `NotPending` comes where the call isn't pending, else
    /// `WrongKind` where the answer isn't of the call's kind; each leaves all as it was.
    pub fn answer(
        &mut self,
        op: OpId,
        returned: &ReturnedRef<'_>,
    ) -> Result<OpenCall<T>, CallRefusal>
        ensures row { (rows : List Row) → KeepsOpen rows self.old
            → TakesRow rows self.old (Row.Respond op returned.now) result self.new }
        ensures given { IfOk result (λ call. call_at self.old op.0 ≡ Some call) }
        ensures ok { OnOk result (self.new ≡ with_answer self.old op.0) }
        ensures err { OnErr result (self.new ≡ self.old) }
        ensures free { IfErr result (λ refusal. refusal ≢ CallRefusal.Memory) }
    {
        self.check_answer(op, returned.answered().is_none())?;
        match self.take(op) {
            Some(call) => Ok(call),
            None => Err(CallRefusal::NotPending),
        }
    }

    /// Refuses an answer that the call can't have.
    fn check_answer(&self, op: OpId, is_write: bool) -> Result<(), CallRefusal>
        ensures ok { OnOk result ((call : OpenCall T) × MayBeAnswered self.now op.0 is_write call) }
        ensures err { IfErr result (IsAnswerRefused self.now op.0 is_write) }
    {
        match self.call(op) {
            None => Err(CallRefusal::NotPending),
            Some(call) if call.is_write != is_write => Err(CallRefusal::WrongKind),
            Some(_) => Ok(()),
        }
    }

    /// Takes the call out.
    fn take(&mut self, op: OpId) -> Option<OpenCall<T>>
        ensures given { result ≡ call_at self.old op.0 }
        ensures left { self.new ≡ with_answer self.old op.0 }
    {
        let found = self.calls.remove(u64::from(op.0));
        if let Some(call) = &found {
            self.clients.remove(u64::from(call.client.get()));
            self.count = self.count.saturating_sub(1);
        }
        found
    }
}
