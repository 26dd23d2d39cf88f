//! What is kept of the rows that were taken.
ghost use Rattle.std.specs.Prelude.{◌≡◌, ◌≢◌, ◌<◌, ℕ, [], true, List, length, IfErr, IfOk};
ghost use Rattle.tag.specs.Names.{is_key};
ghost use Rattle.tag.specs.Tags.{Tag};
ghost use Rattle.recorder.specs.declared.row.Row.{Row};
ghost use Rattle.recorder.specs.Histories.{IsWellFormed};
ghost use Rattle.open_calls.specs.Open.{call_at};
ghost use Rattle.split_rows.specs.Pieces.{all_empty};
ghost use Rattle.split_rows.specs.Taken.{IsNext, KeepsRows, KeepsSome, TakesNext, moved_in};

use crate::moved::Moved;
use key_index::KeyNumbers;
use open_calls::{CallRefusal, OpenCalls};
use recorder::{ActionRef, ReturnedRef};
use std::alloc::Global;
use tag::{ClientId, Memory, OpId};

/// What is kept of the rows that were taken.
#[derive(Drop)]
pub(crate) struct Taken {
    /// The pending calls, each with its piece and its number there.
    calls: OpenCalls<Moved>,
    /// The keys, in the order in which they were first seen.
    keys: KeyNumbers,
    /// How many calls each piece has.
    counts: Vec<u64>,
}

impl Taken {
    /// No row, and so many empty pieces.
    pub(crate) fn new(alloc: Global, parts: usize) -> Result<Taken, Memory>
        requires { 0 < parts }
        ensures { IfOk result (KeepsRows parts [] all_empty) }
    {
        Ok(Taken {
            calls: OpenCalls::new(alloc),
            keys: KeyNumbers::new(alloc),
            counts: vec![in alloc; 0u64; parts]?,
        })
    }

    /// How many calls were begun.
    pub(crate) fn begun(&self) -> u64
        ensures { result ≡ self.now.calls.begun }
    {
        self.calls.begun()
    }

    /// How many keys were seen.
    pub(crate) fn key_count(&self) -> usize
        ensures { result ≡ length self.now.keys }
    {
        self.keys.keys().len()
    }

    /// The key's number, or the one that it will get.
    fn number_of(&self, key: &str) -> usize
        requires { is_key key.now ≡ true }
        ensures { IsNext self.now.keys key.now result }
    {
        match self.keys.find_text(key) {
            Some(number) => number,
            None => self.key_count(),
        }
    }

    /// A call begins.
    pub(crate) fn invoke(
        &mut self,
        op: OpId,
        client: ClientId,
        key: &str,
        action: &ActionRef<'_>,
    ) -> Result<Moved, CallRefusal>
        requires key { is_key key.now ≡ true }
        requires some { KeepsSome self.old }
        ensures { (parts : ℕ) (rows : List Row) (pieces : ℕ → List Row) → IsWellFormed rows
            → KeepsRows parts rows pieces self.old
            → TakesNext parts rows pieces self.old (Row.Invoke op client key.now action.now) result self.new }
    {
        let piece = self.number_of(key) % self.counts.len();
        // A call's number in its piece is at most its number in the history.
        let number = self.counts[piece].min(u64::from(op.0));
        let moved = Moved {
            piece,
            op: OpId(number as u32),
        };
        self.calls.begin(op, client, action, moved)?;
        self.keys.number_text(key)?;
        self.counts[piece] += 1;
        Ok(moved)
    }

    /// Where the rows of the call go, if it is pending.
    fn moved(&self, op: OpId) -> Option<Moved>
        ensures { result ≡ moved_in (call_at self.now.calls op.0) }
    {
        match self.calls.call(op) {
            Some(call) => Some(call.payload),
            None => None,
        }
    }

    /// A call's tag is fixed.
    pub(crate) fn note(&mut self, op: OpId) -> Result<Moved, CallRefusal>
        ensures row { (parts : ℕ) (rows : List Row) (pieces : ℕ → List Row) (tag : Tag) → IsWellFormed rows
            → KeepsRows parts rows pieces self.old
            → TakesNext parts rows pieces self.old (Row.Note op tag) result self.new }
        ensures free { IfErr result (λ refusal. refusal ≢ CallRefusal.Memory) }
    {
        self.calls.note(op)?;
        match self.moved(op) {
            Some(moved) => Ok(moved),
            None => Err(CallRefusal::NotPending),
        }
    }

    /// A call is answered.
    pub(crate) fn respond(
        &mut self,
        op: OpId,
        returned: &ReturnedRef<'_>,
    ) -> Result<Moved, CallRefusal>
        ensures row { (parts : ℕ) (rows : List Row) (pieces : ℕ → List Row) → IsWellFormed rows
            → KeepsRows parts rows pieces self.old
            → TakesNext parts rows pieces self.old (Row.Respond op returned.now) result self.new }
        ensures free { IfErr result (λ refusal. refusal ≢ CallRefusal.Memory) }
    {
        let call = self.calls.answer(op, returned)?;
        Ok(call.payload)
    }
}
