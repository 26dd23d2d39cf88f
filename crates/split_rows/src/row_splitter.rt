//! Splits the rows of a history among its pieces.
ghost use Rattle.std.specs.Prelude.{◌≡◌, ◌≢◌, ◌<◌, [], true, ℕ, List, Some, None, IfErr, IfOk, IfSome, OnErr, Result};
ghost use Rattle.tag.specs.Names.{is_key};
ghost use Rattle.tag.specs.Tags.{Tag};
ghost use Rattle.recorder.specs.declared.row.Row.{Row};
ghost use Rattle.recorder.specs.Histories.{IsWellFormed};
ghost use Rattle.split_rows.specs.Pieces.{all_empty};
ghost use Rattle.split_rows.specs.Taken.{KeepsSome};
ghost use Rattle.split_rows.specs.Splits.{HasSplit, IsLost, SplitsRow, StaysLost, begun_of, key_count_of, left_of};

use crate::moved::Moved;
use crate::taken::Taken;
use open_calls::CallRefusal;
use recorder::{ActionRef, ReturnedRef};
use std::alloc::Global;
use std::marker::Model;
use tag::{ClientId, Memory, OpId};

/// Says of each row of a history in which of its pieces it goes, and with which number for its call.
///
/// The keys are dealt to the pieces in turn, as they are first seen: the first to piece 0, the next to piece 1 and so on. In each
/// piece calls are numbered 0, 1, 2 and so on. A row that breaks a rule is refused, and leaves all as it was. On `Memory` all that
/// was known is lost, and each further row answers `Memory`.
#[derive(Drop)]
pub struct RowSplitter {
    taken: Option<Taken>,
}

impl Model for RowSplitter {
    ghost use Rattle.std.specs.Prelude.{Option, IfSome};
    ghost use Rattle.std.specs.Coded.{coded_option};
    ghost use Rattle.split_rows.specs.declared.taken.Taken.{Taken};
    ghost use Rattle.split_rows.specs.contracts.taken.Taken as whole;

    ghost Value = { Option Taken };

    ghost coded = { coded_option whole.the_row.coded };

    ghost use Rattle.split_rows.specs.Taken.{KeepsSome};

    ghost view = { λ s. s.taken };

    ghost invariant = { λ s. IfSome s.taken KeepsSome };
}

impl RowSplitter {
    /// No row was taken, and there are so many empty pieces.
    pub fn new(alloc: Global, parts: usize) -> Result<RowSplitter, Memory>
        requires { 0 < parts }
        ensures { IfOk result (HasSplit parts [] all_empty) }
    {
        Ok(RowSplitter {
            taken: Some(Taken::new(alloc, parts)?),
        })
    }

    /// How many calls were begun.
    pub fn begun(&self) -> u64
        ensures { result ≡ begun_of self.now }
    {
        match &self.taken {
            Some(taken) => taken.begun(),
            None => 0,
        }
    }

    /// How many keys were seen.
    pub fn key_count(&self) -> usize
        ensures { result ≡ key_count_of self.now }
    {
        match &self.taken {
            Some(taken) => taken.key_count(),
            None => 0,
        }
    }

    /// Takes out what is kept, if it isn't lost.
    fn take(&mut self) -> Result<Taken, Memory>
        ensures kept { IfOk result (λ taken. KeepsSome taken × (self.old ≡ Some taken)) }
        ensures lost { OnErr result (self.old ≡ None) }
        ensures left { self.new ≡ None }
    {
        self.taken.take().ok_or(Memory)
    }

    /// Keeps what is left after a row that was answered so.
    fn keep(
        &mut self,
        taken: Taken,
        answer: Result<Moved, CallRefusal>,
    ) -> Result<Moved, CallRefusal>
        requires { IfSome (left_of taken answer) KeepsSome }
        ensures kept { self.new ≡ left_of taken answer }
        ensures answer { result ≡ answer }
    {
        self.taken = match answer {
            Err(CallRefusal::Memory) => None,
            _ => Some(taken),
        };
        answer
    }

    /// A client begins a call on a key. `OutOfTurn` comes if the call's number isn't the next one, else `ClientBusy` if the
    /// client has a pending call, else `Memory` only if an allocation was refused.
    pub fn invoke(
        &mut self,
        op: OpId,
        client: ClientId,
        key: &str,
        action: &ActionRef<'_>,
    ) -> Result<Moved, CallRefusal>
        requires key { is_key key.now ≡ true }
        ensures row { (parts : ℕ) (rows : List Row) (pieces : ℕ → List Row) → IsWellFormed rows
            → HasSplit parts rows pieces self.old
            → SplitsRow parts rows pieces self.old (Row.Invoke op client key.now action.now) result self.new }
        ensures lost { IsLost self.old → StaysLost result self.new }
    {
        let mut taken = self.take()?;
        let answer = taken.invoke(op, client, key, action);
        self.keep(taken, answer)
    }

    /// A call's tag is fixed, whichever it is. `NotPending` comes if the call isn't pending, else `NoteTwice` if it has a note.
    pub fn note(&mut self, op: OpId) -> Result<Moved, CallRefusal>
        ensures row { (parts : ℕ) (rows : List Row) (pieces : ℕ → List Row) (tag : Tag) → IsWellFormed rows
            → HasSplit parts rows pieces self.old
            → SplitsRow parts rows pieces self.old (Row.Note op tag) result self.new }
        ensures lost { IsLost self.old → StaysLost result self.new }
        ensures free { (IsLost self.old → ⊥) → IfErr result (λ refusal. refusal ≢ CallRefusal.Memory) }
    {
        let mut taken = self.take()?;
        let answer = taken.note(op);
        self.keep(taken, answer)
    }

    /// A call is answered. `NotPending` comes if the call isn't pending, else `WrongKind` if the answer isn't of its kind.
    pub fn respond(&mut self, op: OpId, returned: &ReturnedRef<'_>) -> Result<Moved, CallRefusal>
        ensures row { (parts : ℕ) (rows : List Row) (pieces : ℕ → List Row) → IsWellFormed rows
            → HasSplit parts rows pieces self.old
            → SplitsRow parts rows pieces self.old (Row.Respond op returned.now) result self.new }
        ensures lost { IsLost self.old → StaysLost result self.new }
        ensures free { (IsLost self.old → ⊥) → IfErr result (λ refusal. refusal ≢ CallRefusal.Memory) }
    {
        let mut taken = self.take()?;
        let answer = taken.respond(op, returned);
        self.keep(taken, answer)
    }
}
