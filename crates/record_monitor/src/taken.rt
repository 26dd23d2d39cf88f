//! What is kept of the rows that were taken.
ghost use Rattle.std.specs.Prelude.{◌≡◌, ◌<◌, ◌+◌, ◌^◌, ℕ, [], ◌∷◌, ◌++◌, List, None, Some, true, Contains, IfErr, OnOk, length};
ghost use Rattle.std.specs.Prelude.{slice_get};
ghost use Rattle.std.specs.Option.{option_copied};
ghost use Rattle.tag.specs.Names.{is_key};
ghost use Rattle.tag.specs.declared.actions.Action.{Action as Asked};
ghost use Rattle.tag.specs.declared.actions.Action.TheVariants as asked;
ghost use Rattle.tag.specs.declared.actions.Returned.TheVariants as answered;
ghost use Rattle.recorder.specs.declared.row.Row.{Row};
ghost use Rattle.recorder.specs.Histories.{IsWellFormed, MayFollow};
ghost use Rattle.recorder.specs.States.{is_write};
ghost use Rattle.record_monitor.specs.Taken.{HasMoved, IsBegun, KeepsKeys, KeepsRows, KeepsSome, MayTake, TakesNext};
ghost use Rattle.record_monitor.specs.Told.{IsBareCall};
ghost use Rattle.record_monitor.specs.Waiting.{AreGivenUp, AreRecent, AreWaiting};
ghost use Rattle.record_monitor.specs.Watched.{AreWatched, IsNumberOf};
ghost use Rattle.monitored_key.specs.Maps.{entry_at};

use crate::told::{ToldCall, ToldNote};
use crate::watched_keys::WatchedKeys;
use open_calls::{CallRefusal, OpenCalls};
use recorder::{ActionRef, ReturnedRef};
use std::alloc::Global;
use std::collections::BTreeMap;
use tag::{ClientId, Memory, OpId, Tag};

/// What is kept of a pending call.
#[derive(Clone, Copy, Debug, Drop)]
pub(crate) struct Begun {
    /// The number of its key.
    key: usize,
    /// The place of its row.
    place: u64,
    /// Who began it.
    client: ClientId,
}

/// What is kept of the rows that were taken.
#[derive(Drop)]
pub(crate) struct Taken {
    /// The pending calls.
    calls: OpenCalls<Begun>,
    keys: WatchedKeys,
    /// By the place of its row, the number of the key of each pending read that isn't given up.
    reads: BTreeMap<u64, usize>,
    /// How many rows were taken: the next row's place.
    place: u64,
    /// A read is given up once it was pending for more than so many rows.
    give_up: u64,
}

/// The call's number, which is below 2^32.
fn call_number(op: OpId) -> u32
    ensures { result ≡ op.0 }
{
    op.0
}

impl Taken {
    /// No row.
    pub(crate) fn new(alloc: Global, give_up: u64) -> Taken
        ensures rows { KeepsRows [] result }
        ensures give_up { result.give_up ≡ give_up }
    {
        Taken {
            calls: OpenCalls::new(alloc),
            keys: WatchedKeys::new(alloc),
            reads: BTreeMap::new(alloc),
            place: 0,
            give_up,
        }
    }

    /// The keys.
    pub(crate) fn keys(&self) -> &WatchedKeys
        ensures { result.now ≡ self.now.keys }
    {
        &self.keys
    }

    /// How many calls were begun.
    pub(crate) fn begun(&self) -> u64
        ensures { result ≡ self.now.calls.begun }
    {
        self.calls.begun()
    }

    /// A call begins.
    pub(crate) fn invoke(
        &mut self,
        op: OpId,
        client: ClientId,
        key: &str,
        action: &ActionRef<'_>,
    ) -> Result<(), CallRefusal>
        requires key { is_key key.now ≡ true }
        requires some { KeepsSome self.old }
        ensures { (rows : List Row) → IsWellFormed rows → KeepsRows rows self.old
            → TakesNext rows self.old (Row.Invoke op client key.now action.now) result self.new }
    {
        // A call has at most three rows, so that each place is below 2^63.
        let _number = call_number(op);
        let number = self.keys.number_of(key);
        let place = self.place;
        let begun = Begun {
            key: number,
            place,
            client,
        };
        self.calls.begin(op, client, action, begun)?;
        let is_write = action.written().is_some();
        let call = ToldCall {
            op,
            client,
            is_write,
            begun: place,
            noted: None,
            answered: None,
        };
        self.begin(number, key, &call, action)?;
        self.end_row();
        Ok(())
    }

    /// The key takes the call, which waits for its answer if it is a read.
    fn begin(
        &mut self,
        number: usize,
        key: &str,
        call: &ToldCall,
        action: &ActionRef<'_>,
    ) -> Result<(), Memory>
        requires key { is_key key.now ≡ true }
        requires bare { IsBareCall call.now (is_write action.now) self.old.place }
        requires number { IsNumberOf self.old.keys.numbers key.now number }
        requires may { MayTake self.old (Row.Invoke call.now.op call.now.client key.now action.now) }
        requires small { self.old.place < 2 ^ 63 }
        ensures calls { self.new.calls ≡ self.old.calls }
        ensures give_up { self.new.give_up ≡ self.old.give_up }
        ensures here { OnOk result (slice_get self.new.keys.numbers number ≡ Some key.now) }
        ensures stay { OnOk result ((n : ℕ) (k : List ℕ) → slice_get self.old.keys.numbers n ≡ Some k
            → slice_get self.new.keys.numbers n ≡ Some k) }
        ensures keys { OnOk result ((rows : List Row) (gone : List ℕ) → IsWellFormed rows
            → MayFollow rows (Row.Invoke call.now.op call.now.client key.now action.now)
            → KeepsKeys (length rows) rows gone self.old → KeepsKeys (length rows)
            (rows ++ Row.Invoke call.now.op call.now.client key.now action.now ∷ []) gone self.new) }
    {
        self.keys.begin(number, key, call, action, self.place)?;
        match action.written() {
            None => {
                self.reads.insert(self.place, number)?;
                Ok(())
            }
            Some(_) => Ok(()),
        }
    }

    /// A call is noted.
    pub(crate) fn note(&mut self, op: OpId, tag: Tag) -> Result<(), CallRefusal>
        requires { KeepsSome self.old }
        ensures { (rows : List Row) → IsWellFormed rows → KeepsRows rows self.old
            → TakesNext rows self.old (Row.Note op tag) result self.new }
    {
        self.calls.note(op)?;
        self.keep_note(op, tag)?;
        self.end_row();
        Ok(())
    }

    /// The row's note may be told, unless it is that of a read that was given up.
    fn keep_note(&mut self, op: OpId, tag: Tag) -> Result<(), Memory>
        ensures calls { self.new.calls ≡ self.old.calls }
        ensures give_up { self.new.give_up ≡ self.old.give_up }
        ensures numbers { self.new.keys.numbers ≡ self.old.keys.numbers }
        ensures keys { OnOk result ((rows : List Row) (gone : List ℕ) (place : ℕ)
            → slice_get rows self.old.place ≡ Some (Row.Note op tag)
            → KeepsKeys place rows gone self.old → KeepsKeys place rows gone self.new) }
    {
        let Some(call) = self.calls.call(op) else {
            return Ok(());
        };
        let begun = call.payload;
        if !call.is_write && begun.place.saturating_add(self.give_up) < self.place {
            return Ok(());
        }
        let note = ToldNote {
            place: self.place,
            tag,
        };
        self.keys
            .note(begun.key, begun.place, op, call.is_write, &note)
    }

    /// A call is answered.
    pub(crate) fn respond(
        &mut self,
        op: OpId,
        returned: &ReturnedRef<'_>,
    ) -> Result<(), CallRefusal>
        requires { KeepsSome self.old }
        ensures { (rows : List Row) → IsWellFormed rows → KeepsRows rows self.old
            → TakesNext rows self.old (Row.Respond op returned.now) result self.new }
    {
        let begun = self.calls.answer(op, returned)?.payload;
        self.end(op, begun, returned)?;
        self.end_row();
        Ok(())
    }

    /// The key takes the answer.
    fn end(&mut self, op: OpId, begun: Begun, returned: &ReturnedRef<'_>) -> Result<(), Memory>
        requires may { (m : MayTake self.old (Row.Respond op returned.now))
            × IsBegun m.rows self.old.keys.numbers op begun }
        requires small { self.old.place < 2 ^ 63 }
        ensures calls { self.new.calls ≡ self.old.calls }
        ensures give_up { self.new.give_up ≡ self.old.give_up }
        ensures numbers { self.new.keys.numbers ≡ self.old.keys.numbers }
        ensures keys { OnOk result ((rows : List Row) (gone : List ℕ) → IsWellFormed rows
            → MayFollow rows (Row.Respond op returned.now)
            → IsBegun rows self.old.keys.numbers op begun → KeepsKeys (length rows) rows gone self.old
            → KeepsKeys (length rows) (rows ++ Row.Respond op returned.now ∷ []) gone self.new) }
    {
        match returned.answered() {
            None => self.end_write(op, begun),
            Some(None) => self.end_read(op, begun, None),
            Some(Some(value)) => self.end_read(op, begun, Some(value.as_str())),
        }
    }

    /// The key takes the answer of the write.
    fn end_write(&mut self, op: OpId, begun: Begun) -> Result<(), Memory>
        requires may { (m : MayTake self.old (Row.Respond op answered.Written))
            × IsBegun m.rows self.old.keys.numbers op begun }
        requires small { self.old.place < 2 ^ 63 }
        ensures calls { self.new.calls ≡ self.old.calls }
        ensures give_up { self.new.give_up ≡ self.old.give_up }
        ensures numbers { self.new.keys.numbers ≡ self.old.keys.numbers }
        ensures keys { OnOk result ((rows : List Row) (gone : List ℕ) → IsWellFormed rows
            → MayFollow rows (Row.Respond op answered.Written)
            → IsBegun rows self.old.keys.numbers op begun → KeepsKeys (length rows) rows gone self.old
            → KeepsKeys (length rows) (rows ++ Row.Respond op answered.Written ∷ []) gone self.new) }
    {
        let call = ToldCall {
            op,
            client: begun.client,
            is_write: true,
            begun: begun.place,
            noted: None,
            answered: None,
        };
        self.keys.end_write(begun.key, &call, self.place)
    }

    /// The key takes the answer of the read, unless the read was given up.
    fn end_read(&mut self, op: OpId, begun: Begun, value: Option<&str>) -> Result<(), Memory>
        requires may { (m : MayTake self.old (Row.Respond op (answered.Value (option_copied value))))
            × IsBegun m.rows self.old.keys.numbers op begun }
        requires small { self.old.place < 2 ^ 63 }
        ensures calls { self.new.calls ≡ self.old.calls }
        ensures give_up { self.new.give_up ≡ self.old.give_up }
        ensures numbers { self.new.keys.numbers ≡ self.old.keys.numbers }
        ensures keys { OnOk result ((rows : List Row) (gone : List ℕ) → IsWellFormed rows
            → MayFollow rows (Row.Respond op (answered.Value (option_copied value.entry)))
            → IsBegun rows self.old.keys.numbers op begun → KeepsKeys (length rows) rows gone self.old
            → KeepsKeys (length rows) (rows ++ Row.Respond op (answered.Value (option_copied value.entry)) ∷ [])
            gone self.new) }
    {
        match self.reads.remove(&begun.place) {
            Some(number) => {
                let call = ToldCall {
                    op,
                    client: begun.client,
                    is_write: false,
                    begun: begun.place,
                    noted: None,
                    answered: None,
                };
                self.keys.end_read(number, &call, value, self.place)
            }
            None => self.keys.end_after_all(begun.key, op, self.place),
        }
    }

    /// Ends the row: a read that was pending for so many rows is given up.
    fn end_row(&mut self)
        requires some { (rows : List Row) × (gone : List ℕ) × KeepsKeys self.old.place rows gone self.old }
        requires small { self.old.place < 2 ^ 63 }
        ensures calls { self.new.calls ≡ self.old.calls }
        ensures give_up { self.new.give_up ≡ self.old.give_up }
        ensures numbers { self.new.keys.numbers ≡ self.old.keys.numbers }
        ensures keys { (rows : List Row) (gone : List ℕ) → IsWellFormed rows
            → length rows ≡ self.old.place + 1 → KeepsKeys self.old.place rows gone self.old
            → (later : List ℕ) × KeepsKeys (length rows) rows later self.new }
    {
        let overdue = self.place.checked_sub(self.give_up);
        self.place += 1;
        if let Some(begin) = overdue {
            self.give_up_at(begin);
        }
    }

    /// The pending read that began there, if one did, is given up.
    fn give_up_at(&mut self, begin: u64)
        requires { (rows : List Row) × (gone : List ℕ) × HasMoved self.old.place rows gone self.old }
        ensures calls { self.new.calls ≡ self.old.calls }
        ensures give_up { self.new.give_up ≡ self.old.give_up }
        ensures numbers { self.new.keys.numbers ≡ self.old.keys.numbers }
        ensures place { self.new.place ≡ self.old.place }
        ensures keys { (rows : List Row) (gone : List ℕ) → IsWellFormed rows
            → begin + self.old.give_up + 1 ≡ length rows → HasMoved (length rows) rows gone self.old
            → (later : List ℕ) × KeepsKeys (length rows) rows later self.new }
    {
        if let Some(number) = self.reads.remove(&begin) {
            self.keys.give_up(number, begin);
        }
    }
}
