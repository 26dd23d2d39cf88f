//! The keys of a record.
ghost use Rattle.std.specs.Prelude.{◌≡◌, ◌<◌, ◌≤◌, ◌+◌, ◌-◌, ◌^◌, ℕ, [], ◌∷◌, ◌++◌, List, None, Some, false, true, Contains, OnOk};
ghost use Rattle.std.specs.Prelude.{count_by, length, min};
ghost use Rattle.std.specs.Prelude.{slice_get};
ghost use Rattle.std.specs.List.{sum_by};
ghost use Rattle.std.specs.Option.{option_copied};
ghost use Rattle.tag.specs.Names.{is_key};
ghost use Rattle.tag.specs.declared.actions.Action.TheVariants as asked;
ghost use Rattle.tag.specs.declared.actions.Returned.{Returned};
ghost use Rattle.tag.specs.declared.actions.Returned.TheVariants as answered;
ghost use Rattle.tag.specs.declared.numbers.OpId.{OpId as Number};
ghost use Rattle.recorder.specs.declared.row.Row.{Row};
ghost use Rattle.recorder.specs.Histories.{IsWellFormed, HasResponse, MayFollow};
ghost use Rattle.growing_parts.specs.PartsWithout.{AreReadsOf};
ghost use Rattle.record_monitor.specs.declared.watched.Watched.{Watched};
ghost use Rattle.recorder.specs.States.{is_write};
ghost use Rattle.record_monitor.specs.Followed.{IsNextAt, IsNumberedAt, is_doubtful, is_refused, kept_of, told_in};
ghost use Rattle.record_monitor.specs.Told.{HasNoteAt, IsBareCall};
ghost use Rattle.record_monitor.specs.Waiting.{AreGivenUp};
ghost use Rattle.record_monitor.specs.Watched.{AreWatched, IsNumberOf};

use crate::report::{Finding, Report};
use crate::told::{Told, ToldCall, ToldNote};
use crate::watched::Watched;
use key_index::KeyNumbers;
use recorder::ActionRef;
use std::alloc::Global;
use tag::{Key, Memory, OpId};

/// The keys, what is known of each, and what was found.
#[derive(Drop)]
pub(crate) struct WatchedKeys {
    alloc: Global,
    numbers: KeyNumbers,
    /// By the key's number.
    watched: Vec<Watched>,
    reports: Vec<Report>,
}

impl WatchedKeys {
    /// No key.
    pub(crate) fn new(alloc: Global) -> WatchedKeys
        ensures numbers { result.numbers ≡ [] }
        ensures watched { result.watched.items ≡ [] }
        ensures reports { result.reports.items ≡ [] }
    {
        WatchedKeys {
            alloc,
            numbers: KeyNumbers::new(alloc),
            watched: Vec::new(alloc),
            reports: Vec::new(alloc),
        }
    }

    /// The keys, by number.
    pub(crate) fn keys(&self) -> &[Key]
        ensures { result.now ≡ self.now.numbers }
    {
        self.numbers.keys()
    }

    /// What was found.
    pub(crate) fn reports(&self) -> &[Report]
        ensures { result.now ≡ self.now.reports.items }
    {
        self.reports.as_slice()
    }

    /// Of how many keys the calls have no order.
    pub(crate) fn refused_count(&self) -> usize
        ensures { result ≡ count_by is_refused self.now.watched.items }
    {
        let mut count = 0usize;
        for number in 0..self.watched.len() {
            if self.watched[number].is_refused() {
                count += 1;
            }
        }
        count
    }

    /// How many keys have a doubt.
    pub(crate) fn doubtful_count(&self) -> usize
        ensures { result ≡ count_by is_doubtful self.now.watched.items }
    {
        let mut count = 0usize;
        for number in 0..self.watched.len() {
            if self.watched[number].is_doubtful() {
                count += 1;
            }
        }
        count
    }

    /// Why the key of that number was refused, if it was and the calls are kept that show it.
    pub(crate) fn told(&self, number: usize) -> Option<&Told>
        ensures { option_copied result ≡ told_in (slice_get self.now.watched.items number) }
    {
        if number < self.watched.len() {
            self.watched[number].told()
        } else {
            None
        }
    }

    /// How many families are kept, of all keys.
    pub(crate) fn kept_count(&self) -> usize
        ensures { result ≡ min (sum_by kept_of self.now.watched.items) (2 ^ 64 - 1) }
    {
        let mut count = 0usize;
        for number in 0..self.watched.len() {
            count = count.saturating_add(self.watched[number].kept_count());
        }
        count
    }

    /// The key's number, or the one that it gets when it is first seen.
    pub(crate) fn number_of(&self, key: &str) -> usize
        requires key { is_key key.now ≡ true }
        ensures { IsNumberOf self.now.numbers key.now result }
    {
        match self.numbers.find_text(key) {
            Some(number) => number,
            None => self.numbers.keys().len(),
        }
    }

    /// A call on the key of that number begins.
    pub(crate) fn begin(
        &mut self,
        number: usize,
        key: &str,
        call: &ToldCall,
        action: &ActionRef<'_>,
        place: u64,
    ) -> Result<(), Memory>
        requires key { is_key key.now ≡ true }
        requires bare { IsBareCall call.now (is_write action.now) place }
        requires number { IsNumberOf self.old.numbers key.now number }
        requires many { length self.old.watched.items ≡ length self.old.numbers }
        requires next { (w : Watched) → slice_get self.old.watched.items number ≡ Some w → IsNextAt w place }
        requires numbered { (w : Watched) → slice_get self.old.watched.items number ≡ Some w
            → IsNumberedAt w call.now.op.0 }
        requires small { place < 2 ^ 63 }
        ensures here { OnOk result (slice_get self.new.numbers number ≡ Some key.now) }
        ensures stay { OnOk result ((n : ℕ) (k : List ℕ) → slice_get self.old.numbers n ≡ Some k
            → slice_get self.new.numbers n ≡ Some k) }
        ensures watched { OnOk result ((most : ℕ) (rows : List Row) (gone : List ℕ)
            → IsWellFormed rows → length rows ≡ place
            → MayFollow rows (Row.Invoke call.now.op call.now.client key.now action.now)
            → AreReadsOf rows gone → AreWatched most rows gone self.old → AreWatched most
            (rows ++ Row.Invoke call.now.op call.now.client key.now action.now ∷ []) gone self.new) }
    {
        if number < self.watched.len() {
            return self.watched[number].begin(call, action, place);
        }
        self.add(key, call, action, place)
    }

    /// The first call on a key begins.
    fn add(
        &mut self,
        key: &str,
        call: &ToldCall,
        action: &ActionRef<'_>,
        place: u64,
    ) -> Result<(), Memory>
        requires key { is_key key.now ≡ true }
        requires bare { IsBareCall call.now (is_write action.now) place }
        requires unseen { Contains self.old.numbers key.now → ⊥ }
        requires many { length self.old.watched.items ≡ length self.old.numbers }
        requires small { place < 2 ^ 63 }
        ensures numbers { OnOk result (self.new.numbers ≡ self.old.numbers ++ key.now ∷ []) }
        ensures watched { OnOk result ((most : ℕ) (rows : List Row) (gone : List ℕ)
            → IsWellFormed rows → length rows ≡ place
            → MayFollow rows (Row.Invoke call.now.op call.now.client key.now action.now)
            → AreReadsOf rows gone → AreWatched most rows gone self.old → AreWatched most
            (rows ++ Row.Invoke call.now.op call.now.client key.now action.now ∷ []) gone self.new) }
    {
        self.numbers.number_text(key)?;
        let watched = Watched::first(self.alloc, call, action, place)?;
        self.watched.push(watched)?;
        Ok(())
    }

    /// A pending call on the key of that number, which began at `begin`, is noted.
    pub(crate) fn note(
        &mut self,
        number: usize,
        begin: u64,
        op: OpId,
        is_write: bool,
        note: &ToldNote,
    ) -> Result<(), Memory>
        ensures numbers { self.new.numbers ≡ self.old.numbers }
        ensures watched { OnOk result ((most : ℕ) (rows : List Row) (gone : List ℕ)
            → HasNoteAt rows op note.now → AreWatched most rows gone self.old
            → AreWatched most rows gone self.new) }
    {
        if number < self.watched.len() {
            return self.watched[number].note(begin, op, is_write, note);
        }
        Ok(())
    }

    /// A write on the key of that number is answered.
    pub(crate) fn end_write(
        &mut self,
        number: usize,
        call: &ToldCall,
        place: u64,
    ) -> Result<(), Memory>
        requires bare { IsBareCall call.now true call.now.begun }
        requires there { number < length self.old.watched.items }
        requires next { (w : Watched) → slice_get self.old.watched.items number ≡ Some w → IsNextAt w place }
        requires small { place < 2 ^ 63 }
        ensures numbers { self.new.numbers ≡ self.old.numbers }
        ensures watched { OnOk result ((most : ℕ) (rows : List Row) (gone key value : List ℕ)
            → IsWellFormed rows → length rows ≡ place → slice_get self.old.numbers number ≡ Some key
            → slice_get rows call.now.begun
            ≡ Some (Row.Invoke call.now.op call.now.client key (asked.Write value))
            → MayFollow rows (Row.Respond call.now.op answered.Written)
            → (Contains gone call.now.op.0 → ⊥) → AreWatched most rows gone self.old
            → AreWatched most (rows ++ Row.Respond call.now.op answered.Written ∷ []) gone self.new) }
    {
        self.watched[number].end_write(call, place)
    }

    /// A read that isn't given up is answered.
    pub(crate) fn end_read(
        &mut self,
        number: usize,
        call: &ToldCall,
        value: Option<&str>,
        place: u64,
    ) -> Result<(), Memory>
        requires bare { IsBareCall call.now false call.now.begun }
        requires there { number < length self.old.watched.items }
        requires began { call.now.begun < place }
        requires next { (w : Watched) → slice_get self.old.watched.items number ≡ Some w → IsNextAt w place }
        requires small { place < 2 ^ 63 }
        ensures numbers { self.new.numbers ≡ self.old.numbers }
        ensures watched { OnOk result ((most : ℕ) (rows : List Row) (gone key : List ℕ)
            → IsWellFormed rows → length rows ≡ place → slice_get self.old.numbers number ≡ Some key
            → slice_get rows call.now.begun
            ≡ Some (Row.Invoke call.now.op call.now.client key asked.Read)
            → MayFollow rows (Row.Respond call.now.op (answered.Value (option_copied value.entry)))
            → AreGivenUp most rows gone → (Contains gone call.now.op.0 → ⊥)
            → AreWatched most rows gone self.old → AreWatched most
            (rows ++ Row.Respond call.now.op (answered.Value (option_copied value.entry)) ∷ []) gone
            self.new) }
    {
        if let Some(finding) = self.watched[number].end_read(call, value, place)? {
            self.report(number, place, finding)?;
        }
        Ok(())
    }

    /// That was found at the row.
    fn report(&mut self, number: usize, place: u64, finding: Finding) -> Result<(), Memory>
        ensures numbers { self.new.numbers ≡ self.old.numbers }
        ensures watched { self.new.watched ≡ self.old.watched }
        ensures reports { OnOk result (self.new.reports.items
            ≡ self.old.reports.items ++ record { place = place; key = number; finding = finding } ∷ []) }
    {
        self.reports.push(Report {
            place,
            key: number,
            finding,
        })?;
        Ok(())
    }

    /// A read that was given up is answered after all.
    pub(crate) fn end_after_all(
        &mut self,
        number: usize,
        op: OpId,
        place: u64,
    ) -> Result<(), Memory>
        ensures numbers { self.new.numbers ≡ self.old.numbers }
        ensures watched { OnOk result ((most : ℕ) (rows : List Row) (gone key : List ℕ) (client begin : ℕ)
            (returned : Returned) → IsWellFormed rows → length rows ≡ place
            → slice_get self.old.numbers number ≡ Some key
            → slice_get rows begin ≡ Some (Row.Invoke op client key asked.Read)
            → MayFollow rows (Row.Respond op returned) → begin + most < place → Contains gone op.0
            → AreWatched most rows gone self.old
            → AreWatched most (rows ++ Row.Respond op returned ∷ []) gone self.new) }
    {
        self.report(number, place, Finding::EndedAfterAll(op))
    }

    /// A pending read that began at `begin` is given up.
    pub(crate) fn give_up(&mut self, number: usize, begin: u64)
        requires there { number < length self.old.watched.items }
        ensures numbers { self.new.numbers ≡ self.old.numbers }
        ensures watched { (most : ℕ) (rows : List Row) (gone key : List ℕ) (op : Number) (client : ℕ)
            → IsWellFormed rows → slice_get self.old.numbers number ≡ Some key
            → slice_get rows begin ≡ Some (Row.Invoke op client key asked.Read)
            → (HasResponse rows op → ⊥) → (Contains gone op.0 → ⊥)
            → AreWatched most rows gone self.old → AreWatched most rows (op.0 ∷ gone) self.new }
    {
        self.watched[number].give_up(begin);
    }
}
