//! A monitor of a record.
ghost use Rattle.std.specs.Prelude.{◌≡◌, ◌-◌, ◌^◌, [], true, ℕ, List, Some, IfSome, count_by, min, slice_get};
ghost use Rattle.std.specs.List.{sum_by};
ghost use Rattle.std.specs.Option.{option_copied};
ghost use Rattle.tag.specs.Names.{is_key};
ghost use Rattle.recorder.specs.declared.row.Row.{Row};
ghost use Rattle.recorder.specs.Histories.{IsWellFormed};
ghost use Rattle.record_monitor.specs.Taken.{KeepsSome};
ghost use Rattle.record_monitor.specs.Followed.{is_doubtful, is_refused, kept_of, told_in};
ghost use Rattle.record_monitor.specs.Told.{IsTold};
ghost use Rattle.record_monitor.specs.Monitored.{HasTaken, Takes, begun_of, give_up_of, keys_of, left_of, reports_of, watched_of};

use crate::report::Report;
use crate::taken::Taken;
use crate::told::Told;
use open_calls::CallRefusal;
use recorder::{ActionRef, ReturnedRef};
use std::alloc::Global;
use std::marker::Model;
use tag::{ClientId, Key, Memory, OpId, Tag};

/// A record of calls on registers, judged by its values while it comes.
///
/// A row that breaks a rule is refused, and leaves all as it was. A read that was pending for more than `give_up` rows is given
/// up: its key is judged without it. Of each key the first refusal is reported, from which on it isn't judged, and the first
/// undecided read. On `Memory` all that was known is lost, and each further row answers `Memory`.
///
/// Memory goes with how many calls are pending, the keys, what is kept of each, and the reports. A row takes about the
/// logarithm of that.
#[derive(Drop)]
pub struct RecordMonitor {
    taken: Option<Taken>,
}

impl Model for RecordMonitor {
    ghost use Rattle.std.specs.Prelude.{Option, IfSome};
    ghost use Rattle.std.specs.Coded.{coded_option};
    ghost use Rattle.record_monitor.specs.declared.taken.Taken.{Taken};
    ghost use Rattle.record_monitor.specs.contracts.taken.Taken as whole;

    ghost Value = { Option Taken };

    ghost coded = { coded_option whole.the_row.coded };

    ghost use Rattle.record_monitor.specs.Taken.{KeepsSome};

    ghost view = { λ m. m.taken };

    ghost invariant = { λ m. IfSome m.taken KeepsSome };
}

/// Forgets all that was known, if a row was refused for want of memory.
fn lose(taken: &mut Option<Taken>, answer: &Result<(), CallRefusal>)
    ensures { taken.new ≡ left_of taken.old answer.now }
{
    if matches!(answer, Err(CallRefusal::Memory)) {
        *taken = None;
    }
}

impl RecordMonitor {
    /// No row was taken.
    pub fn new(alloc: Global, give_up: u64) -> RecordMonitor
        ensures taken { HasTaken [] result }
        ensures give_up { give_up_of result ≡ give_up }
    {
        RecordMonitor {
            taken: Some(Taken::new(alloc, give_up)),
        }
    }

    /// What was found so far, in the order of the rows.
    pub fn reports(&self) -> &[Report]
        ensures { result.now ≡ reports_of self.now }
    {
        match &self.taken {
            Some(taken) => taken.keys().reports(),
            None => &[],
        }
    }

    /// The keys, by number: in the order in which they are first seen.
    pub fn keys(&self) -> &[Key]
        ensures { result.now ≡ keys_of self.now }
    {
        match &self.taken {
            Some(taken) => taken.keys().keys(),
            None => &[],
        }
    }

    /// How many calls were begun.
    pub fn begun(&self) -> u64
        ensures { result ≡ begun_of self.now }
    {
        match &self.taken {
            Some(taken) => taken.begun(),
            None => 0,
        }
    }

    /// Of how many keys the calls have no order.
    pub fn refused_count(&self) -> usize
        ensures { result ≡ count_by is_refused (watched_of self.now) }
    {
        match &self.taken {
            Some(taken) => taken.keys().refused_count(),
            None => 0,
        }
    }

    /// How many keys have a doubt.
    pub fn doubtful_count(&self) -> usize
        ensures { result ≡ count_by is_doubtful (watched_of self.now) }
    {
        match &self.taken {
            Some(taken) => taken.keys().doubtful_count(),
            None => 0,
        }
    }

    /// How many families are kept, of all keys: `usize::MAX` if they are more.
    pub fn kept_count(&self) -> usize
        ensures { result ≡ min (sum_by kept_of (watched_of self.now)) (2 ^ 64 - 1) }
    {
        match &self.taken {
            Some(taken) => taken.keys().kept_count(),
            None => 0,
        }
    }

    /// The calls that show why the key of that number was refused, if it was: each is one of the rows that were taken.
    ///
    /// That a refused key has them isn't promised: without them it is known that it is refused, and not why.
    pub fn told(&self, key: usize) -> Option<&Told>
        ensures value { option_copied result ≡ told_in (slice_get (watched_of self.now) key) }
        ensures told { (rows : List Row) (name : List ℕ) → HasTaken rows self.now
            → slice_get (keys_of self.now) key ≡ Some name
            → IfSome (option_copied result) (IsTold rows name) }
    {
        match &self.taken {
            Some(taken) => taken.keys().told(key),
            None => None,
        }
    }

    /// A client begins a call on a key.
    pub fn invoke(
        &mut self,
        op: OpId,
        client: ClientId,
        key: &str,
        action: &ActionRef<'_>,
    ) -> Result<(), CallRefusal>
        requires key { is_key key.now ≡ true }
        ensures { (rows : List Row) → IsWellFormed rows → HasTaken rows self.old
            → Takes rows self.old (Row.Invoke op client key.now action.now) result self.new }
    {
        let Some(taken) = &mut self.taken else {
            return Err(CallRefusal::Memory);
        };
        let answer = taken.invoke(op, client, key, action);
        lose(&mut self.taken, &answer);
        answer
    }

    /// A call's tag is fixed.
    pub fn note(&mut self, op: OpId, tag: Tag) -> Result<(), CallRefusal>
        ensures { (rows : List Row) → IsWellFormed rows → HasTaken rows self.old
            → Takes rows self.old (Row.Note op tag) result self.new }
    {
        let Some(taken) = &mut self.taken else {
            return Err(CallRefusal::Memory);
        };
        let answer = taken.note(op, tag);
        lose(&mut self.taken, &answer);
        answer
    }

    /// A call is answered.
    pub fn respond(&mut self, op: OpId, returned: &ReturnedRef<'_>) -> Result<(), CallRefusal>
        ensures { (rows : List Row) → IsWellFormed rows → HasTaken rows self.old
            → Takes rows self.old (Row.Respond op returned.now) result self.new }
    {
        let Some(taken) = &mut self.taken else {
            return Err(CallRefusal::Memory);
        };
        let answer = taken.respond(op, returned);
        lose(&mut self.taken, &answer);
        answer
    }
}
