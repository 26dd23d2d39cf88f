//! What a monitor knows of one key.
ghost use Rattle.std.specs.Prelude.{◌≡◌, ◌<◌, ◌≤◌, ◌^◌, ℕ, [], None, IfOk, MatchOption, OnOk, OnErr, length};
ghost use Rattle.std.specs.Option.{option_copied};
ghost use Rattle.key_monitor.specs.Follows.{FollowsKept};
ghost use Rattle.monitored_key.specs.Changes.{ChangesBy, HasGivenUp, HasReadBegun, HasWriteBegun, HasWriteEnded, nothing_held};
ghost use Rattle.monitored_key.specs.Followed.{FollowsReadBegun, FollowsWithout, FollowsWriteBegun, FollowsWriteEnded, JudgesRead};
ghost use Rattle.monitored_key.specs.Held.{IsLost, state_of, write_at};
ghost use Rattle.monitored_key.specs.KeptZones.{HasAllZones, HasNoZone, IsTextOf, IsZoneOf};
ghost use Rattle.monitored_key.specs.Verdicts.{IsVerdict};

use crate::judged::Judged;
use crate::kept::Kept;
use crate::kept_zone::KeptZone;
use std::alloc::Global;
use std::marker::Model;
use tag::Memory;

/// What a monitor knows of one key: the calls by the last row, as far as a later row can touch them.
///
/// Each row begins or answers a call of the key. Its place is above that of the row before, and below 2^63; the numbers of
/// writes rise too. A row takes about the logarithm of what is kept. On `Memory` all that was known is lost, and each
/// further row answers `Memory`.
#[derive(Drop)]
pub struct MonitoredKey {
    kept: Option<Kept>,
}

impl Model for MonitoredKey {
    ghost use Rattle.std.specs.Prelude.{IfSome};
    ghost use Rattle.monitored_key.specs.Held.{Held};

    ghost Value = { Held };

    ghost use Rattle.monitored_key.specs.Kept.{IsSound, held_of};

    ghost view = { λ m. held_of m.kept };

    ghost invariant = { λ m. IfSome m.kept IsSound };
}

impl MonitoredKey {
    /// No call was begun.
    pub fn new(alloc: Global) -> MonitoredKey
        ensures nothing { result ≡ nothing_held }
        ensures follows { (row : ℕ) → FollowsKept [] (λ _. None) row (state_of result) }
    {
        MonitoredKey {
            kept: Some(Kept::new(alloc)),
        }
    }

    /// A read begins.
    pub fn begin_read(&mut self, number: u32, place: u64) -> Result<(), Memory>
        requires next { self.old.next ≤ place }
        requires small { place < 2 ^ 63 }
        ensures follows { OnOk result
            (FollowsReadBegun (state_of self.old) (state_of self.new) place) }
        ensures held { OnOk result (HasReadBegun self.old number place self.new) }
        ensures lost { OnOk result (IsLost self.old → ⊥) }
        ensures kept { OnOk result (IsLost self.new → ⊥) }
        ensures err { OnErr result (IsLost self.new) }
    {
        let Some(kept) = &mut self.kept else {
            return Err(Memory);
        };
        match kept.begin_read(number, place) {
            Ok(()) => Ok(()),
            Err(Memory) => {
                self.kept = None;
                Err(Memory)
            }
        }
    }

    /// A write of the value begins.
    pub fn begin_write(&mut self, number: u32, value: &str, place: u64) -> Result<(), Memory>
        requires rises { self.old.number ≤ number }
        requires next { self.old.next ≤ place }
        requires small { place < 2 ^ 63 }
        ensures follows { OnOk result
            (FollowsWriteBegun (state_of self.old) (state_of self.new) number value.now place) }
        ensures held { OnOk result (HasWriteBegun self.old number value.now place self.new) }
        ensures lost { OnOk result (IsLost self.old → ⊥) }
        ensures kept { OnOk result (IsLost self.new → ⊥) }
        ensures err { OnErr result (IsLost self.new) }
    {
        let Some(kept) = &mut self.kept else {
            return Err(Memory);
        };
        match kept.begin_write(number, value, place) {
            Ok(()) => Ok(()),
            Err(Memory) => {
                self.kept = None;
                Err(Memory)
            }
        }
    }

    /// The write of that number is answered.
    pub fn end_write(&mut self, number: u32, place: u64) -> Result<(), Memory>
        requires next { self.old.next ≤ place }
        requires small { place < 2 ^ 63 }
        ensures follows { OnOk result
            (FollowsWriteEnded (state_of self.old) (state_of self.new) number place) }
        ensures held { OnOk result (HasWriteEnded self.old place self.new) }
        ensures lost { OnOk result (IsLost self.old → ⊥) }
        ensures kept { OnOk result (IsLost self.new → ⊥) }
        ensures err { OnErr result (IsLost self.new) }
    {
        let Some(kept) = &mut self.kept else {
            return Err(Memory);
        };
        match kept.end_write(number, place) {
            Ok(()) => Ok(()),
            Err(Memory) => {
                self.kept = None;
                Err(Memory)
            }
        }
    }

    /// The read that began at `begin` is answered with the value, or that there is none.
    ///
    /// Where it passes, the calls go on having an order, if they had one and no read is undecided. Where it is refused they have
    /// none, and nothing changes.
    pub fn end_read(
        &mut self,
        begin: u64,
        value: Option<&str>,
        place: u64,
    ) -> Result<Judged, Memory>
        requires began { begin < place }
        requires next { self.old.next ≤ place }
        requires small { place < 2 ^ 63 }
        ensures judged { IfOk result (λ judged. JudgesRead (state_of self.old) (state_of self.new)
            begin (option_copied value.entry) place judged) }
        ensures verdict { IfOk result (λ judged.
            IsVerdict (state_of self.old) begin (option_copied value.entry) judged) }
        ensures held { IfOk result (λ judged.
            ChangesBy self.old begin (option_copied value.entry) place judged self.new) }
        ensures lost { OnOk result (IsLost self.old → ⊥) }
        ensures kept { OnOk result (IsLost self.new → ⊥) }
        ensures err { OnErr result (IsLost self.new) }
    {
        let Some(kept) = &mut self.kept else {
            return Err(Memory);
        };
        match kept.end_read(begin, value, place) {
            Ok(judged) => Ok(judged),
            Err(Memory) => {
                self.kept = None;
                Err(Memory)
            }
        }
    }

    /// The pending read that began at `begin` is left out, as one that ends no more.
    pub fn give_up(&mut self, begin: u64)
        ensures follows { (IsLost self.old → ⊥)
            → FollowsWithout (state_of self.old) (state_of self.new) begin self.old.next }
        ensures held { (IsLost self.old → ⊥) → HasGivenUp self.old begin self.new }
        ensures lost { self.new.is_lost ≡ self.old.is_lost }
    {
        if let Some(kept) = &mut self.kept {
            kept.give_up(begin);
        }
    }

    /// The zone of the family of the write of that number, if the write is kept and a call of the family has ended.
    pub fn zone(&self, number: u32) -> Option<KeptZone>
        ensures { MatchOption result (HasNoZone self.now number) (IsZoneOf self.now number) }
    {
        match &self.kept {
            Some(kept) => kept.zone(number),
            None => None,
        }
    }

    /// The zones of all kept families of which a call has ended.
    pub fn zones(&self, alloc: Global) -> Result<Vec<KeptZone>, Memory>
        ensures { IfOk result (λ zones. HasAllZones self.now zones.items) }
    {
        match &self.kept {
            Some(kept) => kept.zone_list(alloc),
            None => Ok(Vec::new(alloc)),
        }
    }

    /// What the write of that number writes, if it is kept.
    pub fn text(&self, number: u32) -> Option<&str>
        ensures { MatchOption result (write_at self.now number ≡ None)
            (λ text. IsTextOf self.now number text.now) }
    {
        match &self.kept {
            Some(kept) => kept.text(number),
            None => None,
        }
    }

    /// How many families are kept.
    pub fn kept_count(&self) -> usize
        ensures { result ≡ length self.now.writes }
    {
        match &self.kept {
            Some(kept) => kept.count(),
            None => 0,
        }
    }
}
