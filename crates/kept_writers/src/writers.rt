//! The kept writes of one value.
ghost use Rattle.std.specs.Prelude.{◌≡◌, ◌≤◌, ℕ, [], Some, None, IsSome, MatchBool, OnOk, OnErr};
ghost use Rattle.kept_writers.specs.Candidates.{AreCandidates, begin_at};
ghost use Rattle.kept_writers.specs.Ends.{IsLeastEnd, IsLeastEndAfter, number_at};
ghost use Rattle.kept_writers.specs.Written.{AreNone, AreSome, HasBegin, HasEnd, IsNew, LacksEnd};

use crate::ends::{Ends, first_end, first_end_after};
use crate::readable::{Begins, Candidates, least, readable_writes};
use kept_zones::Zones;
use std::alloc::Global;
use std::collections::BTreeMap;
use std::marker::Model;
use tag::Memory;

/// The kept writes of one value: by number those of whose families no call has ended, each with the place where it
/// began; the others by first end.
#[derive(Drop)]
pub struct Writers {
    begins: Begins,
    ends: Ends,
}

impl Model for Writers {
    ghost use Rattle.kept_writers.specs.Written.{Written};
    ghost use Rattle.kept_writers.specs.Candidates.{StandOnce};

    ghost Value = { Written };

    ghost view = { λ w. record { begins = w.begins.entries; ends = w.ends.entries } };

    ghost invariant = { λ w. StandOnce w.begins.entries w.ends.entries };
}

impl Writers {
    /// No writes.
    pub fn new(alloc: Global) -> Writers
        ensures { result ≡ record { begins = []; ends = [] } }
    {
        Writers {
            begins: BTreeMap::new(alloc),
            ends: BTreeMap::new(alloc),
        }
    }

    /// Adds a write that began at the place. `Memory` leaves all as it was.
    pub fn add(&mut self, number: u32, place: u64) -> Result<(), Memory>
        requires { IsNew self.old number }
        ensures ok { OnOk result (HasBegin self.old number place self.new) }
        ensures err { OnErr result (self.new ≡ self.old) }
    {
        self.begins.insert(number, place)?;
        Ok(())
    }

    /// A call of the write's family ended first at that place. `Memory` leaves all as it was.
    pub fn end(&mut self, number: u32, end: u64) -> Result<(), Memory>
        requires there { IsSome (begin_at self.old.begins number) }
        requires free { number_at self.old.ends end ≡ None }
        ensures ok { OnOk result (HasEnd self.old number end self.new) }
        ensures err { OnErr result (self.new ≡ self.old) }
    {
        self.ends.insert(end, number)?;
        self.begins.remove(&number);
        Ok(())
    }

    /// Forgets the write of that end.
    pub fn forget(&mut self, end: u64)
        requires { IsSome (number_at self.old.ends end) }
        ensures { LacksEnd self.old end self.new }
    {
        self.ends.remove(&end);
    }

    /// Whether there is none.
    pub fn is_empty(&self) -> bool
        ensures { MatchBool result (AreNone self.now) (AreSome self.now) }
    {
        least(&self.begins).is_none() && first_end(&self.ends).is_none()
    }

    /// The first end, with the number of its write.
    pub fn first_ended(&self) -> Option<(u64, u32)>
        ensures { IsLeastEnd self.now.ends result }
    {
        first_end(&self.ends)
    }

    /// The first end after that one, with the number of its write.
    pub fn next_ended(&self, end: u64) -> Option<(u64, u32)>
        ensures { IsLeastEndAfter self.now.ends end result }
    {
        first_end_after(&self.ends, end)
    }

    /// Which of the writes a read that began at the place may have read.
    pub fn candidates(&self, zones: &Zones, place: u64) -> Candidates
        requires { (e n : ℕ) → number_at self.now.ends e ≡ Some n → zones.now.floor ≤ e }
        ensures { AreCandidates self.now.begins self.now.ends zones.now.zones place result }
    {
        readable_writes(&self.begins, &self.ends, zones, place)
    }
}
