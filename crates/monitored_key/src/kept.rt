//! What is kept of a key.
ghost use Rattle.std.specs.Prelude.{◌≡◌, ◌<◌, ◌≤◌, ◌+◌, ◌^◌, ℕ, List, Some, None, IfOk, MatchOption, OnOk, max};
ghost use Rattle.std.specs.Option.{option_copied};
ghost use Rattle.kept_zones.specs.Overwriting.{HasZone, IsOverwritten, last_of};
ghost use Rattle.key_monitor.specs.KeptWrites.{IsOneFresh, KeptWrite};
ghost use Rattle.key_monitor.specs.Pending.{IsLeastPlace};
ghost use Rattle.key_monitor.specs.Shown.{IsInTime};
ghost use Rattle.monitored_key.specs.Changes.{ChangesBy, HasGivenUp, HasReadBegun, HasReadEnded, HasWriteBegun};
ghost use Rattle.monitored_key.specs.Changes.{HasWriteEnded, nothing_held};
ghost use Rattle.monitored_key.specs.Followed.{FollowsReadBegun, FollowsWithout, FollowsWriteBegun, FollowsWriteEnded, JudgesRead};
ghost use Rattle.monitored_key.specs.WritesOf.{AreFit, kept_of};
ghost use Rattle.monitored_key.specs.Kept.{IsSound, StandBefore, key_of, seen};
ghost use Rattle.monitored_key.specs.Maps.{entry_at};
ghost use Rattle.monitored_key.specs.Passes.{AreFewer, EndsRow, ForgetsAll, HasRead, StaysBut};
ghost use Rattle.monitored_key.specs.Verdicts.{IsVerdict};

use crate::judged::{Judged, Refusal};
use crate::writes::Writes;
use kept_writers::Candidates;
use kept_zones::{Places, Zones};
use key_monitor::forget_one;
use std::alloc::Global;
use tag::Memory;

/// The zones, the kept writes and the open reads of a key.
#[derive(Drop)]
pub(crate) struct Kept {
    pub(crate) zones: Zones,
    pub(crate) writes: Writes,
    /// By the place where it began, the number of each open read.
    opens: Places,
    /// Where a value was first shown.
    first: Option<u64>,
    /// The least place that the next row may have.
    next: u64,
    /// The least number that the next write may have.
    number: u64,
}

/// A call of the zone's family began at `begin`, which may be later than was known.
fn raise(zones: &mut Zones, end: u64, last: u64, begin: u64) -> Result<(), Memory>
    requires there { last_of zones.old.zones end ≡ Some last }
    requires free { IsOverwritten zones.old.zones begin end → ⊥ }
    ensures zones { OnOk result (HasZone zones.old.zones end (max last begin) zones.new.zones) }
    ensures floor { OnOk result (zones.new.floor ≡ zones.old.floor) }
{
    if last < begin {
        zones.raise(end, begin)
    } else {
        Ok(())
    }
}

/// Where a value was shown before the read began, if one was.
fn shown_before(first: Option<u64>, begin: u64) -> Option<u64>
    ensures { MatchOption result (IsInTime first begin)
        (λ place. (first ≡ Some place) × (place < begin)) }
{
    let place = first?;
    if place < begin { Some(place) } else { None }
}

impl Kept {
    /// Nothing is known.
    pub(crate) fn new(alloc: Global) -> Kept
        ensures sound { IsSound result }
        ensures nothing { seen result ≡ nothing_held }
    {
        Kept {
            zones: Zones::new(alloc),
            writes: Writes::new(alloc),
            opens: Places::new(alloc),
            first: None,
            next: 0,
            number: 0,
        }
    }

    /// The place at which the first open read began; without one, that of the next row.
    fn first_open(&self) -> u64
        requires { (begin n : ℕ) → entry_at self.now.opens.entries begin ≡ Some n
            → begin < self.now.next }
        ensures { (row : ℕ) → row + 1 ≡ self.now.next
            → IsLeastPlace (entry_at self.now.opens.entries) row result }
    {
        match self.opens.first_of_all() {
            Some((begin, _)) => begin,
            None => self.next,
        }
    }

    /// Forgets, a family after the other, what no later call can touch.
    fn forget(&mut self)
        requires fit { AreFit self.old.writes }
        requires together { StandBefore self.old self.old.next }
        ensures sound { IsSound self.new }
        ensures stays { StaysBut self.old self.new }
        ensures fewer { AreFewer (kept_of self.old.writes) (kept_of self.new.writes) }
        ensures follows { ForgetsAll (key_of self.old) (key_of self.new) self.old.next }
    {
        let place = self.first_open();
        'each: while let Some(end) = forget_one(&mut self.zones, place) {
            self.writes.forget(end);
        }
    }

    /// Ends a row that shows a value.
    fn end_row(&mut self, place: u64)
        requires small { place < 2 ^ 63 }
        requires fit { AreFit self.old.writes }
        requires together { StandBefore self.old (place + 1) }
        ensures sound { IsSound self.new }
        ensures row { EndsRow self.old place self.new }
    {
        self.first = Some(self.first.unwrap_or(place));
        self.next = place + 1;
        self.forget();
    }

    /// A read begins.
    pub(crate) fn begin_read(&mut self, number: u32, place: u64) -> Result<(), Memory>
        requires sound { IsSound self.old }
        requires next { self.old.next ≤ place }
        requires small { place < 2 ^ 63 }
        ensures sound { OnOk result (IsSound self.new) }
        ensures held { OnOk result (HasReadBegun (seen self.old) number place (seen self.new)) }
        ensures follows { OnOk result (FollowsReadBegun (key_of self.old) (key_of self.new) place) }
    {
        self.opens.insert(place, u64::from(number))?;
        self.next = place + 1;
        Ok(())
    }

    /// A write begins.
    pub(crate) fn begin_write(&mut self, number: u32, text: &str, place: u64) -> Result<(), Memory>
        requires sound { IsSound self.old }
        requires rises { self.old.number ≤ number }
        requires next { self.old.next ≤ place }
        requires small { place < 2 ^ 63 }
        ensures sound { OnOk result (IsSound self.new) }
        ensures held { OnOk result
            (HasWriteBegun (seen self.old) number text.now place (seen self.new)) }
        ensures follows { OnOk result
            (FollowsWriteBegun (key_of self.old) (key_of self.new) number text.now place) }
    {
        self.writes.add(number, text, place)?;
        self.next = place + 1;
        self.number = u64::from(number) + 1;
        Ok(())
    }

    /// The first end of a write's family is the write's own.
    fn end_first(&mut self, number: u32, begin: u64, place: u64) -> Result<(), Memory>
        requires sound { IsSound self.old }
        requires there { (kept : KeptWrite) × (kept_of self.old.writes number ≡ Some kept)
            × (kept.end ≡ None) × (kept.begin ≡ begin) }
        requires next { self.old.next ≤ place }
        requires small { place < 2 ^ 63 }
        ensures sound { OnOk result (IsSound self.new) }
        ensures held { OnOk result (HasWriteEnded (seen self.old) place (seen self.new)) }
        ensures follows { OnOk result
            (FollowsWriteEnded (key_of self.old) (key_of self.new) number place) }
    {
        self.zones.add(place, begin)?;
        self.writes.end(number, place)?;
        self.end_row(place);
        Ok(())
    }

    /// A write is answered.
    pub(crate) fn end_write(&mut self, number: u32, place: u64) -> Result<(), Memory>
        requires sound { IsSound self.old }
        requires next { self.old.next ≤ place }
        requires small { place < 2 ^ 63 }
        ensures sound { OnOk result (IsSound self.new) }
        ensures held { OnOk result (HasWriteEnded (seen self.old) place (seen self.new)) }
        ensures follows { OnOk result
            (FollowsWriteEnded (key_of self.old) (key_of self.new) number place) }
    {
        match self.writes.unended(number) {
            Some(begin) => self.end_first(number, begin, place),
            None => {
                self.end_row(place);
                Ok(())
            }
        }
    }

    /// The first end of a write's family is the answer of a read that has read it.
    fn read_first(
        &mut self,
        number: u32,
        write_begin: u64,
        begin: u64,
        place: u64,
    ) -> Result<(), Memory>
        requires sound { IsSound self.old }
        requires one { (kept : KeptWrite)
            × IsOneFresh self.old.zones (kept_of self.old.writes) begin number kept
            × (kept.end ≡ None) × (kept.begin ≡ write_begin) }
        requires began { begin < place }
        requires next { self.old.next ≤ place }
        requires small { place < 2 ^ 63 }
        ensures sound { OnOk result (IsSound self.new) }
        ensures read { (kept : KeptWrite) → kept_of self.old.writes number ≡ Some kept
            → OnOk result (HasRead self.old begin kept.value place self.new) }
    {
        let last = write_begin.max(begin);
        self.zones.add(place, last)?;
        self.writes.end(number, place)?;
        self.opens.remove(begin);
        self.end_row(place);
        Ok(())
    }

    /// A read that has read a write, of whose family a call had ended, is answered.
    fn read_later(&mut self, number: u32, end: u64, begin: u64, place: u64) -> Result<(), Memory>
        requires sound { IsSound self.old }
        requires one { (kept : KeptWrite)
            × IsOneFresh self.old.zones (kept_of self.old.writes) begin number kept
            × (kept.end ≡ Some end) }
        requires began { begin < place }
        requires next { self.old.next ≤ place }
        requires small { place < 2 ^ 63 }
        ensures sound { OnOk result (IsSound self.new) }
        ensures read { (kept : KeptWrite) → kept_of self.old.writes number ≡ Some kept
            → OnOk result (HasRead self.old begin kept.value place self.new) }
    {
        let Some(last) = self.zones.last(end) else {
            unreachable!()
        };
        raise(&mut self.zones, end, last, begin)?;
        self.opens.remove(begin);
        self.end_row(place);
        Ok(())
    }

    /// A read that has read the write is answered.
    fn read(&mut self, number: u32, begin: u64, place: u64) -> Result<(), Memory>
        requires sound { IsSound self.old }
        requires one { (kept : KeptWrite)
            × IsOneFresh self.old.zones (kept_of self.old.writes) begin number kept }
        requires began { begin < place }
        requires next { self.old.next ≤ place }
        requires small { place < 2 ^ 63 }
        ensures sound { OnOk result (IsSound self.new) }
        ensures read { (kept : KeptWrite) → kept_of self.old.writes number ≡ Some kept
            → OnOk result (HasRead self.old begin kept.value place self.new) }
    {
        match self.writes.span(number) {
            Some((write_begin, None)) => self.read_first(number, write_begin, begin, place),
            Some((_, Some(end))) => self.read_later(number, end, begin, place),
            None => unreachable!(),
        }
    }

    /// A read that may have read several writes is answered.
    fn leave_undecided(&mut self, begin: u64, place: u64)
        requires sound { IsSound self.old }
        requires next { self.old.next ≤ place }
        requires small { place < 2 ^ 63 }
        ensures sound { IsSound self.new }
        ensures held { (value : List ℕ)
            → HasReadEnded (seen self.old) begin (Some value) place (seen self.new) }
        ensures follows { (value : List ℕ) (one two : ℕ) → JudgesRead (key_of self.old)
            (key_of self.new) begin (Some value) place (Judged.Undecided one two) }
    {
        self.opens.remove(begin);
        self.end_row(place);
    }

    /// A read is answered with a value.
    fn end_value(&mut self, begin: u64, text: &str, place: u64) -> Result<Judged, Memory>
        requires sound { IsSound self.old }
        requires began { begin < place }
        requires next { self.old.next ≤ place }
        requires small { place < 2 ^ 63 }
        ensures sound { OnOk result (IsSound self.new) }
        ensures verdict { IfOk result (λ judged.
            IsVerdict (key_of self.old) begin (Some text.now) judged) }
        ensures held { IfOk result (λ judged.
            ChangesBy (seen self.old) begin (Some text.now) place judged (seen self.new)) }
        ensures follows { IfOk result (λ judged.
            JudgesRead (key_of self.old) (key_of self.new) begin (Some text.now) place judged) }
    {
        match self.writes.candidates(text, &self.zones, begin) {
            Candidates::One(number) => {
                self.read(number, begin, place)?;
                Ok(Judged::Passes)
            }
            Candidates::Several(one, two) => {
                self.leave_undecided(begin, place);
                Ok(Judged::Undecided(one, two))
            }
            Candidates::None => {
                let refusal = self.writes.refusal(text, &self.zones, begin);
                Ok(Judged::Refused(refusal))
            }
        }
    }

    /// A read is answered that there is no value.
    fn end_nothing(&mut self, begin: u64, place: u64) -> Judged
        requires sound { IsSound self.old }
        requires next { self.old.next ≤ place }
        requires small { place < 2 ^ 63 }
        ensures sound { IsSound self.new }
        ensures verdict { IsVerdict (key_of self.old) begin None result }
        ensures held { ChangesBy (seen self.old) begin None place result (seen self.new) }
        ensures follows { JudgesRead (key_of self.old) (key_of self.new) begin None place result }
    {
        match shown_before(self.first, begin) {
            Some(first) => Judged::Refused(Refusal::LateNothing(first)),
            None => {
                self.opens.remove(begin);
                self.next = place + 1;
                self.forget();
                Judged::Passes
            }
        }
    }

    /// A read is answered.
    pub(crate) fn end_read(
        &mut self,
        begin: u64,
        value: Option<&str>,
        place: u64,
    ) -> Result<Judged, Memory>
        requires sound { IsSound self.old }
        requires began { begin < place }
        requires next { self.old.next ≤ place }
        requires small { place < 2 ^ 63 }
        ensures sound { OnOk result (IsSound self.new) }
        ensures verdict { IfOk result (λ judged.
            IsVerdict (key_of self.old) begin (option_copied value.entry) judged) }
        ensures held { IfOk result (λ judged.
            ChangesBy (seen self.old) begin (option_copied value.entry) place judged (seen self.new)) }
        ensures follows { IfOk result (λ judged. JudgesRead (key_of self.old) (key_of self.new)
            begin (option_copied value.entry) place judged) }
    {
        match value {
            Some(text) => self.end_value(begin, text, place),
            None => Ok(self.end_nothing(begin, place)),
        }
    }

    /// A pending read ends no more.
    pub(crate) fn give_up(&mut self, begin: u64)
        requires sound { IsSound self.old }
        ensures sound { IsSound self.new }
        ensures held { HasGivenUp (seen self.old) begin (seen self.new) }
        ensures follows { FollowsWithout (key_of self.old) (key_of self.new) begin self.old.next }
    {
        self.opens.remove(begin);
        self.forget();
    }
}
