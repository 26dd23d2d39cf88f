//! The kept writes of a key.
ghost use Rattle.std.specs.Prelude.{◌≡◌, ◌<◌, ◌≤◌, ℕ, [], Some, None, IsSome, MatchOption, OnOk, length};
ghost use Rattle.std.specs.Option.{option_map};
ghost use Rattle.kept_zones.specs.Overwriting.{IsOverwritten, Known, Overwrites, last_of};
ghost use Rattle.key_monitor.specs.KeptWrites.{HasNoneFresh, KeptWrite};
ghost use Rattle.monitored_key.specs.Indexes.{AreHighEnds, HaveOwners};
ghost use Rattle.monitored_key.specs.Maps.{Lacks, Sets};
ghost use Rattle.monitored_key.specs.Readable.{AreReadable, AreStale, IsWhyNone};
ghost use Rattle.monitored_key.specs.WritesOf.{AreFit, entries_of, kept_of, owner_of};

use crate::indexed::Indexed;
use crate::judged::Refusal;
use crate::slots::{
    Slot, candidates_beside, end_at, forget_at, number_of, owner_at, stale_beside, write_at,
};
use crate::stale::Stale;
use crate::write::Write;
use kept_writers::Candidates;
use kept_zones::Zones;
use std::alloc::Global;
use std::collections::BTreeMap;
use tag::Memory;

/// The kept writes: two in slots, so that few take no maps, and the others in maps.
#[derive(Drop)]
pub(crate) struct Writes {
    alloc: Global,
    first: Slot,
    second: Slot,
    more: Indexed,
}

impl Writes {
    /// No writes.
    pub(crate) fn new(alloc: Global) -> Writes
        ensures fit { AreFit result }
        ensures writes { entries_of result ≡ [] }
    {
        Writes {
            alloc,
            first: None,
            second: None,
            more: Indexed::new(alloc),
        }
    }

    /// Where the write of that number began, and the first end of its family, if it is kept.
    pub(crate) fn span(&self, number: u32) -> Option<(u64, Option<u64>)>
        ensures { option_map (λ k. (k.begin, k.end)) (kept_of self.now number) ≡ result }
    {
        if let Some(write) = write_at(&self.first, number) {
            return Some((write.begin(), write.end()));
        }
        if let Some(write) = write_at(&self.second, number) {
            return Some((write.begin(), write.end()));
        }
        self.more.span(number)
    }

    /// Where the write of that number began, if it is kept and no call of its family has ended.
    pub(crate) fn unended(&self, number: u32) -> Option<u64>
        ensures { MatchOption result
            ((kept : KeptWrite) → kept_of self.now number ≡ Some kept → IsSome kept.end)
            (λ begin. (kept : KeptWrite) × (kept_of self.now number ≡ Some kept)
            × (kept.end ≡ None) × (kept.begin ≡ begin)) }
    {
        match self.span(number) {
            Some((begin, None)) => Some(begin),
            _ => None,
        }
    }

    /// The numbers of the writes in slots.
    pub(crate) fn few(&self) -> (Option<u32>, Option<u32>)
        ensures first { result.0 ≡ option_map (λ w. w.0) self.now.first }
        ensures second { result.1 ≡ option_map (λ w. w.0) self.now.second }
    {
        (number_of(&self.first), number_of(&self.second))
    }

    /// By the first end of their families, the numbers of the other writes.
    pub(crate) fn owners(&self) -> &BTreeMap<u64, u32>
        ensures { result.now ≡ self.now.more.by_end }
    {
        self.more.owners()
    }

    /// How many there are.
    pub(crate) fn count(&self) -> usize
        ensures { result ≡ length (entries_of self.now) }
    {
        let more = self.more.count();
        let rest = more + if self.second.is_some() { 1 } else { 0 };
        rest + if self.first.is_some() { 1 } else { 0 }
    }

    /// What the write of that number writes, if it is kept.
    pub(crate) fn text(&self, number: u32) -> Option<&str>
        ensures { MatchOption result (kept_of self.now number ≡ None)
            (λ text. (kept : KeptWrite) × (kept_of self.now number ≡ Some kept) × (kept.value ≡ text.now)) }
    {
        if let Some(write) = write_at(&self.first, number) {
            return Some(write.text());
        }
        if let Some(write) = write_at(&self.second, number) {
            return Some(write.text());
        }
        self.more.text(number)
    }

    /// Adds a write that began at the place.
    pub(crate) fn add(&mut self, number: u32, text: &str, place: u64) -> Result<(), Memory>
        requires fit { AreFit self.old }
        requires new { kept_of self.old number ≡ None }
        ensures fit { OnOk result (AreFit self.new) }
        ensures kept { OnOk result (Sets (kept_of self.old) number
            (record { value = text.now; begin = place; end = None }) (kept_of self.new)) }
        ensures ends { OnOk result ((end : ℕ) → owner_of self.new end ≡ owner_of self.old end) }
    {
        if self.first.is_none() {
            self.first = Some((number, Write::begun(self.alloc, text, place)?));
            return Ok(());
        }
        if self.second.is_none() {
            self.second = Some((number, Write::begun(self.alloc, text, place)?));
            return Ok(());
        }
        self.more.add(number, text, place)
    }

    /// A call of the write's family ended first at that place.
    pub(crate) fn end(&mut self, number: u32, place: u64) -> Result<(), Memory>
        requires fit { AreFit self.old }
        requires there { (kept : KeptWrite) × (kept_of self.old number ≡ Some kept)
            × (kept.end ≡ None) }
        requires free { owner_of self.old place ≡ None }
        ensures fit { OnOk result (AreFit self.new) }
        ensures kept { (kept : KeptWrite) → kept_of self.old number ≡ Some kept → OnOk result
            (Sets (kept_of self.old) number
            (record { value = kept.value; begin = kept.begin; end = Some place }) (kept_of self.new)) }
        ensures ends { OnOk result (Sets (owner_of self.old) place number (owner_of self.new)) }
    {
        if end_at(&mut self.first, number, place) {
            return Ok(());
        }
        if end_at(&mut self.second, number, place) {
            return Ok(());
        }
        self.more.end(number, place)
    }

    /// Forgets the write whose family ended first there.
    pub(crate) fn forget(&mut self, end: u64)
        requires fit { AreFit self.old }
        requires there { IsSome (owner_of self.old end) }
        ensures fit { AreFit self.new }
        ensures kept { (number : ℕ) (kept : KeptWrite) → owner_of self.old end ≡ Some number
            → kept_of self.old number ≡ Some kept → (kept.end ≡ Some end)
            × Lacks (kept_of self.old) number (kept_of self.new) }
        ensures ends { Lacks (owner_of self.old) end (owner_of self.new) }
        ensures fewer { length (entries_of self.new) < length (entries_of self.old) }
    {
        if forget_at(&mut self.first, end) {
            return;
        }
        if forget_at(&mut self.second, end) {
            return;
        }
        self.more.forget(end);
    }

    /// Which kept writes of the value a read that began at the place may have read.
    pub(crate) fn candidates(&self, text: &str, zones: &Zones, begin: u64) -> Candidates
        requires fit { AreFit self.now }
        requires high { AreHighEnds (owner_of self.now) zones.now.floor }
        ensures { AreReadable zones.now (kept_of self.now) begin text.now result }
    {
        let more = self.more.candidates(text, zones, begin);
        let rest = candidates_beside(&self.second, text, zones, begin, more);
        candidates_beside(&self.first, text, zones, begin, rest)
    }

    /// The number of the write whose family ended first there.
    fn owner(&self, end: u64) -> Option<u32>
        ensures { owner_of self.now end ≡ result }
    {
        if let Some(number) = owner_at(&self.first, end) {
            return Some(number);
        }
        if let Some(number) = owner_at(&self.second, end) {
            return Some(number);
        }
        self.more.owner(end)
    }

    /// Whose family overwrote that of the write with that end.
    fn overwriter(&self, zones: &Zones, end: u64, begin: u64) -> u32
        requires high { zones.now.floor ≤ end }
        requires there { IsOverwritten zones.now.zones begin end }
        requires owned { HaveOwners (last_of zones.now.zones) (owner_of self.now) }
        ensures { (over : ℕ) × Overwrites zones.now.zones begin over end
            × (owner_of self.now over ≡ Some result) }
    {
        match zones.overwriter(end, begin) {
            Some(over) => match self.owner(over) {
                Some(number) => number,
                None => unreachable!(),
            },
            None => unreachable!(),
        }
    }

    /// The writes of the value, none of which a read can have read: none, the only one, or two.
    fn stale(&self, text: &str) -> Stale
        requires fit { AreFit self.now }
        ensures { (known : Known) (begin : ℕ) → HasNoneFresh known (kept_of self.now) begin text.now
            → AreStale known (kept_of self.now) begin text.now result }
    {
        let more = self.more.stale(text);
        let rest = stale_beside(&self.second, text, more);
        stale_beside(&self.first, text, rest)
    }

    /// Why a read that began at the place can't have read any kept write of the value.
    pub(crate) fn refusal(&self, text: &str, zones: &Zones, begin: u64) -> Refusal
        requires fit { AreFit self.now }
        requires high { AreHighEnds (owner_of self.now) zones.now.floor }
        requires owned { HaveOwners (last_of zones.now.zones) (owner_of self.now) }
        requires none { HasNoneFresh zones.now (kept_of self.now) begin text.now }
        ensures { IsWhyNone zones.now (kept_of self.now) begin text.now result }
    {
        match self.stale(text) {
            Stale::None => Refusal::NoWrite,
            Stale::One(end, number) => {
                Refusal::Overwritten(number, self.overwriter(zones, end, begin))
            }
            Stale::Several(one, two) => Refusal::AllOverwritten(one, two),
        }
    }
}
