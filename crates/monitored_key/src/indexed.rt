//! The kept writes that have no slot.
ghost use Rattle.std.specs.Prelude.{◌≡◌, ◌<◌, ◌≤◌, ◌^◌, ℕ, [], Some, None, IsSome, MatchOption, OnOk, length};
ghost use Rattle.std.specs.Option.{option_map};
ghost use Rattle.kept_writers.specs.Ends.{IsLeastEnd, IsLeastEndAfter};
ghost use Rattle.kept_zones.specs.Overwriting.{Known};
ghost use Rattle.key_monitor.specs.KeptWrites.{HasNoneFresh, KeptWrite};
ghost use Rattle.monitored_key.specs.Indexed.{AreMapped, owner_in, values_in, write_in};
ghost use Rattle.monitored_key.specs.Indexes.{AreHighEnds, written_or_none};
ghost use Rattle.monitored_key.specs.Maps.{Lacks, Sets, entry_at};
ghost use Rattle.monitored_key.specs.Readable.{AreReadable, AreStale};

use crate::by_value::{ByValue, add_writer, end_writer, forget_writer};
use crate::stale::Stale;
use crate::write::Write;
use kept_writers::Candidates;
use kept_zones::Zones;
use std::alloc::Global;
use std::collections::BTreeMap;
use tag::Memory;

/// Kept writes: by number, by value, and by the first end of their families.
#[derive(Drop)]
pub(crate) struct Indexed {
    alloc: Global,
    by_number: BTreeMap<u32, Write>,
    by_value: ByValue,
    by_end: BTreeMap<u64, u32>,
}

/// A call of the write's family ended first there.
fn set_end(writes: &mut BTreeMap<u32, Write>, number: u32, place: u64)
    requires { IsSome (entry_at writes.old.entries number) }
    ensures { (kept : KeptWrite) → entry_at writes.old.entries number ≡ Some kept
        → Sets (entry_at writes.old.entries) number
        (record { value = kept.value; begin = kept.begin; end = Some place }) (entry_at writes.new.entries) }
{
    match writes.get_mut(&number) {
        Some(write) => write.set_end(place),
        None => unreachable!(),
    }
}

impl Indexed {
    /// No writes.
    pub(crate) fn new(alloc: Global) -> Indexed
        ensures fit { AreMapped result }
        ensures writes { result.by_number.entries ≡ [] }
    {
        Indexed {
            alloc,
            by_number: BTreeMap::new(alloc),
            by_value: BTreeMap::new(alloc),
            by_end: BTreeMap::new(alloc),
        }
    }

    /// Where the write of that number began, and the first end of its family, if it is kept.
    pub(crate) fn span(&self, number: u32) -> Option<(u64, Option<u64>)>
        ensures { option_map (λ k. (k.begin, k.end)) (write_in self.now number) ≡ result }
    {
        match self.by_number.get(&number) {
            Some(write) => Some((write.begin(), write.end())),
            None => None,
        }
    }

    /// The number of the write whose family ended first there.
    pub(crate) fn owner(&self, end: u64) -> Option<u32>
        ensures { owner_in self.now end ≡ result }
    {
        self.by_end.get(&end).copied()
    }

    /// By the first end of their families, the numbers of the writes.
    pub(crate) fn owners(&self) -> &BTreeMap<u64, u32>
        ensures { result.now ≡ self.now.by_end }
    {
        &self.by_end
    }

    /// How many there are.
    pub(crate) fn count(&self) -> usize
        ensures count { result ≡ length self.now.by_number.entries }
        ensures small { result < 2 ^ 63 }
    {
        self.by_number.len()
    }

    /// What the write of that number writes, if it is kept.
    pub(crate) fn text(&self, number: u32) -> Option<&str>
        ensures { MatchOption result (write_in self.now number ≡ None)
            (λ text. (kept : KeptWrite) × (write_in self.now number ≡ Some kept) × (kept.value ≡ text.now)) }
    {
        match self.by_number.get(&number) {
            Some(write) => Some(write.text()),
            None => None,
        }
    }

    /// Adds a write that began at the place.
    pub(crate) fn add(&mut self, number: u32, text: &str, place: u64) -> Result<(), Memory>
        requires fit { AreMapped self.old }
        requires new { write_in self.old number ≡ None }
        ensures fit { OnOk result (AreMapped self.new) }
        ensures kept { OnOk result (Sets (write_in self.old) number
            (record { value = text.now; begin = place; end = None }) (write_in self.new)) }
        ensures ends { OnOk result ((end : ℕ) → owner_in self.new end ≡ owner_in self.old end) }
    {
        add_writer(&mut self.by_value, self.alloc, text, number, place)?;
        self.by_number
            .insert(number, Write::begun(self.alloc, text, place)?)?;
        Ok(())
    }

    /// A call of the write's family ended first there.
    pub(crate) fn end(&mut self, number: u32, place: u64) -> Result<(), Memory>
        requires fit { AreMapped self.old }
        requires there { (kept : KeptWrite) × (write_in self.old number ≡ Some kept)
            × (kept.end ≡ None) }
        requires free { owner_in self.old place ≡ None }
        ensures fit { OnOk result (AreMapped self.new) }
        ensures kept { (kept : KeptWrite) → write_in self.old number ≡ Some kept → OnOk result
            (Sets (write_in self.old) number
            (record { value = kept.value; begin = kept.begin; end = Some place }) (write_in self.new)) }
        ensures ends { OnOk result (Sets (owner_in self.old) place number (owner_in self.new)) }
    {
        let Some(write) = self.by_number.get(&number) else {
            unreachable!()
        };
        end_writer(&mut self.by_value, write.text(), number, place)?;
        self.by_end.insert(place, number)?;
        set_end(&mut self.by_number, number, place);
        Ok(())
    }

    /// Forgets the write whose family ended first there.
    pub(crate) fn forget(&mut self, end: u64)
        requires fit { AreMapped self.old }
        requires there { IsSome (owner_in self.old end) }
        ensures fit { AreMapped self.new }
        ensures kept { (number : ℕ) (kept : KeptWrite) → owner_in self.old end ≡ Some number
            → write_in self.old number ≡ Some kept → (kept.end ≡ Some end)
            × Lacks (write_in self.old) number (write_in self.new) }
        ensures ends { Lacks (owner_in self.old) end (owner_in self.new) }
        ensures fewer { length self.new.by_number.entries < length self.old.by_number.entries }
    {
        let Some(number) = self.by_end.remove(&end) else {
            unreachable!()
        };
        let Some(write) = self.by_number.remove(&number) else {
            unreachable!()
        };
        forget_writer(&mut self.by_value, write.text(), end);
    }

    /// Which kept writes of the value a read that began at the place may have read.
    pub(crate) fn candidates(&self, text: &str, zones: &Zones, begin: u64) -> Candidates
        requires fit { AreMapped self.now }
        requires high { AreHighEnds (owner_in self.now) zones.now.floor }
        ensures { AreReadable zones.now (write_in self.now) begin text.now result }
    {
        match self.by_value.get(text) {
            Some(writers) => writers.candidates(zones, begin),
            None => Candidates::None,
        }
    }

    /// The first end of the families of the value's writes, with the number of its write.
    fn first_ended(&self, text: &str) -> Option<(u64, u32)>
        ensures { IsLeastEnd (written_or_none (values_in self.now text.now)).ends result }
    {
        match self.by_value.get(text) {
            Some(writers) => writers.first_ended(),
            None => None,
        }
    }

    /// The first end after that one.
    fn next_ended(&self, text: &str, end: u64) -> Option<(u64, u32)>
        ensures { IsLeastEndAfter (written_or_none (values_in self.now text.now)).ends end result }
    {
        match self.by_value.get(text) {
            Some(writers) => writers.next_ended(end),
            None => None,
        }
    }

    /// Of the writes of the value, where a read can't have read any: none, the only one, or two.
    pub(crate) fn stale(&self, text: &str) -> Stale
        requires fit { AreMapped self.now }
        ensures { (known : Known) (begin : ℕ) → HasNoneFresh known (write_in self.now) begin text.now
            → AreStale known (write_in self.now) begin text.now result }
    {
        let Some((end, number)) = self.first_ended(text) else {
            return Stale::None;
        };
        match self.next_ended(text, end) {
            Some((_, other)) => Stale::Several(number, other),
            None => Stale::One(end, number),
        }
    }
}
