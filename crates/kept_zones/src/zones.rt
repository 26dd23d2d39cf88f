//! The zones of a key's families.
ghost use Rattle.std.specs.Prelude.{◌≡◌, ◌≢◌, ◌<◌, ◌≤◌, ◌⊎◌, ℕ, [], Some, max, IsSome, IfNone, MatchBool, MatchOption, OnOk, OnErr};
ghost use Rattle.kept_zones.specs.Indexes.{Misses};
ghost use Rattle.kept_zones.specs.Nearest.{IsFirstAfter, IsLastBefore};
ghost use Rattle.kept_zones.specs.Overwriting.{AreBefore, HasZone, IsFreeTo, LacksZone, last_of};
ghost use Rattle.kept_zones.specs.Overwriting.{IsOverwritten, IsSpent, NoneSpent, Overwrites};

use crate::inner::hold;
use crate::places::Places;
use std::alloc::Global;
use std::marker::Model;
use tag::Memory;

/// Of each kept family that has an end: the place of its first end, and that of its last begin.
///
/// No two zones cross. The floor is the greatest last begin of those that went: what ended before it is to go too.
#[derive(Drop)]
pub struct Zones {
    all: Places,
    /// Those that began last after their first end.
    forward: Places,
    /// Of those that began last before their first end, the ones that hold no other: when they began.
    inner: Places,
    floor: u64,
}

impl Model for Zones {
    ghost use Rattle.kept_zones.specs.Overwriting.{Known, last_of};
    ghost use Rattle.kept_zones.specs.Indexes.{AreIndexed};

    ghost Value = { Known };

    ghost view = { λ z. record { zones = z.all.entries; floor = z.floor } };

    ghost invariant = { λ z. AreIndexed (last_of z.all.entries) (last_of z.forward.entries)
        (last_of z.inner.entries) z.floor };
}

/// Writes the last begin of a zone that is there, which takes no memory.
fn put(all: &mut Places, end: u64, last: u64)
    requires { IsSome (last_of all.old.entries end) }
    ensures { HasZone all.old.entries end last all.new.entries }
{
    match all.insert(end, last) {
        Ok(_) => (),
        Err(_) => unreachable!(),
    }
}

/// The forward zone before the end that reaches beyond it, if it ended before the place.
fn reaching(forward: &Places, end: u64, place: u64) -> Option<u64>
    ensures { MatchOption result
        ((o : _) × IsLastBefore forward.now.entries end o
        × Misses o (λ e. (end < e.1) × (e.0 < place)))
        (λ w. (last : ℕ) × IsLastBefore forward.now.entries end (Some (w, last))
        × (end < last) × (w < place)) }
{
    let found = forward.last_before(end);
    if let Some((first, last)) = found {
        if end < last && first < place {
            return Some(first);
        }
    }
    None
}

/// The next forward zone after the end, if it ended before the place.
fn following(forward: &Places, end: u64, place: u64) -> Option<u64>
    ensures { MatchOption result
        ((o : _) × IsFirstAfter forward.now.entries end o × Misses o (λ e. e.0 < place))
        (λ w. (last : ℕ) × IsFirstAfter forward.now.entries end (Some (w, last)) × (w < place)) }
{
    let found = forward.first_after(end);
    if let Some((first, _)) = found {
        if first < place {
            return Some(first);
        }
    }
    None
}

/// The last inner zone that ended before the place, if it began after the end.
fn begun_after(inner: &Places, end: u64, place: u64) -> Option<u64>
    ensures { MatchOption result
        ((o : _) × IsLastBefore inner.now.entries place o × Misses o (λ e. end < e.1))
        (λ w. (begin : ℕ) × IsLastBefore inner.now.entries place (Some (w, begin))
        × (end < begin)) }
{
    let found = inner.last_before(place);
    if let Some((first, begin)) = found {
        if end < begin {
            return Some(first);
        }
    }
    None
}

impl Zones {
    /// No zones.
    pub fn new(alloc: Global) -> Zones
        ensures { result ≡ record { zones = []; floor = 0 } }
    {
        Zones {
            all: Places::new(alloc),
            forward: Places::new(alloc),
            inner: Places::new(alloc),
            floor: 0,
        }
    }

    /// The last begin of the zone with that first end.
    pub fn last(&self, end: u64) -> Option<u64>
        ensures { result ≡ last_of self.now.zones end }
    {
        self.all.get(end)
    }

    /// Adds the zone of a family that ended first just now. `Memory` leaves all as it was.
    pub fn add(&mut self, end: u64, last: u64) -> Result<(), Memory>
        requires before { AreBefore self.old.zones end }
        requires begun { last ≤ end }
        ensures zones { OnOk result (HasZone self.old.zones end last self.new.zones) }
        ensures floor { OnOk result (self.new.floor ≡ self.old.floor) }
        ensures err { OnErr result (self.new ≡ self.old) }
    {
        hold(&mut self.inner, end, last)?;
        match self.all.insert(end, last) {
            Ok(_) => Ok(()),
            Err(_) => {
                self.inner.remove(end);
                Err(Memory)
            }
        }
    }

    /// The last begin of the zone, which is after its first end.
    fn raise_ahead(&mut self, end: u64, last: u64) -> Result<(), Memory>
        requires later { (known : ℕ) × (last_of self.old.zones end ≡ Some known) × (known < last) }
        requires free { IsFreeTo self.old.zones end last }
        requires ahead { end < last }
        ensures zones { OnOk result (HasZone self.old.zones end last self.new.zones) }
        ensures floor { OnOk result (self.new.floor ≡ self.old.floor) }
        ensures err { OnErr result (self.new ≡ self.old) }
    {
        self.forward.insert(end, last)?;
        put(&mut self.all, end, last);
        Ok(())
    }

    /// The last begin of the zone, which isn't after its first end.
    fn raise_behind(&mut self, end: u64, last: u64) -> Result<(), Memory>
        requires later { (known : ℕ) × (last_of self.old.zones end ≡ Some known) × (known < last) }
        requires free { IsFreeTo self.old.zones end last }
        requires behind { last ≤ end }
        ensures zones { OnOk result (HasZone self.old.zones end last self.new.zones) }
        ensures floor { OnOk result (self.new.floor ≡ self.old.floor) }
        ensures err { OnErr result (self.new ≡ self.old) }
    {
        hold(&mut self.inner, end, last)?;
        put(&mut self.all, end, last);
        Ok(())
    }

    /// A call of the zone's family began later than was known. `Memory` leaves all as it was.
    pub fn raise(&mut self, end: u64, last: u64) -> Result<(), Memory>
        requires later { (known : ℕ) × (last_of self.old.zones end ≡ Some known) × (known < last) }
        requires free { IsFreeTo self.old.zones end last }
        ensures zones { OnOk result (HasZone self.old.zones end last self.new.zones) }
        ensures floor { OnOk result (self.new.floor ≡ self.old.floor) }
        ensures err { OnErr result (self.new ≡ self.old) }
    {
        if end < last {
            self.raise_ahead(end, last)
        } else {
            self.raise_behind(end, last)
        }
    }

    /// Forgets a zone; the floor is at least its last begin.
    pub fn remove(&mut self, end: u64)
        requires { IsSome (last_of self.old.zones end) }
        ensures zones { LacksZone self.old.zones end self.new.zones }
        ensures floor { (last : ℕ) → last_of self.old.zones end ≡ Some last
            → self.new.floor ≡ max self.old.floor last }
    {
        let Some(last) = self.all.get(end) else {
            unreachable!()
        };
        self.all.remove(end);
        self.forward.remove(end);
        self.inner.remove(end);
        self.floor = self.floor.max(last);
    }

    /// A zone that overwrites the one of that first end before the place, if one does.
    pub fn overwriter(&self, end: u64, place: u64) -> Option<u64>
        requires { self.now.floor ≤ end }
        ensures { MatchOption result (IsOverwritten self.now.zones place end → ⊥)
            (λ w. Overwrites self.now.zones place w end) }
    {
        if self.all.has_no_other(end) {
            return None;
        }
        if let Some(first) = reaching(&self.forward, end, place) {
            return Some(first);
        }
        if let Some(first) = following(&self.forward, end, place) {
            return Some(first);
        }
        begun_after(&self.inner, end, place)
    }

    /// Whether the zone is to be forgotten: one that went overwrote it, or another does before the place.
    fn is_spent(&self, end: u64, place: u64) -> bool
        ensures { MatchBool result (IsSpent self.now place end) (IsSpent self.now place end → ⊥) }
    {
        end < self.floor || self.overwriter(end, place).is_some()
    }

    /// A zone that is to be forgotten, if one is: the first or the second.
    pub fn spent(&self, place: u64) -> Option<u64>
        ensures { MatchOption result (NoneSpent self.now place)
            (λ u. IsSome (last_of self.now.zones u) × IsSpent self.now place u) }
    {
        let (first, _) = self.all.first_of_all()?;
        if self.is_spent(first, place) {
            return Some(first);
        }
        if self.all.has_no_other(first) {
            return None;
        }
        let (second, _) = self.all.first_after(first)?;
        if self.is_spent(second, place) {
            Some(second)
        } else {
            None
        }
    }
}
