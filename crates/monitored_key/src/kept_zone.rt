//! The zones of kept families, for those who tell of them.
ghost use Rattle.std.specs.Prelude.{◌≡◌, None, IfOk, MatchOption, OnOk, length};
ghost use Rattle.monitored_key.specs.WritesOf.{entries_of, kept_of};
ghost use Rattle.monitored_key.specs.Kept.{IsSound, seen};
ghost use Rattle.monitored_key.specs.KeptZones.{HasAllZones, HasNoZone, IsTextOf, IsZoneOf, Lists, ListsSlot};
ghost use Rattle.monitored_key.specs.Listed.{ListsFew};

use crate::kept::Kept;
use std::alloc::Global;
use tag::Memory;

/// The zone of a kept family of which a call has ended, and where its write began.
#[derive(Clone, Copy, Debug, Drop, PartialEq, Eq)]
pub struct KeptZone {
    /// Where its write began.
    pub begin: u64,
    /// Where a call of it ended first.
    pub end: u64,
    /// Where a call of it began last, of those that have ended and its write.
    pub last: u64,
}

impl Kept {
    /// The zone of the family of the write of that number, if it is kept and a call of it has ended.
    pub(crate) fn zone(&self, number: u32) -> Option<KeptZone>
        requires { IsSound self.now }
        ensures { MatchOption result (HasNoZone (seen self.now) number) (IsZoneOf (seen self.now) number) }
    {
        match self.writes.span(number) {
            Some((begin, Some(end))) => match self.zones.last(end) {
                Some(last) => Some(KeptZone { begin, end, last }),
                None => unreachable!(),
            },
            _ => None,
        }
    }

    /// Adds the zone of the family of the write of that number, if there is one.
    fn list_zone(&self, list: &mut Vec<KeptZone>, number: u32) -> Result<(), Memory>
        requires { IsSound self.now }
        ensures { OnOk result (Lists (seen self.now) number list.old.items list.new.items) }
    {
        if let Some(zone) = self.zone(number) {
            list.push(zone)?;
        }
        Ok(())
    }

    /// The same, if there is a number.
    fn list_slot(&self, list: &mut Vec<KeptZone>, number: Option<u32>) -> Result<(), Memory>
        requires { IsSound self.now }
        ensures { OnOk result (ListsSlot (seen self.now) number list.old.items list.new.items) }
    {
        match number {
            Some(number) => self.list_zone(list, number),
            None => Ok(()),
        }
    }

    /// The zones of the families whose writes have slots.
    fn few_zones(&self, alloc: Global) -> Result<Vec<KeptZone>, Memory>
        requires { IsSound self.now }
        ensures { IfOk result (λ list. ListsFew self.now list.items) }
    {
        let mut list = Vec::new(alloc);
        let (first, second) = self.writes.few();
        self.list_slot(&mut list, first)?;
        self.list_slot(&mut list, second)?;
        Ok(list)
    }

    /// The zones of all kept families of which a call has ended.
    pub(crate) fn zone_list(&self, alloc: Global) -> Result<Vec<KeptZone>, Memory>
        requires { IsSound self.now }
        ensures { IfOk result (λ list. HasAllZones (seen self.now) list.items) }
    {
        let mut list = self.few_zones(alloc)?;
        for (_, number) in self.writes.owners() {
            self.list_zone(&mut list, *number)?;
        }
        Ok(list)
    }

    /// What the write of that number writes, if it is kept.
    pub(crate) fn text(&self, number: u32) -> Option<&str>
        ensures { MatchOption result (kept_of self.now.writes number ≡ None)
            (λ text. IsTextOf (seen self.now) number text.now) }
    {
        self.writes.text(number)
    }

    /// How many writes are kept.
    pub(crate) fn count(&self) -> usize
        ensures { result ≡ length (entries_of self.now.writes) }
    {
        self.writes.count()
    }
}
