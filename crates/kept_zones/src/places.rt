//! A map from places to places.
ghost use Rattle.std.specs.Prelude.{◌≡◌, [], None, IsTrue, OnOk, OnErr};
ghost use Rattle.kept_zones.specs.Nearest.{IsFirstAfter, IsFirstOfAll, IsLastBefore, IsLastUpTo};
ghost use Rattle.kept_zones.specs.Overwriting.{HasZone, last_of};
ghost use Rattle.kept_zones.specs.Places.{HasNoOther, LacksKey};

use crate::nearest::{Entry, Tree};
use crate::slot::{is_at, value_at, without};
use crate::{nearest, slot};
use std::alloc::Global;
use std::collections::BTreeMap;
use std::marker::Model;
use tag::Memory;

/// A map from places to places, with room for two entries in itself: while it has no more it takes no block.
///
/// Where a key stands in two of its parts, the first counts.
#[derive(Drop)]
pub struct Places {
    first: Option<Entry>,
    second: Option<Entry>,
    more: Tree,
}

impl Model for Places {
    ghost use Rattle.kept_zones.specs.Places.{PlaceMap, put_before};

    ghost Value = { PlaceMap };

    ghost view = { λ p. record { entries = put_before p.first (put_before p.second p.more.entries) } };
}

impl Places {
    /// No entries.
    pub fn new(alloc: Global) -> Places
        ensures { result ≡ record { entries = [] } }
    {
        Places {
            first: None,
            second: None,
            more: BTreeMap::new(alloc),
        }
    }

    /// What is at the key.
    pub fn get(&self, key: u64) -> Option<u64>
        ensures { result ≡ last_of self.now.entries key }
    {
        let more = self.more.get(&key).copied();
        value_at(self.first, key, value_at(self.second, key, more))
    }

    /// Puts the value at the key. `Memory` leaves all as it was, and comes only if nothing was at the key.
    pub fn insert(&mut self, key: u64, value: u64) -> Result<(), Memory>
        ensures ok { OnOk result (HasZone self.old.entries key value self.new.entries) }
        ensures err { OnErr result (self.new ≡ self.old) }
        ensures absent { OnErr result (last_of self.old.entries key ≡ None) }
    {
        let entry = Some((key, value));
        if is_at(self.first, key) || self.first.is_none() && !is_at(self.second, key) {
            self.first = entry;
            return Ok(());
        }
        if is_at(self.second, key) || self.second.is_none() {
            self.second = entry;
            return Ok(());
        }
        self.more.insert(key, value)?;
        Ok(())
    }

    /// Takes out what is at the key.
    pub fn remove(&mut self, key: u64)
        ensures { LacksKey self.old.entries key self.new.entries }
    {
        self.first = without(self.first, key);
        self.second = without(self.second, key);
        self.more.remove(&key);
    }

    /// Whether nothing is at any key but that one.
    pub(crate) fn has_no_other(&self, key: u64) -> bool
        ensures { IsTrue result → HasNoOther self.now.entries key }
    {
        match nearest::first_of_all(&self.more) {
            None => slot::has_no_other(self.first, key) && slot::has_no_other(self.second, key),
            Some(_) => false,
        }
    }

    /// The last entry before the place.
    pub(crate) fn last_before(&self, place: u64) -> Option<Entry>
        ensures { IsLastBefore self.now.entries place result }
    {
        let more = nearest::last_before(&self.more, place);
        let second = slot::last_before(self.second, place, more);
        slot::last_before(self.first, place, second)
    }

    /// The last entry up to the place.
    pub(crate) fn last_up_to(&self, place: u64) -> Option<Entry>
        ensures { IsLastUpTo self.now.entries place result }
    {
        let more = nearest::last_up_to(&self.more, place);
        let second = slot::last_up_to(self.second, place, more);
        slot::last_up_to(self.first, place, second)
    }

    /// The first entry after the place.
    pub(crate) fn first_after(&self, place: u64) -> Option<Entry>
        ensures { IsFirstAfter self.now.entries place result }
    {
        let more = nearest::first_after(&self.more, place);
        let second = slot::first_after(self.second, place, more);
        slot::first_after(self.first, place, second)
    }

    /// The first entry.
    pub fn first_of_all(&self) -> Option<Entry>
        ensures { IsFirstOfAll self.now.entries result }
    {
        let more = nearest::first_of_all(&self.more);
        let second = slot::first_of_all(self.second, more);
        slot::first_of_all(self.first, second)
    }
}
