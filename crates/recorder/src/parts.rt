//! The parts of a history, by key.
ghost use Rattle.std.specs.Prelude.{◌≡◌, ◌<◌, List, length, map, IfSome, IfNone, Some, Contains};
ghost use Rattle.std.specs.List.{slice_get};
ghost use Rattle.recorder.specs.declared.part.Call.{Call};

use crate::groups::Groups;
use crate::part::Part;
use crate::record::Record;
use crate::refs::KeyRef;
use key_index::KeyNumbers;
use std::marker::Model;
use tag::Key;

/// Keys with their parts, each key once, in the order in which they were first seen.
///
/// A look-up takes a time that grows with the logarithm of the count of keys, whatever the keys
/// are. Only a history makes it, and lends its calls.
#[derive(Debug, Drop)]
pub struct Parts<'h> {
    from: &'h Record,
    /// The numbers of each key's calls, by the number of the key.
    groups: Groups,
}

impl<'h> Model for Parts<'h> {
    ghost use Rattle.recorder.specs.Records.{KeyedParts};

    ghost Value = { KeyedParts };

    ghost use Rattle.recorder.specs.PartRecords.{entries_of, AreEntries};

    ghost view = { λ p. record { entries = entries_of p.from.now p.groups } };

    ghost invariant = { λ p. AreEntries p.from.now p.groups };
}

impl<'h> Parts<'h> {
    ghost use Rattle.recorder.specs.PartRecords.{entries_of, AreEntries};

    /// The parts of the record whose calls are grouped so.
    pub(crate) fn new(from: &'h Record, groups: Groups) -> Parts<'h>
        requires { AreEntries from.now groups }
        ensures { result ≡ record { entries = entries_of from.now groups } }
    {
        Parts { from, groups }
    }

    /// How many keys have a part.
    pub fn len(&self) -> usize
        ensures { result ≡ length self.now.entries }
    {
        self.groups.len()
    }

    /// The key at that place, from 0, with its part.
    pub fn entry(&self, place: usize) -> (KeyRef<'_>, Part<'_>)
        requires { place < length self.now.entries }
        ensures { slice_get self.now.entries place ≡ Some result }
    {
        let numbers = self.groups.group(place);
        (self.from.rows.key(place), Part::of(self.from, numbers))
    }

    /// The keys, each numbered by its place.
    pub fn numbers(&self) -> &KeyNumbers
        ensures { result.now ≡ map (λ entry. entry.0) self.now.entries }
    {
        self.from.rows.keys()
    }

    /// The key's part, if it has one.
    pub fn get(&self, key: &Key) -> Option<Part<'_>>
        ensures some { IfSome result (λ part. Contains self.now.entries (key.now, part)) }
        ensures none { IfNone result
            ((part : List Call) → Contains self.now.entries (key.now, part) → ⊥) }
    {
        let number = self.from.rows.keys().find(key)?;
        Some(Part::of(self.from, self.groups.group(number)))
    }
}
