//! The keys that are checked, as the histories and the orders lend them.
ghost use Rattle.std.specs.Prelude.{◌≡◌, ◌<◌, Some, length, IfOk};
ghost use Rattle.std.specs.List.{slice_get};
ghost use Rattle.certificate_check.specs.Verdicts.{IsVerdict};
ghost use Rattle.parallel_keys.specs.CheckedKeys.{CheckedKey};
ghost use Rattle.parallel_keys.specs.KeysToCheck.{checked_in};

use crate::collect_keys::KeyToCheck;
use certificate_check::{Verdict, check_part};
use recorder::{KeyOrder, Part};
use std::alloc::Global;
use tag::{Key, Memory};

/// The keys that are checked, first those that have parts. Of a key that only the orders have, its
/// order is all that is kept.
#[derive(Clone, Copy)]
pub struct KeyList<'a> {
    pub recorded: &'a [KeyToCheck<'a>],
    pub others: &'a [&'a KeyOrder],
}

impl<'a> KeyList<'a> {
    /// How many keys there are.
    pub(crate) fn len(self) -> usize
        ensures { result ≡ length (checked_in self.entry) }
    {
        self.recorded.len() + self.others.len()
    }

    /// The key at that place.
    pub(crate) fn key(self, place: usize) -> &'a Key
        requires { place < length (checked_in self) }
        ensures { (one : CheckedKey) × (slice_get (checked_in self.entry) place ≡ Some one)
            × (result.now ≡ one.key) }
    {
        let recorded = self.recorded.len();
        if place < recorded {
            let one = &self.recorded[place];
            one.key
        } else {
            let one = self.others[place - recorded];
            &one.key
        }
    }

    /// The verdict on the order of the key at that place.
    pub(crate) fn check(self, alloc: Global, place: usize) -> Result<Verdict, Memory>
        requires { place < length (checked_in self) }
        ensures { IfOk result (λ verdict. (one : CheckedKey)
            × (slice_get (checked_in self.entry) place ≡ Some one)
            × IsVerdict one.part one.order verdict) }
    {
        let recorded = self.recorded.len();
        if place < recorded {
            let one = &self.recorded[place];
            check_part(alloc, &one.part, one.order)
        } else {
            let one = self.others[place - recorded];
            check_part(alloc, &Part::empty(), one.order.as_slice())
        }
    }
}
