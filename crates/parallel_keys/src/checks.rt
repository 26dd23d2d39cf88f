//! What workers check, by index.
ghost use Rattle.std.specs.Prelude.{◌≡◌, ◌<◌, [], length, map, IfOk};
ghost use Rattle.parallel_keys.specs.IndexVerdicts.{IsVerdictAt};
ghost use Rattle.parallel_keys.specs.Checks.{ArePaired, parts_in, orders_in};
ghost use Rattle.parallel_keys.specs.KeysToCheck.{checked_in};

use crate::key_list::KeyList;
use certificate_check::{Verdict, check_part};
use recorder::Part;
use std::alloc::Global;
use tag::{Memory, OpId};

/// Parts with their orders: first those at the same index of two lists, then those of keys.
#[derive(Clone, Copy)]
pub struct Checks<'a> {
    pub parts: &'a [&'a Part<'a>],
    pub orders: &'a [&'a [OpId]],
    pub keys: KeyList<'a>,
    /// How many they are together.
    pub count: usize,
}

impl<'a> Checks<'a> {
    /// Those of two lists alone.
    pub(crate) fn of_pairs(parts: &'a [&'a Part<'a>], orders: &'a [&'a [OpId]]) -> Checks<'a>
        ensures parts { parts_in result ≡ map (λ p. p.now) parts.entry.now }
        ensures orders { orders_in result ≡ map (λ o. o.now) orders.entry.now }
        ensures paired { length parts.entry.now ≡ length orders.entry.now → ArePaired result }
    {
        let keys = KeyList {
            recorded: &[],
            others: &[],
        };
        Checks {
            parts,
            orders,
            keys,
            count: parts.len(),
        }
    }

    /// Those of keys alone.
    pub(crate) fn of_keys(keys: KeyList<'a>) -> Checks<'a>
        ensures parts { parts_in result ≡ map (λ one. one.part) (checked_in keys.entry) }
        ensures orders { orders_in result ≡ map (λ one. one.order) (checked_in keys.entry) }
        ensures paired { ArePaired result }
    {
        Checks {
            parts: &[],
            orders: &[],
            keys,
            count: keys.len(),
        }
    }

    /// How many parts there are.
    pub(crate) fn len(self) -> usize
        requires { ArePaired self }
        ensures { result ≡ length (parts_in self.entry) }
    {
        self.count
    }

    /// The verdict on the part and the order at that index.
    pub(crate) fn check(self, alloc: Global, index: usize) -> Result<Verdict, Memory>
        requires paired { ArePaired self }
        requires below { index < length (parts_in self) }
        ensures { IfOk result
            (λ verdict. IsVerdictAt (parts_in self.entry) (orders_in self.entry) index verdict) }
    {
        let pairs = self.parts.len();
        if index < pairs {
            check_part(alloc, self.parts[index], self.orders[index])
        } else {
            self.keys.check(alloc, index - pairs)
        }
    }
}
