//! The flights that have a copy, by number.
ghost use Rattle.std.specs.Prelude.{◌≡◌, ◌^◌, ◌<◌, Some, IsSome, OnOk, OnErr};
ghost use Rattle.std.specs.Option.{option_copied};
ghost use Rattle.std.specs.FinMap as finite;
ghost use Rattle.network.specs.Equality.{agree_below};
ghost use Rattle.network.specs.Flights.{Flight, with_copies};

use crate::Flight;
use crate::number_hash::NumberHasher;
use std::alloc::Global;
use std::collections::HashMap;
use std::marker::Model;
use tag::Memory;

/// A map from numbers to flights, seen as a finite map.
#[derive(Debug, Drop)]
pub(crate) struct InFlight {
    by_number: HashMap<u32, Flight, NumberHasher>,
}

impl Model for InFlight {
    ghost use Rattle.std.specs.Coded.{coded_ℕ};
    ghost use Rattle.std.specs.FinMap as finite;
    ghost use Rattle.network.specs.contracts.flights.Flight as flight;
    ghost use Rattle.network.specs.Flights.{Flights};

    ghost Value = { Flights };

    ghost coded = { finite.code coded_ℕ flight.the_row.coded };

    ghost view = { λ f. finite.from_entries f.by_number.entries };
}

/// Whether both flights are equal, or neither is there.
fn is_same(a: Option<&Flight>, b: Option<&Flight>) -> bool
    ensures { result ≡ ⟦<Option<Flight> as PartialEq>⟧.eq (option_copied a.entry)
        (option_copied b.entry) }
{
    a == b
}

impl InFlight {
    pub(crate) fn new(alloc: Global) -> InFlight
        ensures { result ≡ finite.empty }
    {
        InFlight {
            by_number: HashMap::with_hasher(alloc, NumberHasher::new()),
        }
    }

    pub(crate) fn len(&self) -> usize
        ensures { result ≡ finite.len self.now }
    {
        self.by_number.len()
    }

    pub(crate) fn get(&self, number: u32) -> Option<&Flight>
        ensures { option_copied result ≡ finite.get self.now number }
    {
        self.by_number.get(&number)
    }

    /// Whether each number below that one names an equal flight of both, or none of either.
    pub(crate) fn agrees_below(&self, other: &InFlight, count: u32) -> bool
        ensures { result ≡ agree_below ⟦<Flight as PartialEq>⟧.eq self.now other.now count }
    {
        for number in 0..count {
            if !is_same(self.get(number), other.get(number)) {
                return false;
            }
        }
        true
    }

    pub(crate) fn insert(&mut self, number: u32, flight: Flight) -> Result<(), Memory>
        ensures ok { OnOk result (self.new ≡ finite.insert self.old number flight) }
        ensures err { OnErr result (self.new ≡ self.old) }
    {
        self.by_number.insert(number, flight)?;
        Ok(())
    }

    pub(crate) fn remove(&mut self, number: u32) -> Option<Flight>
        ensures flight { result ≡ finite.get self.old number }
        ensures after { self.new ≡ finite.remove self.old number }
    {
        self.by_number.remove(&number)
    }

    /// Gives a flight that is there so many copies. No memory is taken.
    pub(crate) fn set_copies(&mut self, number: u32, copies: u32)
        requires { IsSome (finite.get self.old number) }
        ensures { (flight : Flight) → finite.get self.old number ≡ Some flight
            → self.new ≡ with_copies self.old number flight.message copies }
    {
        if let Some(flight) = self.by_number.get_mut(&number) {
            flight.copies = copies;
        }
    }
}
