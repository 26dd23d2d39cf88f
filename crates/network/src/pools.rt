//! The pool: the network of all clients and replicas.
ghost use Rattle.std.specs.Prelude.{◌≡◌, ◌<◌, ◌≤◌, ◌-◌, ◌↔◌, Err, IfOk, IfErr, IsOk, OnOk, OnErr};
ghost use Rattle.std.specs.Prelude.{IsSome, IfSome, OnSome, IfNone, IsTrue};
ghost use Rattle.std.specs.Option.{option_copied};
ghost use Rattle.std.specs.FinMap as finite;
ghost use Rattle.network.specs.contracts.flights.FlightPartialEq.TheImpl.Laws as flight;
ghost use Rattle.network.specs.Equality.{same_pools};
ghost use Rattle.network.specs.Flights.{copies_of, message_of, copy_limit, IsGone, IsMessageOf};
ghost use Rattle.network.specs.Refusals.{IsEither};
ghost use Rattle.network.specs.PoolLaws.{pools_per};
ghost use Rattle.network.specs.Pools.{IsBag, silent_pool, with_one_less, with_one_more, with_sent, without_last};

use crate::in_flight::InFlight;
use crate::{Flight, Message, NetRefusal};
use std::alloc::Global;
use std::marker::Model;

/// The messages under way, each with a number and a count of copies.
///
/// It is seen as how many messages were ever sent, how many may be, and the map from the numbers of
/// the flights that have a copy to their message and copies. Nothing else is kept.
#[derive(Debug, Drop)]
pub struct Pool {
    sent: u32,
    limit: u32,
    flights: InFlight,
}

impl Model for Pool {
    ghost use Rattle.std.specs.Prelude.{ℕ, refl};
    ghost use Rattle.std.specs.Coded.{code_by, coded×, coded_ℕ};
    ghost use Rattle.std.specs.FinMap as finite;
    ghost use Rattle.network.specs.contracts.flights.Flight as flight;
    ghost use Rattle.network.specs.Flights.{Flights};
    ghost use Rattle.network.specs.Pools.{Pool, IsBag};

    ghost Value = { Pool };

    ghost coded = { code_by (ℕ × (ℕ × Flights))
        (coded× coded_ℕ (coded× coded_ℕ (finite.code coded_ℕ flight.the_row.coded)))
        (λ p. (p.sent, (p.limit, p.flights)))
        (λ c. record { sent = c.0; limit = c.1.0; flights = c.1.1 })
        (λ _. refl) };

    ghost view = { λ p. record { sent = p.sent; limit = p.limit; flights = p.flights } };

    ghost invariant = { λ p. IsBag (record { sent = p.sent; limit = p.limit; flights = p.flights }) };
}

impl PartialEq for Pool {
    ghost eq = { same_pools ⟦<Flight as PartialEq>⟧.eq };

    ghost laws = { pools_per ⟦<Flight as PartialEq>⟧.eq flight.laws-law };

    /// Takes a time that grows with how many messages were sent.
    fn eq(&self, other: &Pool) -> bool {
        self.sent == other.sent
            && self.limit == other.limit
            && self.flights.agrees_below(&other.flights, self.sent)
    }
}

impl Pool {
    /// A pool without a flight, to which at most `limit` messages may ever be sent.
    pub fn new(alloc: Global, limit: u32) -> Pool
        ensures { result ≡ silent_pool limit }
    {
        Pool {
            sent: 0,
            limit,
            flights: InFlight::new(alloc),
        }
    }

    /// How many messages were ever sent: the number of the next one.
    pub fn sent(&self) -> u32
        ensures sent { result ≡ self.now.sent }
        ensures bag { IsBag self.now }
    {
        self.sent
    }

    /// How many messages may ever be sent.
    pub fn limit(&self) -> u32
        ensures { result ≡ self.now.limit }
    {
        self.limit
    }

    /// Whether as many messages were sent as may ever be.
    pub fn is_full(&self) -> bool
        ensures { IsTrue result ↔ (self.now.limit ≤ self.now.sent) }
    {
        self.limit <= self.sent
    }

    /// How many flights have a copy.
    pub fn stored(&self) -> u32
        ensures { result ≡ finite.len self.now.flights }
    {
        let stored = self.flights.len();
        prove!(stored <= self.sent as usize);
        stored as u32
    }

    /// How many copies the flight has: 0 if the number was never given, or the flight is spent.
    pub fn copies(&self, number: u32) -> u32
        ensures copies { result ≡ copies_of self.now.flights number }
        ensures most { result ≤ copy_limit }
    {
        match self.flights.get(number) {
            Some(flight) => flight.copies,
            None => 0,
        }
    }

    /// The flight's message, if it has a copy.
    pub fn look(&self, number: u32) -> Option<&Message>
        ensures { option_copied result ≡ message_of self.now.flights number }
    {
        match self.flights.get(number) {
            Some(flight) => Some(&flight.message),
            None => None,
        }
    }

    /// Sends the message, with one copy, and answers its number.
    ///
    /// `FlightsFull` comes exactly if as many were sent as may be, `Memory` only if room for
    /// the flight was refused.
    pub fn send(&mut self, message: Message) -> Result<u32, NetRefusal>
        ensures number { IfOk result (λ number. number ≡ self.old.sent) }
        ensures after { OnOk result (self.new ≡ with_sent self.old message) }
        ensures full { (result ≡ Err NetRefusal.FlightsFull) ↔ (self.old.limit ≤ self.old.sent) }
        ensures room { OnOk result (self.old.sent < self.old.limit) }
        ensures only { IfErr result (IsEither NetRefusal.FlightsFull NetRefusal.Memory) }
        ensures err { OnErr result (self.new ≡ self.old) }
    {
        if self.sent >= self.limit {
            return Err(NetRefusal::FlightsFull);
        }
        let number = self.sent;
        let flight = Flight { message, copies: 1 };
        self.flights.insert(number, flight)?;
        self.sent = number + 1;
        Ok(number)
    }

    /// Takes a copy of the flight away and gives its message.
    ///
    /// `NotInFlight` comes exactly if the flight has no copy, `Memory` only if a copy of the
    /// message was refused; the last copy takes none.
    pub fn deliver(&mut self, number: u32) -> Result<Message, NetRefusal>
        ensures message { IfOk result (IsMessageOf self.old.flights number) }
        ensures after { OnOk result (self.new ≡ with_one_less self.old number) }
        ensures gone { (result ≡ Err NetRefusal.NotInFlight) ↔ IsGone self.old.flights number }
        ensures last { copies_of self.old.flights number ≡ 1 → IsOk result }
        ensures only { IfErr result (IsEither NetRefusal.NotInFlight NetRefusal.Memory) }
        ensures err { OnErr result (self.new ≡ self.old) }
    {
        let Some(flight) = self.flights.get(number) else {
            return Err(NetRefusal::NotInFlight);
        };
        let copies = flight.copies;
        if copies == 1 {
            return Ok(self.flights.remove(number).unwrap().message);
        }
        let message = flight.message.copy()?;
        self.flights.set_copies(number, copies - 1);
        Ok(message)
    }

    /// Takes a copy of the flight away: it is lost.
    ///
    /// `NotInFlight` comes exactly if the flight has no copy. No memory is taken.
    pub fn lose(&mut self, number: u32) -> Result<(), NetRefusal>
        ensures after { OnOk result (self.new ≡ with_one_less self.old number) }
        ensures gone { (result ≡ Err NetRefusal.NotInFlight) ↔ IsGone self.old.flights number }
        ensures only { IfErr result (λ refusal. refusal ≡ NetRefusal.NotInFlight) }
        ensures err { OnErr result (self.new ≡ self.old) }
    {
        match self.copies(number) {
            0 => return Err(NetRefusal::NotInFlight),
            1 => drop(self.flights.remove(number)),
            copies => self.flights.set_copies(number, copies - 1),
        }
        Ok(())
    }

    /// Adds a copy of the flight: it is repeated.
    ///
    /// `NotInFlight` comes exactly if the flight has no copy, `CopiesFull` exactly if it has
    /// 1,000. No memory is taken.
    pub fn repeat(&mut self, number: u32) -> Result<(), NetRefusal>
        ensures after { OnOk result (self.new ≡ with_one_more self.old number) }
        ensures gone { (result ≡ Err NetRefusal.NotInFlight) ↔ IsGone self.old.flights number }
        ensures full { (result ≡ Err NetRefusal.CopiesFull)
            ↔ (copies_of self.old.flights number ≡ copy_limit) }
        ensures only { IfErr result (IsEither NetRefusal.NotInFlight NetRefusal.CopiesFull) }
        ensures err { OnErr result (self.new ≡ self.old) }
    {
        match self.copies(number) {
            0 => return Err(NetRefusal::NotInFlight),
            1000 => return Err(NetRefusal::CopiesFull),
            copies => self.flights.set_copies(number, copies + 1),
        }
        Ok(())
    }

    /// Takes the last send back: the flight numbered `sent - 1`, if it has exactly one copy.
    ///
    /// Its message is given back, and its number counts as never given. Otherwise the answer is
    /// `None`. No memory is taken.
    pub fn unsend(&mut self) -> Option<Message>
        // Before the first send `sent - 1` is 0, a number that has no copy.
        ensures some { IsSome result ↔ (copies_of self.old.flights (self.old.sent - 1) ≡ 1) }
        ensures message { IfSome result (IsMessageOf self.old.flights (self.old.sent - 1)) }
        ensures after { OnSome result (self.new ≡ without_last self.old) }
        ensures none { IfNone result (self.new ≡ self.old) }
    {
        let last = self.sent.checked_sub(1)?;
        if self.copies(last) != 1 {
            return None;
        }
        let flight = self.flights.remove(last)?;
        self.sent = last;
        Some(flight.message)
    }
}
