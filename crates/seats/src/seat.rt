//! A client's seat in a store.
ghost use Rattle.std.specs.Prelude.{◌≡◌, length, IfErr, OnErr, OnOk};
ghost use Rattle.seats.specs.Seats.{HasMet, IsForeign, IsSeat, greater, seen_in};

use crate::errors::CallError;
use crate::receipt::Receipt;
use hall_lock::ClientPass;
use recorder::Entry;
use std::marker::Model;
use tag::{ClientId, Value};

/// A client with its calls, and by hall what it has seen. Its calls are made one after another.
#[derive(Drop)]
pub struct Seat {
    pub(crate) store: u64,
    pub(crate) client: ClientId,
    pub(crate) is_spent: bool,
    pub(crate) log: Vec<Entry>,
    pub(crate) passes: Vec<ClientPass>,
    pub(crate) seen: Vec<usize>,
}

impl Model for Seat {
    ghost use Rattle.seats.specs.Seats.{IsSeat, Seat};

    ghost Value = { Seat };

    ghost use Rattle.seats.specs.SeatFields.{seat_of};

    ghost view = { seat_of };

    ghost invariant = { λ s. IsSeat (seat_of s) };
}

/// What a call answers: a read its value, if the key has one; a write none. And a receipt of it.
#[derive(Debug, Drop)]
pub struct Answer {
    pub value: Option<Value>,
    pub receipt: Receipt,
}

impl Seat {
    /// The store that it is of.
    pub fn store(&self) -> u64
        ensures { result ≡ self.now.store }
    {
        self.store
    }

    /// How many halls it has joined, which is how many passes it has.
    pub fn halls(&self) -> usize
        ensures { result ≡ length self.now.passes }
    {
        self.passes.len()
    }

    /// The client.
    pub fn client(&self) -> ClientId
        ensures { result ≡ self.now.client }
    {
        self.client
    }

    /// Its calls, in the order in which it made them. The entries of each hall are its client's calls in
    /// the record of that hall.
    pub fn log(&self) -> &[Entry]
        ensures log { result.now ≡ self.now.log }
        ensures seat { IsSeat self.now }
    {
        self.log.as_slice()
    }

    /// Below which place of that hall's record all its calls there, and all that it met, stand. 0 for a hall
    /// that it lacks.
    pub fn seen(&self, hall: u8) -> usize
        ensures { result ≡ seen_in self.now hall }
    {
        match self.seen.get(usize::from(hall)) {
            Some(place) => *place,
            None => 0,
        }
    }

    /// Whether it makes no more calls.
    pub fn is_spent(&self) -> bool
        ensures { result ≡ self.now.is_spent }
    {
        self.is_spent
    }

    /// Meets another call of the same store: later calls of this seat begin after its response. `Foreign`
    /// comes where the receipt is of another store, or of a hall that the seat lacks.
    pub fn meet(&mut self, receipt: &Receipt) -> Result<(), CallError>
        ensures met { OnOk result (HasMet self.old receipt.now self.new) }
        ensures foreign { IfErr result (λ error.
            (error ≡ CallError.Foreign) × (self.new ≡ self.old)) }
        ensures why { OnErr result (IsForeign self.old receipt.now) }
    {
        let hall = usize::from(receipt.hall());
        if receipt.store() != self.store || hall >= self.seen.len() {
            return Err(CallError::Foreign);
        }
        self.seen[hall] = greater(self.seen[hall], receipt.place() + 1);
        Ok(())
    }
}

/// The greater of two numbers.
fn greater(one: usize, other: usize) -> usize
    ensures { result ≡ greater one other }
{
    if one <= other { other } else { one }
}
