//! A gate that loses and doubles parcels by their count, and reports each answer.
ghost use Rattle.std.specs.Prelude.{◌≡◌};
ghost use Rattle.load_run.specs.Passes.{IsPassed, is_hit, parcels_at, pass_at, pass_of};

use node_threads::{Gate, Pass, Place};
use std::marker::Model;
use std::sync::atomic::{AtomicU64, Ordering};
use tag::Memory;

/// Whether the number is a multiple of the other, which isn't 0.
fn is_hit(every: u64, number: u64) -> bool
    ensures { result ≡ is_hit every number }
{
    every != 0 && number % every == 0
}

/// What becomes of the parcel of that number.
pub fn pass_of(drop: u64, double: u64, number: u64) -> Pass
    ensures { result ≡ pass_of drop double number }
{
    if is_hit(drop, number) {
        Pass::Drop
    } else if is_hit(double, number) {
        Pass::Twice
    } else {
        Pass::Go
    }
}

/// How many parcels there are at the point: a request and a reply are one, an answer is none.
fn parcels_at(place: &Place) -> u64
    ensures { result ≡ parcels_at place.now }
{
    match place {
        Place::Request { .. } | Place::Reply { .. } => 1,
        Place::Respond { .. } => 0,
    }
}

/// What becomes of what is at the point, if so many parcels came before. After 2^64 - 1 comes 0.
pub fn pass_at(drop: u64, double: u64, before: u64, place: &Place) -> Pass
    ensures { result ≡ pass_at drop double before place.now }
{
    match place {
        Place::Request { .. } | Place::Reply { .. } => {
            pass_of(drop, double, u64::wrapping_add(before, 1))
        }
        Place::Respond { .. } => Pass::Go,
    }
}

/// Watches a load, and the check of its record.
pub trait Watch {
    /// The same watch once more, for the threads of the load.
    fn again(&self) -> Result<Self, Memory>
    where
        Self: Sized;

    /// A call is about to be answered. On the caller's thread, with no lock held.
    fn answered(&self);

    /// So many keys were checked, and the order of so many of them is one.
    fn checked(&self, keys: usize, yes: usize);
}

/// Watches nothing.
#[derive(Clone, Copy, Debug, Drop)]
pub struct NoWatch;

impl Watch for NoWatch {
    fn again(&self) -> Result<NoWatch, Memory> {
        Ok(NoWatch)
    }

    fn answered(&self) {}

    fn checked(&self, _keys: usize, _yes: usize) {}
}

/// Numbers the parcels that come to it, requests and replies of all threads together, from 1, and says of
/// each what `pass_at` does. It tells its watch of each call that is about to be answered.
#[derive(Drop)]
pub struct CountingGate<L> {
    drop: u64,
    double: u64,
    parcels: AtomicU64,
    watch: L,
}

impl<L> Model for CountingGate<L> {
    ghost use Rattle.load_run.specs.Passes.{ParcelCounts};

    ghost Value = { ParcelCounts };

    ghost view = { λ gate. record { drop = gate.drop; double = gate.double } };
}

impl<L: Watch> CountingGate<L> {
    /// A gate to which no parcel has come.
    pub fn new(drop: u64, double: u64, watch: L) -> CountingGate<L>
        ensures drop { result.drop ≡ drop }
        ensures double { result.double ≡ double }
    {
        CountingGate {
            drop,
            double,
            parcels: AtomicU64::new(0),
            watch,
        }
    }

    /// Counts what is at the point, and says what becomes of it.
    fn pass(&self, place: &Place) -> Pass
        ensures { IsPassed self.now place.now result }
    {
        let before = self.parcels.fetch_add(parcels_at(place), Ordering::SeqCst);
        pass_at(self.drop, self.double, before, place)
    }
}

impl<L: Watch> Gate for CountingGate<L> {
    ghost answers = { IsPassed };

    fn at(&self, place: &Place) -> Pass {
        if let Place::Respond { .. } = place {
            self.watch.answered();
        }
        self.pass(place)
    }
}
