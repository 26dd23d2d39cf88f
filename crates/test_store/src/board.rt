//! What a row, its threads and its gate tell each other.
use node_threads::Place;
use std::alloc::Global;
use std::sync::Mutex;
use std::sync::atomic::{AtomicU64, Ordering};
use std::thread;
use std::time::{Clock, Duration};

/// Whether something has happened yet.
#[derive(Drop)]
pub struct Signal {
    set: AtomicU64,
}

impl Signal {
    fn new() -> Signal {
        Signal {
            set: AtomicU64::new(0),
        }
    }

    /// It has happened.
    pub fn give(&self) {
        self.set.store(1, Ordering::SeqCst);
    }

    /// Whether it has happened.
    pub fn is_given(&self) -> bool {
        self.set.load(Ordering::SeqCst) == 1
    }
}

/// How often somebody looks whether something has happened, at most: some 4 seconds.
const PATIENCE: u32 = 260;

/// How many microseconds somebody sleeps between two looks, at most.
const LONGEST: u64 = 16_384;

/// What a row, its threads and its gate tell each other.
#[derive(Drop)]
pub struct Board {
    /// The first of two that wait for each other has come so far.
    pub first: Signal,
    /// The second has.
    pub second: Signal,
    /// Somebody waited in vain. Nobody waits any longer then.
    pub missed: Signal,
    /// Something came out in a thread as it doesn't have to.
    pub wrong: Signal,
    /// How many places the gate was asked at.
    pub came: AtomicU64,
    /// How many of them were requests and replies.
    pub parcels: AtomicU64,
    /// The places, the first first, if the gate writes them down.
    pub places: Mutex<Vec<Place>>,
}

impl Board {
    /// Nothing has happened.
    pub fn new(alloc: Global) -> Board {
        Board {
            first: Signal::new(),
            second: Signal::new(),
            missed: Signal::new(),
            wrong: Signal::new(),
            came: AtomicU64::new(0),
            parcels: AtomicU64::new(0),
            places: Mutex::new(Vec::new(alloc)),
        }
    }

    /// Waits until the signal is given, looking again after one microsecond, then two, four and so on up to 16,384:
    /// for 4 seconds, and no longer than until somebody has waited in vain. Whether it was given; if not, somebody
    /// has waited in vain.
    pub fn wait<R: Clock>(&self, rt: &R, signal: &Signal) -> bool {
        let mut pause = 1u64;
        for _ in 0..PATIENCE {
            if signal.is_given() {
                return true;
            }
            if self.missed.is_given() {
                return false;
            }
            thread::sleep(rt, Duration::from_micros(pause));
            pause = u64::wrapping_mul(pause, 2).min(LONGEST);
        }
        self.missed.give();
        false
    }

    /// One of two has come so far at the gate, and waits there for the other.
    pub fn meet<R: Clock>(&self, rt: &R, own: &Signal, other: &Signal) {
        own.give();
        self.wait(rt, other);
    }
}
