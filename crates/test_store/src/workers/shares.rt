//! Which indexes a worker passes the gate for.
use parallel_keys::{CheckGate, Workers, check_all};
use recorder::Part;
use std::alloc::Global;
use std::sync::Wait;
use std::sync::atomic::{AtomicU64, Ordering};
use std::thread;
use std::thread::Threads;
use std::time::{Clock, Duration};

/// The set that holds that index alone, of sets of indexes below 64 as their bits.
fn only(index: usize) -> u64 {
    match u32::try_from(index) {
        Ok(place) => 1u64.checked_shl(place).unwrap_or(0),
        Err(_) => 0,
    }
}

/// The first indexes of a row, three for each worker.
fn all_indexes(workers: usize) -> u64 {
    only(workers.saturating_mul(3)).saturating_sub(1)
}

/// The three indexes of a worker among them.
fn own_indexes(workers: usize, worker: usize) -> u64 {
    let second = worker.saturating_add(workers);
    only(worker) | only(second) | only(second.saturating_add(workers))
}

/// A gate that holds the thread which comes for one index until all the others' indexes were passed. It
/// writes down which indexes were passed, whether one was twice, and which until the thread was let go.
#[derive(Drop)]
struct Holding<'a, R> {
    rt: &'a R,
    held: usize,
    others: u64,
    passed: AtomicU64,
    again: AtomicU64,
    until_free: AtomicU64,
}

impl<'a, R: Clock> Holding<'a, R> {
    /// Waits until the others have passed, and then a while longer for one that mustn't pass.
    fn hold(&self) {
        for _ in 0..100_000 {
            if self.passed.load(Ordering::SeqCst) & self.others == self.others {
                thread::sleep(self.rt, Duration::from_millis(2));
                self.until_free
                    .store(self.passed.load(Ordering::SeqCst), Ordering::SeqCst);
                return;
            }
            thread::sleep(self.rt, Duration::from_micros(10));
        }
    }
}

impl<'a, R: Clock> CheckGate for Holding<'a, R> {
    fn at(&self, index: usize) {
        let own = only(index);
        if self.passed.fetch_or(own, Ordering::SeqCst) & own != 0 {
            self.again.fetch_add(1, Ordering::SeqCst);
        }
        if index == self.held {
            self.hold();
        }
    }
}

/// Whether so many empty orders of empty parts are checked.
fn are_checked<R: Threads + Wait, G: CheckGate + Sync>(
    rt: &R,
    alloc: Global,
    count: usize,
    workers: Workers,
    gate: &G,
) -> bool {
    let part = Part::empty();
    let (Ok(parts), Ok(orders)) = (
        Vec::from_elem(alloc, &part, count),
        Vec::from_elem(alloc, [].as_slice(), count),
    ) else {
        return false;
    };
    match check_all(
        rt,
        alloc,
        parts.as_slice(),
        orders.as_slice(),
        workers,
        gate,
    ) {
        Ok(verdicts) => verdicts.len() == count,
        Err(_) => false,
    }
}

/// Whether, while the worker is held at its first index, all others pass the gate for each of their own
/// indexes, and nobody for one of the worker's; and whether in the end each index was passed once.
fn has_its_share<R: Threads + Wait + Clock + Sync>(
    rt: &R,
    alloc: Global,
    workers: u8,
    worker: usize,
) -> bool {
    let Some(count) = Workers::new(workers) else {
        return false;
    };
    let workers = usize::from(workers);
    let others = all_indexes(workers) & !own_indexes(workers, worker);
    let gate = Holding {
        rt,
        held: worker,
        others,
        passed: AtomicU64::new(0),
        again: AtomicU64::new(0),
        until_free: AtomicU64::new(0),
    };
    are_checked(rt, alloc, workers.saturating_mul(3), count, &gate)
        && gate.passed.load(Ordering::SeqCst) == all_indexes(workers)
        && gate.again.load(Ordering::SeqCst) == 0
        && gate.until_free.load(Ordering::SeqCst) == others | only(worker)
}

/// Whether each worker passes the gate for its own indexes, on a thread of its own.
pub fn have_their_shares<R: Threads + Wait + Clock + Sync>(rt: &R, alloc: Global) -> bool {
    for workers in [1u8, 2, 3, 16] {
        for worker in 0..usize::from(workers) {
            if !has_its_share(rt, alloc, workers, worker) {
                return false;
            }
        }
    }
    true
}
