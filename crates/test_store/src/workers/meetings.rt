//! Workers that meet.
use parallel_keys::{CheckGate, Workers, are_distinct, check_all, check_histories, check_history};
use recorder::{Histories, History, KeyOrder, Order, Part};
use std::alloc::Global;
use std::sync::Wait;
use std::sync::atomic::{AtomicU64, Ordering};
use std::thread;
use std::thread::Threads;
use std::time::{Clock, Duration};
use tag::Key;

/// How often a worker looks whether another has come, at most: some 5 seconds.
const PATIENCE: u32 = 60_000;

/// A gate at which each worker waits until another has come there.
#[derive(Drop)]
struct Meeting<'a, R> {
    rt: &'a R,
    came: AtomicU64,
    met: AtomicU64,
}

impl<'a, R: Clock> CheckGate for Meeting<'a, R> {
    fn at(&self, _index: usize) {
        self.came.fetch_add(1, Ordering::SeqCst);
        for _ in 0..PATIENCE {
            if self.came.load(Ordering::SeqCst) >= 2 {
                self.met.fetch_add(1, Ordering::SeqCst);
                return;
            }
            thread::sleep(self.rt, Duration::from_micros(1));
        }
    }
}

/// Which function checks two keys.
#[derive(Clone, Copy)]
enum Checker {
    Parts,
    History,
    Histories,
}

/// Empty orders of `x` and `y`.
fn two_orders(alloc: Global) -> Option<Vec<KeyOrder>> {
    let mut orders = Vec::new(alloc);
    for name in ["x", "y"] {
        let key = Key::new(alloc, name).ok()?;
        let order = Order::empty(alloc);
        orders.push(KeyOrder { key, order }).ok()?;
    }
    Some(orders)
}

/// A history without a row, alone or as one of one hall.
fn one_hall(alloc: Global) -> Option<Histories> {
    let mut halls = Vec::new(alloc);
    halls.push(History::new(alloc, 1)).ok()?;
    Histories::new(halls, None)
}

/// Whether two keys, or two parts, are checked by two workers, which pass the gate.
fn are_checked<R: Threads + Wait, G: CheckGate + Sync>(
    rt: &R,
    alloc: Global,
    checker: Checker,
    gate: &G,
) -> Option<bool> {
    let two = Workers::new(2)?;
    let (halls, orders) = (one_hall(alloc)?, two_orders(alloc)?);
    let orders = orders.as_slice();
    let Ok(true) = are_distinct(alloc, orders) else {
        return None;
    };
    let [history] = halls.halls() else {
        return None;
    };
    let part = Part::empty();
    Some(match checker {
        Checker::Parts => check_all(rt, alloc, &[&part, &part], &[&[], &[]], two, gate).is_ok(),
        Checker::History => check_history(rt, alloc, history, orders, two, gate).is_ok(),
        Checker::Histories => check_histories(rt, alloc, &halls, orders, two, gate).is_ok(),
    })
}

/// Whether two workers are at the gate at once.
fn meet<R: Threads + Wait + Clock + Sync>(rt: &R, alloc: Global, checker: Checker) -> bool {
    let gate = Meeting {
        rt,
        came: AtomicU64::new(0),
        met: AtomicU64::new(0),
    };
    are_checked(rt, alloc, checker, &gate) == Some(true) && gate.met.load(Ordering::SeqCst) == 2
}

/// Whether two workers are at the gate at once, whichever function has them check.
pub fn always_meet<R: Threads + Wait + Clock + Sync>(rt: &R, alloc: Global) -> bool {
    [Checker::Parts, Checker::History, Checker::Histories]
        .iter()
        .all(|checker| meet(rt, alloc, *checker))
}
