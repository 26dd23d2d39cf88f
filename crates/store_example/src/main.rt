//! A store of three replicas and two halls, as a program would use it: two callers in threads of their own
//! write and read, while every fifth parcel is lost. The store is then closed, and the order of each key's
//! calls that it leaves is checked.
#![tactic(auto)]

use certificate_check::check_part;
use node_threads::{Answer, Closed, ClosedHall, Gate, Pass, Place, Seat, Store, StoreConfig};
use recorder::{Halls, KeyOrder, Parts};
use std::alloc::{AllocError, Global};
use std::process::ExitCode;
use std::sync::Wait;
use std::sync::atomic::{AtomicU64, Ordering};
use std::thread;
use std::thread::Threads;
use tag::{Action, ClientId, Key, OpId, Value};
use world_steps::Config;

/// Loses every fifth parcel.
#[derive(Drop)]
struct EveryFifth {
    parcels: AtomicU64,
}

impl Gate for EveryFifth {
    ghost answers = { λ gate place pass. Unit {0} };

    fn at(&self, place: &Place) -> Pass {
        match place {
            Place::Respond { .. } => Pass::Go,
            Place::Request { .. } | Place::Reply { .. } => {
                if self.parcels.fetch_add(1, Ordering::SeqCst) % 5 == 4 {
                    Pass::Drop
                } else {
                    Pass::Go
                }
            }
        }
    }
}

/// What a caller saw of its calls.
#[derive(Clone, Copy, Debug, Drop)]
struct Tally {
    /// How many were answered.
    answered: u32,
    /// How many reads gave what the caller wrote last.
    right: u32,
}

/// A caller: the store that it calls, and the key of its calls.
#[derive(Drop)]
struct Caller<'a, R, G> {
    rt: &'a R,
    alloc: Global,
    store: &'a Store<G>,
    key: Key,
}

impl<R: Wait, G: Gate> Caller<'_, R, G> {
    /// Makes a call on the key.
    fn call(&self, seat: &mut Seat, action: Action) -> Option<Answer> {
        let key = self.key.copy().ok()?;
        self.store.call(self.rt, self.alloc, seat, key, action).ok()
    }

    /// Writes a text to the key. Whether that was answered.
    fn write(&self, seat: &mut Seat, text: &str) -> bool {
        match Value::new(self.alloc, text) {
            Ok(value) => self.call(seat, Action::Write(value)).is_some(),
            Err(_) => false,
        }
    }

    /// Writes a text to the key and reads it back. Whether the read gave the text; none if a call wasn't answered.
    fn write_and_read(&self, seat: &mut Seat, text: &str) -> Option<bool> {
        if !self.write(seat, text) {
            return None;
        }
        match self.call(seat, Action::Read)?.value {
            Some(found) => Some(found.as_str() == text),
            None => Some(false),
        }
    }

    /// Writes a text and reads it, so many times.
    fn calls(&self, seat: &mut Seat, times: u32) -> Tally {
        let mut tally = Tally {
            answered: 0,
            right: 0,
        };
        for time in 0..times {
            let text = if time % 2 == 0 { "even" } else { "odd" };
            let Some(is_right) = self.write_and_read(seat, text) else {
                return tally;
            };
            tally.answered = u32::saturating_add(tally.answered, 2);
            if is_right {
                tally.right = u32::saturating_add(tally.right, 1);
            }
        }
        tally
    }
}

/// A store of three replicas and two halls.
fn start<R>(rt: &R, alloc: Global) -> Option<Store<EveryFifth>>
where
    R: Threads + Wait + Copy + Send + Sync + 'static,
{
    let config = StoreConfig {
        store: 1,
        world: Config::new(3, 1000, 1_000_000)?,
        rounds: 1000,
        halls: Halls::new(2)?,
    };
    let gate = EveryFifth {
        parcels: AtomicU64::new(0),
    };
    Store::start(rt, alloc, config, gate).ok()
}

/// Two callers at once, each on a key of its own. What they saw.
fn callers<R, G>(
    rt: &R,
    alloc: Global,
    store: &Store<G>,
    first: &mut Seat,
    second: &mut Seat,
) -> Option<(Tally, Tally)>
where
    R: Threads + Wait + Copy + Send + Sync + 'static,
    G: Gate + Send + Sync + Drop + 'static,
{
    let apples = Caller {
        rt,
        alloc,
        store,
        key: Key::new(alloc, "apples").ok()?,
    };
    let limes = Caller {
        rt,
        alloc,
        store,
        key: Key::new(alloc, "limes").ok()?,
    };
    let (one, two) = (&apples, &limes);
    Some(thread::join(
        rt,
        move || one.calls(first, 25),
        move || two.calls(second, 25),
    ))
}

/// Both seats.
fn both(alloc: Global, first: Seat, second: Seat) -> Option<Vec<Seat>> {
    let mut seats = Vec::new(alloc);
    seats.push(first).ok()?;
    seats.push(second).ok()?;
    Some(seats)
}

/// Has two callers call a store, and closes it. What they saw, and what the store leaves.
fn run<R>(rt: &R, alloc: Global) -> Option<((Tally, Tally), Closed)>
where
    R: Threads + Wait + Copy + Send + Sync + 'static,
{
    let (one, two) = (ClientId::new(1).ok()?, ClientId::new(2).ok()?);
    let store = start(rt, alloc)?;
    let mut first = store.join(rt, alloc, one).ok()?;
    let mut second = store.join(rt, alloc, two).ok()?;
    let seen = callers(rt, alloc, &store, &mut first, &mut second);
    let seats = both(alloc, first, second)?;
    let closed = store.close(rt, alloc, seats).ok()?;
    match seen {
        Some(tallies) => Some((tallies, closed)),
        None => None,
    }
}

/// Says the calls of an order by their numbers, a blank before each.
fn say_calls(out: &mut String, order: &[OpId]) -> Result<(), AllocError> {
    for call in order {
        let number = call.0;
        write!(out, " {number}")?;
    }
    Ok(())
}

/// A line for a key: the order of its calls, and the verdict on it.
fn say_key(alloc: Global, out: &mut String, parts: &Parts<'_>, key_order: &KeyOrder) -> Option<()> {
    let order = key_order.order.as_slice();
    let part = parts.get(&key_order.key)?;
    let verdict = check_part(alloc, &part, order).ok()?;
    out.push_str(key_order.key.as_str()).ok()?;
    out.push_str(":").ok()?;
    say_calls(out, order).ok()?;
    write!(out, ": {verdict}\n").ok()
}

/// A line for each key of a hall.
fn say_hall(alloc: Global, out: &mut String, hall: &ClosedHall) -> Option<()> {
    let parts = hall.history.parts().ok()?;
    for key_order in &hall.orders {
        say_key(alloc, out, &parts, key_order)?;
    }
    Some(())
}

/// The lines for the keys of all halls.
fn lines_of(alloc: Global, closed: &Closed) -> Option<String> {
    let mut lines = String::new(alloc);
    for hall in &closed.halls {
        say_hall(alloc, &mut lines, hall)?;
    }
    Some(lines)
}

/// Says what the callers saw, and the verdict on each key.
fn say<R>(rt: &HostRuntime, threads: &R) -> Option<()>
where
    R: Threads + Wait + Copy + Send + Sync + 'static,
{
    let ((one, two), closed) = run(threads, rt.alloc())?;
    let lines = lines_of(rt.alloc(), &closed)?;
    rt.println(format_args!(
        "answered {} and {}, right {} and {}",
        one.answered, two.answered, one.right, two.right
    ))
    .ok()?;
    rt.print(lines.as_str()).ok()
}

fn main(rt: HostRuntime) -> ExitCode {
    match say(&rt, &rt) {
        Some(()) => ExitCode::SUCCESS,
        None => ExitCode::FAILURE,
    }
}
