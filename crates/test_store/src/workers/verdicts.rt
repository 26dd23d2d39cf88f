//! Worked orders of one history.
use certificate_check::Verdict;
use parallel_keys::{NoGate, Workers, are_distinct, check_history};
use recorder::{History, KeyOrder, Order};
use std::alloc::{AllocError, Global};
use std::sync::Wait;
use std::thread::Threads;
use tag::{Action, ClientId, Key, OpId, Returned, Tag, Value};

/// A row: the order that is given for `x`, and what is said of it.
struct Worked {
    order: &'static [u32],
    said: &'static str,
}

const ROWS: [Worked; 6] = [
    Worked {
        order: &[0, 999_999],
        said: "x no 1 unknown call at 1;",
    },
    Worked {
        order: &[0, 0],
        said: "x no 2 call twice at 1;",
    },
    Worked {
        order: &[],
        said: "x no 3 missing call 0;",
    },
    Worked {
        order: &[0, 1],
        said: "x no 4 pending read at 1;",
    },
    Worked {
        order: &[1, 0, 0],
        said: "x no 2 call twice at 2;",
    },
    Worked {
        order: &[0],
        said: "x yes;",
    },
];

/// What is said of an order of call 0 for `z`, on which no call is.
const SAID_OF_Z: &str = "z no 1 unknown call at 0;";

/// Begins a call on `x`.
fn begin(alloc: Global, history: &mut History, client: u32, action: Action) -> Option<OpId> {
    let Ok(client) = ClientId::new(client) else {
        return None;
    };
    let Ok(key) = Key::new(alloc, "x") else {
        return None;
    };
    history.invoke(client, key, action).ok()
}

/// Begins a write of `a` to `x`.
fn begin_write(alloc: Global, history: &mut History) -> Option<OpId> {
    let value = Value::new(alloc, "a").ok()?;
    begin(alloc, history, 1, Action::Write(value))
}

/// Notes a tag of the write, and answers it.
fn complete(history: &mut History, write: OpId) -> Option<()> {
    history.note(write, Tag::new(1, 1)?).ok()?;
    history.respond(write, Returned::Written).ok()
}

/// Adds call 0, a completed write of `a` to `x`, and call 1, a pending read of `x`.
fn add_calls(alloc: Global, history: &mut History) -> Option<OpId> {
    let write = begin_write(alloc, history)?;
    complete(history, write)?;
    begin(alloc, history, 2, Action::Read)
}

fn key_order(alloc: Global, key: &str, ops: &[u32]) -> Option<KeyOrder> {
    let mut order = Order::empty(alloc);
    for op in ops {
        order.push(OpId(*op)).ok()?;
    }
    let key = Key::new(alloc, key).ok()?;
    Some(KeyOrder { key, order })
}

/// The orders of a row, and one of `z` too, if it is asked for.
fn orders(alloc: Global, ops: &[u32], has_z: bool) -> Option<Vec<KeyOrder>> {
    let mut orders = Vec::new(alloc);
    orders.push(key_order(alloc, "x", ops)?).ok()?;
    if has_z {
        orders.push(key_order(alloc, "z", &[0])?).ok()?;
    }
    Some(orders)
}

/// Says the verdicts.
fn say(said: &mut String, verdicts: &[(Key, Verdict)]) -> Result<(), AllocError> {
    for (key, verdict) in verdicts {
        let name = key.as_str();
        write!(said, "{name} {verdict};")?;
    }
    Ok(())
}

/// Whether that was said: what has to be said of `x`, and then of `z` if it is asked for.
fn is_right(said: &str, row: &Worked, has_z: bool) -> bool {
    match said.strip_prefix(row.said) {
        Some(rest) => rest == if has_z { SAID_OF_Z } else { "" },
        None => false,
    }
}

/// Whether so many workers say of the row's order what has to be said.
fn is_checked<R: Threads + Wait>(
    rt: &R,
    alloc: Global,
    orders: &[KeyOrder],
    row: &Worked,
    workers: u8,
) -> bool {
    let Some(workers) = Workers::new(workers) else {
        return false;
    };
    let Ok(true) = are_distinct(alloc, orders) else {
        return false;
    };
    let mut history = History::new(alloc, 10);
    if add_calls(alloc, &mut history).is_none() {
        return false;
    }
    let checked = check_history(rt, alloc, &history, orders, workers, &NoGate);
    let Ok(verdicts) = checked else {
        return false;
    };
    let mut said = String::new(alloc);
    say(&mut said, verdicts.as_slice()).is_ok() && is_right(said.as_str(), row, orders.len() > 1)
}

/// Whether so many workers say of the row what has to be said.
fn is_said<R: Threads + Wait>(
    rt: &R,
    alloc: Global,
    row: &Worked,
    has_z: bool,
    workers: u8,
) -> bool {
    let Some(orders) = orders(alloc, row.order, has_z) else {
        return false;
    };
    is_checked(rt, alloc, orders.as_slice(), row, workers)
}

/// Whether every number of workers says of each row what has to be said.
pub fn say_the_same<R: Threads + Wait>(rt: &R, alloc: Global) -> bool {
    for row in &ROWS {
        for workers in [1, 2, 16] {
            for has_z in [false, true] {
                if !is_said(rt, alloc, row, has_z, workers) {
                    return false;
                }
            }
        }
    }
    true
}
