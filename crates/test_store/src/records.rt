//! What the records of a closed store have to say.
use certificate_check::{Verdict, check_part};
use node_threads::{Closed, ClosedHall};
use recorder::{KeyOrder, Parts, Row};
use std::alloc::Global;

/// Whether each key of each hall has an order that is one of its calls.
pub fn are_atomic(alloc: Global, closed: &Closed) -> bool {
    for hall in &closed.halls {
        if !is_atomic(alloc, hall) {
            return false;
        }
    }
    true
}

/// Whether each key of the hall has an order that is one of its calls.
fn is_atomic(alloc: Global, hall: &ClosedHall) -> bool {
    match hall.history.parts() {
        Ok(parts) => have_orders(alloc, &parts, hall.orders.as_slice()),
        Err(_) => false,
    }
}

/// Whether these are the keys of the parts, and the order of each is one of its calls.
fn have_orders(alloc: Global, parts: &Parts<'_>, orders: &[KeyOrder]) -> bool {
    for key_order in orders {
        if is_in_order(alloc, parts, key_order) != Some(true) {
            return false;
        }
    }
    parts.len() == orders.len()
}

/// Whether the order is one of its key's calls.
fn is_in_order(alloc: Global, parts: &Parts<'_>, key_order: &KeyOrder) -> Option<bool> {
    let part = parts.get(&key_order.key)?;
    let verdict = check_part(alloc, &part, key_order.order.as_slice()).ok()?;
    Some(verdict == Verdict::Yes)
}

/// Whether the record of the only hall is the invocation of one call.
pub fn has_one_pending_call(closed: &Closed) -> bool {
    match closed.halls.as_slice() {
        [hall] => {
            hall.history.row_count() == 1 && matches!(hall.history.row(0), Row::Invoke { .. })
        }
        _ => false,
    }
}
