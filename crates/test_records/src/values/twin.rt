//! What is decided beside a search over all orders, on drawn parts.

use super::draws::drawn;
use super::search::has_order;
use crate::words::two_numbers;
use certificate_check::{Verdict, check_part};
use recorder::{History, Order, Part};
use std::alloc::Global;
use test_rows::Answer;
use value_order::{Decision, order_by_values};

/// Whether the order is one of the part; nothing if memory was refused.
fn is_order(alloc: Global, part: &Part<'_>, order: &Order) -> Option<bool> {
    match check_part(alloc, part, order.as_slice()) {
        Ok(verdict) => Some(verdict == Verdict::Yes),
        Err(_) => None,
    }
}

/// Whether what is decided of the part is so; nothing if memory was refused.
fn is_right(alloc: Global, part: &Part<'_>) -> Option<bool> {
    let Ok(some) = has_order(alloc, part) else {
        return None;
    };
    match order_by_values(alloc, part) {
        Ok(Decision::Atomic(order)) if some => is_order(alloc, part, &order),
        Ok(Decision::Atomic(_)) => Some(false),
        Ok(Decision::NotAtomic(_)) => Some(!some),
        Ok(Decision::Undecided(_)) => Some(true),
        Err(_) => None,
    }
}

/// The same of the calls of a history, which are all on one key.
fn is_right_of(alloc: Global, history: &History) -> Option<bool> {
    match history.parts() {
        Ok(parts) if parts.len() == 0 => Some(true),
        Ok(parts) => {
            let (_, part) = parts.entry(0);
            is_right(alloc, &part)
        }
        Err(_) => None,
    }
}

fn is_right_drawn(alloc: Global, seed: u64) -> Option<bool> {
    match drawn(alloc, seed) {
        Some(history) => is_right_of(alloc, &history),
        None => None,
    }
}

/// Says of how many drawn parts the decision is right: those of the numbers from one on and below the
/// other.
pub fn say_drawn(out: &mut Answer, range: &str) {
    let (from, to) = two_numbers(range).unwrap_or((0, 0));
    let mut right = 0u32;
    for number in from..to {
        match is_right_drawn(out.alloc(), u64::from(number)) {
            Some(true) => right = right.saturating_add(1),
            Some(false) => {}
            None => return out.refuse(),
        }
    }
    write!(out, "{right} decisions right\n");
}
