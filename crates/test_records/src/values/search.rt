//! A plain search over all orders of a part of up to seven calls: sets of calls that may come first, each
//! with the value after them.

use recorder::{Call, Part};
use std::alloc::{AllocError, Global};

/// The sets that have one call alone.
const ALONE: [usize; 7] = [1, 2, 4, 8, 16, 32, 64];

/// Values in numbers: 0 is nothing.
fn number_of(text: &str) -> usize {
    match text {
        "a" => 1,
        "b" => 2,
        _ => 3,
    }
}

/// Whether the set has the call.
fn has(set: usize, i: usize) -> bool {
    match ALONE.get(i) {
        Some(alone) => set & *alone != 0,
        None => true,
    }
}

/// Whether the call may come next after those of the set: it isn't one, and none that is left precedes it.
fn may_follow(part: &Part<'_>, set: usize, i: usize, call: &Call<'_>) -> bool {
    for j in 0..part.len() {
        if !has(set, j) && j != i {
            if let Some(end) = part.state(j).response {
                if (end as usize) < call.invoked {
                    return false;
                }
            }
        }
    }
    !has(set, i)
}

/// The value after the call, if it may come after that one; pending reads are left out.
fn value_after(call: &Call<'_>, value: usize) -> Option<usize> {
    if let Some(written) = call.action.written() {
        return Some(number_of(written.as_str()));
    }
    let Some(response) = &call.response else {
        return None;
    };
    let answer = match response.returned.answered() {
        Some(Some(value)) => number_of(value.as_str()),
        _ => 0,
    };
    if answer == value { Some(value) } else { None }
}

/// Where a set and a value stand in the table.
fn place_of(set: usize, value: usize) -> usize {
    set.saturating_mul(4).saturating_add(value)
}

fn is_reached(reached: &[bool], set: usize, value: usize) -> bool {
    match reached.get(place_of(set, value)) {
        Some(is) => *is,
        None => false,
    }
}

/// Adds the sets with the call that come of that set.
fn add(reached: &mut [bool], set: usize, i: usize, call: &Call<'_>) {
    let Some(alone) = ALONE.get(i) else {
        return;
    };
    for value in 0..4 {
        if is_reached(reached, set, value)
            && let Some(after) = value_after(call, value)
            && let Some(place) = reached.get_mut(place_of(set | *alone, after))
        {
            *place = true;
        }
    }
}

/// Adds all sets that come of that one.
fn extend(reached: &mut [bool], part: &Part<'_>, set: usize) {
    for i in 0..part.len() {
        let call = part.call(i);
        if may_follow(part, set, i, &call) {
            add(reached, set, i, &call);
        }
    }
}

/// Whether the set has each completed call.
fn is_whole(part: &Part<'_>, set: usize) -> bool {
    for i in 0..part.len() {
        if part.state(i).response.is_some() && !has(set, i) {
            return false;
        }
    }
    true
}

/// Whether a set with that number was reached that has each completed call.
fn is_end(reached: &[bool], part: &Part<'_>, set: usize) -> bool {
    for value in 0..4 {
        if is_reached(reached, set, value) && is_whole(part, set) {
            return true;
        }
    }
    false
}

/// Whether the part of up to seven calls has an order.
pub fn has_order(alloc: Global, part: &Part<'_>) -> Result<bool, AllocError> {
    let mut reached = vec![in alloc; false; 512]?;
    if let Some(place) = reached.get_mut(0) {
        *place = true;
    }
    for set in 0..128 {
        if is_end(reached.as_slice(), part, set) {
            return Ok(true);
        }
        extend(&mut reached, part, set);
    }
    Ok(false)
}
