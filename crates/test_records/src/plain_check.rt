//! A plain slow check of an order, which follows the definition word for word.

use certificate_check::{Fault, Verdict};
use recorder::{Call, Part, ReturnedRef, ValueRef};
use tag::OpId;

/// The call of that number, if the part has one.
fn call_of<'h>(part: &Part<'h>, op: OpId) -> Option<Call<'h>> {
    for place in 0..part.len() {
        let call = part.call(place);
        if call.op == op {
            return Some(call);
        }
    }
    None
}

fn is_read(call: &Call<'_>) -> bool {
    call.action.written().is_none()
}

fn is_pending_read(call: &Call<'_>) -> bool {
    call.response.is_none() && is_read(call)
}

/// What the last write before the place wrote.
fn last_written<'h>(part: &Part<'h>, before: &[OpId]) -> Option<ValueRef<'h>> {
    for op in before.iter().rev() {
        if let Some(call) = call_of(part, *op) {
            let written = call.action.written();
            if written.is_some() {
                return written;
            }
        }
    }
    None
}

fn answers(returned: &ReturnedRef<'_>, value: Option<ValueRef<'_>>) -> bool {
    match returned.answered() {
        Some(answer) => answer == value,
        None => false,
    }
}

/// Whether the read at the place answers another value than the last write before it wrote.
fn is_wrong(part: &Part<'_>, op: OpId, before: &[OpId]) -> bool {
    let Some(call) = call_of(part, op) else {
        return false;
    };
    let Some(response) = &call.response else {
        return false;
    };
    is_read(&call) && !answers(&response.returned, last_written(part, before))
}

/// Whether the later call has its response before the earlier one's invocation.
fn is_broken(part: &Part<'_>, earlier: OpId, later: OpId) -> bool {
    match (call_of(part, earlier), call_of(part, later)) {
        (Some(a), Some(b)) => match &b.response {
            Some(response) => response.place < a.invoked,
            None => false,
        },
        _ => false,
    }
}

/// The first place before `j` whose call and the one there stand the wrong way round.
fn broken_before(part: &Part<'_>, order: &[OpId], later: OpId, j: usize) -> Option<usize> {
    for (i, earlier) in order.iter().enumerate() {
        if i < j && is_broken(part, *earlier, later) {
            return Some(i);
        }
    }
    None
}

fn first_broken(part: &Part<'_>, order: &[OpId]) -> Option<Fault> {
    for (j, later) in order.iter().enumerate() {
        if let Some(i) = broken_before(part, order, *later, j) {
            return Some(Fault::OrderBroken(i, j));
        }
    }
    None
}

fn first_unknown(part: &Part<'_>, order: &[OpId]) -> Option<Fault> {
    for (i, op) in order.iter().enumerate() {
        if call_of(part, *op).is_none() {
            return Some(Fault::UnknownCall(i));
        }
    }
    None
}

fn first_twice(order: &[OpId]) -> Option<Fault> {
    for (i, op) in order.iter().enumerate() {
        if i <= order.len() && order[..i].contains(op) {
            return Some(Fault::CallTwice(i));
        }
    }
    None
}

fn first_missing(part: &Part<'_>, order: &[OpId]) -> Option<Fault> {
    for place in 0..part.len() {
        let call = part.call(place);
        if call.response.is_some() && !order.contains(&call.op) {
            return Some(Fault::MissingCall(call.op));
        }
    }
    None
}

fn first_pending(part: &Part<'_>, order: &[OpId]) -> Option<Fault> {
    for (i, op) in order.iter().enumerate() {
        if let Some(call) = call_of(part, *op)
            && is_pending_read(&call)
        {
            return Some(Fault::PendingRead(i));
        }
    }
    None
}

fn first_wrong(part: &Part<'_>, order: &[OpId]) -> Option<Fault> {
    for (i, op) in order.iter().enumerate() {
        if i <= order.len() && is_wrong(part, *op, &order[..i]) {
            return Some(Fault::WrongAnswer(i));
        }
    }
    None
}

/// The first fault of an order that lists just the completed calls, and pending ones, once each.
fn first_of_calls(part: &Part<'_>, order: &[OpId]) -> Option<Fault> {
    first_pending(part, order)
        .or(first_wrong(part, order))
        .or(first_broken(part, order))
}

/// The first fault, where there is one.
fn first_fault(part: &Part<'_>, order: &[OpId]) -> Option<Fault> {
    let fault = first_unknown(part, order)
        .or(first_twice(order))
        .or(first_missing(part, order));
    if fault.is_some() {
        return fault;
    }
    first_of_calls(part, order)
}

/// The definition, fault by fault.
pub fn slow_verdict(part: &Part<'_>, order: &[OpId]) -> Verdict {
    match first_fault(part, order) {
        Some(fault) => Verdict::No(fault),
        None => Verdict::Yes,
    }
}
