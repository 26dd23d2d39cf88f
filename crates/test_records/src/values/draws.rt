//! Drawn histories of up to seven calls, pending ones among them, in which values come again.

use super::steps::{answered, begin};
use recorder::History;
use std::alloc::Global;
use tag::{Action, OpId, Returned, Value};

/// The next number of a row of numbers.
fn next(state: u64) -> u64 {
    state
        .wrapping_mul(6_364_136_223_846_793_005)
        .wrapping_add(1_442_695_040_888_963_407)
}

/// One of three values.
fn text_of(number: u64) -> &'static str {
    match number % 3 {
        0 => "a",
        1 => "b",
        _ => "c",
    }
}

fn action_of(alloc: Global, number: u64) -> Option<Action> {
    if number % 2 == 0 {
        return Some(Action::Read);
    }
    Some(Action::Write(Value::new(alloc, text_of(number / 2)).ok()?))
}

/// Answers the call, if it may be so; a read answers nothing in one of eight.
fn answer(alloc: Global, history: &mut History, call: u32, number: u64) -> Option<()> {
    let _ = history.respond(OpId(call), Returned::Written);
    let returned = if number % 8 == 0 {
        Returned::Value(None)
    } else {
        answered(alloc, text_of(number / 8))?
    };
    let _ = history.respond(OpId(call), returned);
    Some(())
}

/// A step: a call begins, or one is answered.
fn step(alloc: Global, history: &mut History, number: u64) -> Option<()> {
    let calls = u64::try_from(history.calls()).unwrap_or(0);
    if number % 2 == 0 && calls < 7 {
        return begin(alloc, history, action_of(alloc, number / 2)?);
    }
    let call = u32::try_from((number / 2).checked_rem(calls).unwrap_or(0)).ok()?;
    answer(alloc, history, call, number / 16)
}

/// The drawn history of that number.
pub fn drawn(alloc: Global, seed: u64) -> Option<History> {
    let mut history = History::new(alloc, 7);
    let mut state = next(seed);
    for _ in 0..22 {
        state = next(state);
        step(alloc, &mut history, state >> 33)?;
    }
    Some(history)
}
