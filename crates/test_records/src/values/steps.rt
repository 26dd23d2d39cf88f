//! Steps on a history: each call is its own client's.

use recorder::History;
use std::alloc::Global;
use tag::{Action, ClientId, Key, OpId, Returned, Value};

/// Begins the next call.
pub fn begin(alloc: Global, history: &mut History, action: Action) -> Option<()> {
    let number = u32::try_from(history.calls()).ok()?;
    let client = ClientId::new(number.saturating_add(1)).ok()?;
    let key = Key::new(alloc, "x").ok()?;
    history.invoke(client, key, action).ok()?;
    Some(())
}

/// What a read answers.
pub fn answered(alloc: Global, text: &str) -> Option<Returned> {
    Some(Returned::Value(Some(Value::new(alloc, text).ok()?)))
}

/// Answers the call, which the words say as `done`, `none` or `value TEXT`.
fn respond(alloc: Global, history: &mut History, call: u32, words: &str) -> Option<()> {
    let returned = match words {
        "done" => Returned::Written,
        "none" => Returned::Value(None),
        _ => answered(alloc, words.strip_prefix("value ")?)?,
    };
    history.respond(OpId(call), returned).ok()
}

/// Takes a line: `write TEXT`, `read`, or a call's number and its answer.
pub fn take(alloc: Global, history: &mut History, line: &str) -> Option<()> {
    if line == "read" {
        return begin(alloc, history, Action::Read);
    }
    let (word, rest) = line.split_once(' ')?;
    if word == "write" {
        return begin(alloc, history, Action::Write(Value::new(alloc, rest).ok()?));
    }
    respond(alloc, history, word.parse::<u32>().ok()?, rest)
}
