//! What was read, as texts.
use crate::formats::{FaultKind, FileFault};
use client_phases::ReadMode;
use fault_script::{Command, ErrorKind, Script, ScriptError};
use recorder::{ActionRef, History, KeyOrder, ReturnedRef, Row};
use tag::{Action, OpId};
use test_rows::{Answer, RowSaid, said_by};
use world_steps::{Config, Step};

/// The most calls of an order that are said one by one.
const FEW: usize = 10;

/// How a file was read: well, up to a device's fault, or up to another one.
#[derive(Clone, Copy)]
pub enum Outcome {
    Good,
    Device,
    Other,
}

/// Says the fault of a file.
fn say_fault(out: &mut Answer, fault: &FileFault) -> Outcome {
    write!(out, "{fault}");
    match fault.kind {
        FaultKind::Device => Outcome::Device,
        _ => Outcome::Other,
    }
}

/// A line on what a history has, or its fault.
pub fn say_history(out: &mut Answer, read: &Result<History, FileFault>) -> Outcome {
    match read {
        Ok(history) => {
            let (calls, rows) = (history.calls(), history.row_count());
            write!(out, "good, calls: {calls}, rows: {rows}");
            Outcome::Good
        }
        Err(fault) => say_fault(out, fault),
    }
}

/// A line on what orders have, or their fault.
pub fn say_orders(out: &mut Answer, read: &Result<Vec<KeyOrder>, FileFault>) -> Outcome {
    match read {
        Ok(orders) => {
            let (keys, calls) = (orders.len(), calls_of(orders.as_slice()));
            write!(out, "good, keys: {keys}, calls: {calls}");
            Outcome::Good
        }
        Err(fault) => say_fault(out, fault),
    }
}

/// How many calls the orders have.
fn calls_of(orders: &[KeyOrder]) -> usize {
    let mut calls = 0usize;
    for order in orders {
        calls = calls.saturating_add(order.order.as_slice().len());
    }
    calls
}

/// A line on what a script has, or its fault.
pub fn say_script(out: &mut Answer, read: &Result<Script, ScriptError>) -> Outcome {
    match read {
        Ok(script) => {
            let commands = script.commands.len();
            write!(out, "good, commands: {commands}");
            Outcome::Good
        }
        Err(error) => {
            write!(out, "{error}");
            match error.kind {
                ErrorKind::Device => Outcome::Device,
                _ => Outcome::Other,
            }
        }
    }
}

fn say_action(out: &mut Answer, action: &ActionRef<'_>) {
    match action.written() {
        None => out.push("read"),
        Some(value) => {
            let text = value.as_str();
            write!(out, "write {text:?}");
        }
    }
}

fn say_returned(out: &mut Answer, returned: &ReturnedRef<'_>) {
    match returned.answered() {
        None => out.push("written"),
        Some(None) => out.push("absent"),
        Some(Some(value)) => {
            let text = value.as_str();
            write!(out, "{text:?}");
        }
    }
}

fn say_row(out: &mut Answer, row: &Row<'_>) {
    let (op, said) = said_by(row);
    write!(out, "call {op} ");
    match said {
        RowSaid::Invoked(client, key, action) => {
            write!(out, "by client {} on {}: ", client.get(), key.as_str());
            say_action(out, action);
        }
        RowSaid::Noted(tag) => {
            let (number, writer) = (tag.number(), tag.writer());
            write!(out, "has tag {number} of {writer}");
        }
        RowSaid::Answered(returned) => {
            out.push("answers ");
            say_returned(out, returned);
        }
    }
}

/// A line for each row.
pub fn say_rows(out: &mut Answer, history: &History) {
    for place in 0..history.row_count() {
        say_row(out, &history.row(place));
        out.push("\n");
    }
}

/// The calls of an order, or their number where they are many.
fn say_calls(out: &mut Answer, calls: &[OpId]) {
    if calls.len() > FEW {
        let count = calls.len();
        write!(out, " {count} calls");
    } else {
        for call in calls {
            let call = call.0;
            write!(out, " {call}");
        }
    }
}

/// A line for each key, with its calls.
pub fn say_key_orders(out: &mut Answer, orders: &[KeyOrder]) {
    for order in orders {
        out.push(order.key.as_str());
        out.push(":");
        say_calls(out, order.order.as_slice());
        out.push("\n");
    }
}

fn say_settings(out: &mut Answer, config: Config) {
    let reads = match config.reads() {
        ReadMode::Short => "short",
        ReadMode::Full => "full",
    };
    let (replicas, calls, flights) = (config.replicas(), config.calls(), config.flights());
    let (ask, put) = (config.quorums().ask(), config.quorums().put());
    write!(
        out,
        "replicas {replicas}, calls {calls}, flights {flights}, "
    );
    write!(out, "reads {reads}, ask {ask}, put {put}\n");
}

/// What a command writes, if it invokes a write.
fn written_by(command: &Command) -> Option<&str> {
    match command {
        Command::Step(
            Step::Invoke {
                action: Action::Write(value),
                ..
            },
        ) => Some(value.as_str()),
        _ => None,
    }
}

/// A script's settings, and for each command its line and, of a write, the value.
pub fn say_commands(out: &mut Answer, script: &Script) {
    say_settings(out, script.config);
    for numbered in &script.commands {
        let line = numbered.line;
        match written_by(&numbered.command) {
            Some(text) => write!(out, "line {line}: writes {text:?}\n"),
            None => write!(out, "line {line}\n"),
        }
    }
}
