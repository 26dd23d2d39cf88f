//! Rows of single files: what was read, and what is written of it.
use crate::asked::Asked;
use crate::devices::Narrow;
use crate::formats::{
    Counted, Counting, FaultKind, FileFault, WriteFault, history_text, read_history, read_orders,
    write_history, write_orders, write_text,
};
use crate::notation::bytes_of;
use crate::saying::{say_commands, say_key_orders, say_rows};
use fault_script::{Command, Script, justified_run, parse};
use recorder::{History, KeyOrder};
use std::alloc::{AllocError, Global};
use std::thread::Threads;
use test_rows::{AMPLE, Answer, Bounded, Pieces, extent, say_bytes, spans_of};
use world_steps::Step;

/// A longer text is said by the number of its lines.
const SHORT: usize = 2_000;

/// A reader that gives all at once.
fn whole(left: &[u8]) -> Counting<Pieces<'_>> {
    Counting::new(Pieces::whole(left))
}

/// A writer with that room.
fn writer_of(alloc: Global, room: usize) -> Counting<Bounded> {
    Counting::new(Bounded::new(alloc, room))
}

fn say_written_or_fault(out: &mut Answer, written: Result<(), WriteFault>) {
    match written {
        Ok(()) => out.push("written"),
        Err(fault) => {
            let number = fault.number();
            write!(out, "fault {number} {fault}");
        }
    }
}

/// What was written of what was read from those bytes.
fn say_written(out: &mut Answer, bytes: &[u8], written: &[u8]) {
    if bytes == written {
        out.push("written as it was read\n");
    } else if written.len() > SHORT {
        let ends = written.iter().filter(|byte| **byte == b'\n').count();
        write!(out, "written in {ends} lines\n");
    } else {
        out.push("written:\n");
        say_bytes(out, written);
    }
}

/// The bytes that were written. With ample room only an allocation that is refused stands in the way.
fn all_written(
    out: &mut Answer,
    written: Result<(), WriteFault>,
    writer: Counting<Bounded>,
) -> Vec<u8> {
    if written.is_err() {
        out.refuse();
    }
    writer.into_inner().taken
}

/// The bytes that are written of a history.
fn written_history(out: &mut Answer, history: &History) -> Vec<u8> {
    let mut writer = writer_of(out.alloc(), AMPLE);
    let written = write_history(out.alloc(), history, &mut writer);
    all_written(out, written, writer)
}

/// Says where the bytes aren't the text that is made of the history.
fn compare_text(out: &mut Answer, history: &History, written: &[u8]) {
    match history_text(out.alloc(), history) {
        Ok(made) if made.as_slice() == written => {}
        Ok(_) => out.push("WRITERS DIFFER\n"),
        Err(_) => out.refuse(),
    }
}

/// Says where a history with other rows is read from the bytes.
fn compare_rows(rt: &(impl Threads + Sync), out: &mut Answer, history: &History, written: &[u8]) {
    match read_history(rt, out.alloc(), &mut whole(written)) {
        Ok(again) if again == *history => {}
        Err(fault) if is_memory(&fault) => out.refuse(),
        _ => out.push("READ AGAIN IT DIFFERS\n"),
    }
}

/// Whether an allocation was refused.
fn is_memory(fault: &FileFault) -> bool {
    matches!(fault.kind, FaultKind::Memory)
}

/// The rows of a history that was read from those bytes, and what is written of it.
fn say_history_read(rt: &(impl Threads + Sync), out: &mut Answer, history: &History, bytes: &[u8]) {
    say_rows(out, history);
    let written = written_history(out, history);
    let written = written.as_slice();
    say_written(out, bytes, written);
    compare_text(out, history, written);
    compare_rows(rt, out, history, written);
}

/// How much went out of what goes out where there is room for all.
fn extent_said(found: &[u8], whole: &[u8], room: usize) -> &'static str {
    if found.is_empty() && !whole.is_empty() {
        return "nothing";
    }
    extent(found, whole, room).unwrap_or("ANOTHER TEXT")
}

/// What comes of the history, written with that room.
fn room_answer(
    alloc: Global,
    history: &History,
    bytes: &[u8],
    room: usize,
) -> Result<String, AllocError> {
    let mut answer = Answer::new(alloc);
    let mut writer = writer_of(alloc, room);
    say_written_or_fault(&mut answer, write_history(alloc, history, &mut writer));
    let failures = writer.failures();
    let taken = writer.into_inner().taken;
    let extent = extent_said(taken.as_slice(), bytes, room);
    write!(answer, ", failures {failures}, {extent}");
    answer.text()
}

/// The history written with each room from none to that of its text.
fn say_rooms(out: &mut Answer, history: &History, bytes: &[u8]) {
    let alloc = out.alloc();
    let answer = |room: usize| room_answer(alloc, history, bytes, room);
    out.push_made(spans_of(alloc, 1, 0, bytes.len().saturating_add(1), &answer));
}

/// The rows of a history, and what is written of it.
pub fn say_history_row(rt: &(impl Threads + Sync), out: &mut Answer, asked: Asked<'_>) {
    let bytes = bytes_of(out, asked.lines);
    let bytes = bytes.as_slice();
    match read_history(rt, out.alloc(), &mut whole(bytes)) {
        Ok(history) if asked.has("each-room") => say_rooms(out, &history, bytes),
        Ok(history) => say_history_read(rt, out, &history, bytes),
        Err(fault) => write!(out, "{fault}\n"),
    }
}

/// Whether both have the same keys and calls.
fn are_equal(first: &[KeyOrder], second: &[KeyOrder]) -> bool {
    if first.len() != second.len() {
        return false;
    }
    for (one, other) in first.iter().zip(second) {
        if one.key != other.key || one.order.as_slice() != other.order.as_slice() {
            return false;
        }
    }
    true
}

/// The bytes that are written of orders.
fn written_orders(out: &mut Answer, orders: &[KeyOrder]) -> Vec<u8> {
    let mut writer = writer_of(out.alloc(), AMPLE);
    let written = write_orders(out.alloc(), orders, &mut writer);
    all_written(out, written, writer)
}

/// Says where other orders are read from the bytes.
fn compare_orders(
    rt: &(impl Threads + Sync),
    out: &mut Answer,
    orders: &[KeyOrder],
    written: &[u8],
) {
    match read_orders(rt, out.alloc(), &mut whole(written)) {
        Ok(again) if are_equal(orders, again.as_slice()) => {}
        Err(fault) if is_memory(&fault) => out.refuse(),
        _ => out.push("READ AGAIN THEY DIFFER\n"),
    }
}

/// Orders that were read from those bytes, and what is written of them.
fn say_orders_read(
    rt: &(impl Threads + Sync),
    out: &mut Answer,
    orders: &[KeyOrder],
    bytes: &[u8],
) {
    say_key_orders(out, orders);
    let written = written_orders(out, orders);
    say_written(out, bytes, written.as_slice());
    compare_orders(rt, out, orders, written.as_slice());
}

/// The orders that are read, and what is written of them.
pub fn say_orders_row(rt: &(impl Threads + Sync), out: &mut Answer, lines: &str) {
    let bytes = bytes_of(out, lines);
    match read_orders(rt, out.alloc(), &mut whole(bytes.as_slice())) {
        Ok(orders) => say_orders_read(rt, out, orders.as_slice(), bytes.as_slice()),
        Err(fault) => write!(out, "{fault}\n"),
    }
}

/// A script of those lines: its settings and commands, or with `steps` the orders that come with the run of
/// its steps; or its fault.
pub fn say_script_row(rt: &(impl Threads + Sync), out: &mut Answer, asked: Asked<'_>) {
    let bytes = bytes_of(out, asked.lines);
    match parse(rt, out.alloc(), &mut whole(bytes.as_slice())) {
        Ok(script) if asked.kind() == "steps" => say_steps(out, script),
        Ok(script) => say_commands(out, &script),
        Err(error) => write!(out, "{error}\n"),
    }
}

/// The steps among the commands.
fn steps_of(out: &mut Answer, script: Script) -> Vec<Step> {
    let mut steps = Vec::new(out.alloc());
    for numbered in script.commands {
        if let Command::Step(step) = numbered.command
            && steps.push(step).is_err()
        {
            out.refuse();
        }
    }
    steps
}

/// The orders that come with the run of a script's steps.
fn say_steps(out: &mut Answer, script: Script) {
    let config = script.config;
    let steps = steps_of(out, script);
    match justified_run(out.alloc(), config, steps.as_slice()) {
        Ok((_, orders)) => say_key_orders(out, orders.as_slice()),
        Err(_) => out.push("no memory\n"),
    }
}

/// What a writer with those faults makes of the orders and of a text.
fn say_narrow(out: &mut Answer, orders: &[KeyOrder], asked: Asked<'_>) {
    let mut writer = Counting::new(Narrow::asked(asked));
    let written = write_orders(out.alloc(), orders, &mut writer);
    out.push("orders: ");
    say_written_or_fault(out, written);
    out.push(", text: ");
    say_written_or_fault(out, write_text(b"text", &mut writer));
    let failures = writer.failures();
    write!(out, ", failures {failures}\n");
}

/// The order of calls 0, 1 and 2 of `x`, and a text, each line a writer that takes them.
pub fn say_writers_row(rt: &(impl Threads + Sync), out: &mut Answer, lines: &str) {
    let bytes = bytes_of(out, "<orders>{\"key\":\"x\",\"order\":[0,1,2]}");
    match read_orders(rt, out.alloc(), &mut whole(bytes.as_slice())) {
        Ok(orders) => say_narrow_lines(out, orders.as_slice(), lines),
        Err(fault) => write!(out, "{fault}\n"),
    }
}

/// What each line's writer makes of the orders and of a text.
fn say_narrow_lines(out: &mut Answer, orders: &[KeyOrder], lines: &str) {
    for line in lines.lines() {
        say_narrow(out, orders, Asked::new(line));
    }
}
