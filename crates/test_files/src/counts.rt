//! Rows of counted failures, and of the faults' numbers and texts.
use crate::asked::Asked;
use crate::devices::Narrow;
use crate::formats::{Counted, Counting, FaultKind, FileFault, LineFault, WriteFault};
use fault_script::{ErrorKind, ScriptError, SimulateError};
use std::io::{Read, Write};
use test_rows::{Answer, Pieces};

/// What a reader has counted after each of four reads with room for 8 bytes.
pub fn say_counted_reads(out: &mut Answer, asked: Asked<'_>) {
    let mut reader = Counting::new(Pieces {
        left: asked.lines.trim_end().as_bytes(),
        size: asked.number("pieces", 1),
        failure: asked.failure(),
    });
    let mut room = [0u8; 8];
    for _ in 0..4 {
        let _ = reader.read(&mut room);
        let (given, failures) = (reader.given(), reader.failures());
        write!(out, "given {given}, failures {failures}\n");
    }
}

/// What a writer has counted after it was given the line's text, or was flushed.
fn say_counted_write(out: &mut Answer, asked: Asked<'_>) {
    let fails = asked.has("fails");
    let mut writer = Counting::new(Narrow::asked(asked));
    if asked.has("flush") {
        let _ = writer.flush();
    } else {
        let _ = writer.write(asked.value("text").as_bytes());
    }
    let failures = writer.failures();
    let kept = if writer.into_inner().fails == fails {
        ""
    } else {
        ", another writer"
    };
    write!(out, "failures {failures}{kept}\n");
}

/// A line for each writer.
pub fn say_counted_writes(out: &mut Answer, lines: &str) {
    for line in lines.lines() {
        say_counted_write(out, Asked::new(line));
    }
}

/// What may be wrong with a line of a history or of orders.
const LINE_FAULTS: [LineFault; 12] = [
    LineFault::NotJson,
    LineFault::NoHeader,
    LineFault::Version,
    LineFault::Member,
    LineFault::Range,
    LineFault::CallOutOfTurn,
    LineFault::ClientBusy,
    LineFault::CallNotPending,
    LineFault::WrongKind,
    LineFault::NoteTwice,
    LineFault::TooLong,
    LineFault::TooManyCalls,
];

/// What may be wrong with a line of a script.
const SCRIPT_FAULTS: [fault_script::LineFault; 6] = [
    fault_script::LineFault::NotUtf8,
    fault_script::LineFault::NoReplicas,
    fault_script::LineFault::UnknownCommand,
    fault_script::LineFault::Range,
    fault_script::LineFault::TooLong,
    fault_script::LineFault::TooManyCommands,
];

/// What is wrong with line 7 of a history or of orders.
fn say_file_fault(out: &mut Answer, kind: FaultKind) {
    write!(out, "{}\n", FileFault { line: 7, kind });
}

/// What is wrong with line 7 of a script.
fn say_script_fault(out: &mut Answer, kind: ErrorKind) {
    write!(out, "{}\n", ScriptError { line: 7, kind });
}

/// All faults of histories and orders, or of scripts.
pub fn say_faults(out: &mut Answer, is_script: bool) {
    if is_script {
        for fault in SCRIPT_FAULTS {
            say_script_fault(out, ErrorKind::Line(fault));
        }
        say_script_fault(out, ErrorKind::Device);
        say_script_fault(out, ErrorKind::Memory);
    } else {
        for fault in LINE_FAULTS {
            say_file_fault(out, FaultKind::Line(fault));
        }
        say_file_fault(out, FaultKind::Device);
        say_file_fault(out, FaultKind::Memory);
    }
}

/// The faults of writing, by number, and the errors of simulations.
pub fn say_other_faults(out: &mut Answer) {
    for fault in [WriteFault::Device, WriteFault::Memory] {
        write!(out, "fault {} {fault}\n", fault.number());
    }
    let kind = ErrorKind::Line(fault_script::LineFault::Range);
    for error in [
        SimulateError::Script(ScriptError { line: 7, kind }),
        SimulateError::Memory,
        SimulateError::Device,
    ] {
        write!(out, "{error}\n");
    }
}
