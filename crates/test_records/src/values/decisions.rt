//! What is decided, in words.

use recorder::{History, Part, Parts};
use tag::{Memory, OpId};
use test_rows::Answer;
use value_order::{Decision, Doubt, Side, ValueFault, order_by_values, reads, stale_reads};

/// Numbers of calls, each after a space.
fn say_numbers(out: &mut Answer, ops: &[OpId]) {
    for op in ops {
        let number = op.0;
        write!(out, " {number}");
    }
    out.push("\n");
}

fn say_doubt(out: &mut Answer, doubt: Doubt) {
    let (read, first, second) = (doubt.read.0, doubt.first.0, doubt.second.0);
    write!(out, "read {read}, writes {first} and {second}");
}

fn say_side(out: &mut Answer, side: Side) {
    let (write, first, last) = (side.write.0, side.first_ended.0, side.last_begun.0);
    write!(out, "write {write}, {first} to {last}");
}

fn say_fault(out: &mut Answer, fault: ValueFault) {
    let number = fault.number();
    write!(out, "not atomic {number}: ");
    match fault {
        ValueFault::NoWrite(read) => {
            let read = read.0;
            write!(out, "read {read}");
        }
        ValueFault::Early(read, other) | ValueFault::LateNothing(read, other) => {
            let (read, other) = (read.0, other.0);
            write!(out, "read {read}, call {other}");
        }
        ValueFault::Opposed(a, b) => {
            say_side(out, a);
            out.push("; ");
            say_side(out, b);
        }
        ValueFault::Overwritten(doubt, between) => {
            let between = between.0;
            say_doubt(out, doubt);
            write!(out, ", then write {between}");
        }
    }
    out.push("\n");
}

fn say_decision(out: &mut Answer, part: &Part<'_>) {
    match order_by_values(out.alloc(), part) {
        Ok(Decision::Atomic(order)) => {
            out.push("atomic");
            say_numbers(out, order.as_slice());
        }
        Ok(Decision::NotAtomic(fault)) => say_fault(out, fault),
        Ok(Decision::Undecided(doubt)) => {
            out.push("undecided: ");
            say_doubt(out, doubt);
            out.push("\n");
        }
        Err(Memory) => out.refuse(),
    }
}

fn say_stale(out: &mut Answer, part: &Part<'_>) {
    match stale_reads(out.alloc(), part) {
        Ok(stale) => {
            let all = reads(part);
            write!(out, "{stale} of {all} reads stale\n");
        }
        Err(Memory) => out.refuse(),
    }
}

fn say_parts(out: &mut Answer, parts: &Parts<'_>) {
    for place in 0..parts.len() {
        let (_, part) = parts.entry(place);
        say_decision(out, &part);
        say_stale(out, &part);
    }
}

/// What is decided of the calls.
pub fn say_history(out: &mut Answer, history: &History) {
    match history.parts() {
        Ok(parts) => say_parts(out, &parts),
        Err(Memory) => out.refuse(),
    }
}
