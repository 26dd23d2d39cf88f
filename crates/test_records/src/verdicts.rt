//! Steps on verdicts.

use crate::small_parts::{Compared, compare_parts};
use crate::words::{first_word, number, two_numbers};
use certificate_check::{Fault, Verdict};
use std::alloc::Global;
use std::fmt::Display;
use tag::OpId;
use test_rows::Answer;
use witness_order::WitnessError;

/// How many parts there are with so many calls.
fn parts_of(count: u32) -> u32 {
    match count {
        0 => 1,
        1 => 8,
        2 => 104,
        3 => 1872,
        _ => 43_056,
    }
}

/// Compares both checks on all parts with `from` to `to` calls.
fn compared(alloc: Global, from: u32, to: u32) -> Option<Compared> {
    let mut compared = Compared::none();
    for count in from..to.saturating_add(1).min(5) {
        compare_parts(alloc, count, parts_of(count), &mut compared)?;
    }
    Some(compared)
}

/// Says what was compared.
fn say_compared(out: &mut Answer, compared: &Compared) {
    let (parts, orders, differ) = (compared.parts, compared.orders, compared.differ);
    let yes = if compared.yes > 1000 {
        "more than 1000"
    } else {
        "few"
    };
    write!(
        out,
        "{parts} parts, {orders} orders, {differ} differ, {yes} are yes\n"
    );
}

/// Compares both checks, and says how that came out.
fn compare(out: &mut Answer, from: u32, to: u32) {
    match compared(out.alloc(), from, to) {
        Some(compared) => say_compared(out, &compared),
        None => out.push("no memory for a part or an order\n"),
    }
}

/// The fault of a name and one or two numbers.
fn fault_of(word: &str, first: u32, second: u32) -> Option<Fault> {
    match word {
        "UnknownCall" => Some(Fault::UnknownCall(first as usize)),
        "CallTwice" => Some(Fault::CallTwice(first as usize)),
        "MissingCall" => Some(Fault::MissingCall(OpId(first))),
        "PendingRead" => Some(Fault::PendingRead(first as usize)),
        "WrongAnswer" => Some(Fault::WrongAnswer(first as usize)),
        "OrderBroken" => Some(Fault::OrderBroken(first as usize, second as usize)),
        _ => None,
    }
}

/// The verdict of the words.
fn verdict_of(words: &str) -> Option<Verdict> {
    if words == "Yes" {
        return Some(Verdict::Yes);
    }
    let (word, numbers) = first_word(words);
    let (first, second) = first_word(numbers);
    let fault = fault_of(word, number(first)?, number(second).unwrap_or(0))?;
    Some(Verdict::No(fault))
}

/// The error of the words.
fn error_of(words: &str) -> Option<WitnessError> {
    match first_word(words) {
        ("NoNote", call) => Some(WitnessError::NoNote(OpId(number(call)?))),
        ("Memory", _) => Some(WitnessError::Memory),
        _ => None,
    }
}

/// Says a thing that was read of the words. Whether they are one.
fn say_read<T: Display + Drop>(out: &mut Answer, read: Option<T>) -> bool {
    match read {
        Some(read) => {
            write!(out, "{read}\n");
            true
        }
        None => false,
    }
}

/// Says what comes of a step on verdicts. Whether it is one.
pub fn say(out: &mut Answer, word: &str, rest: &str) -> bool {
    match word {
        "verdict" => say_read(out, verdict_of(rest)),
        "error" => say_read(out, error_of(rest)),
        "compare" => match two_numbers(rest) {
            Some((from, to)) => {
                compare(out, from, to);
                true
            }
            None => false,
        },
        _ => false,
    }
}
