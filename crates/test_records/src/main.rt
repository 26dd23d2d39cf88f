//! Goes over files of worked rows of names, histories, orders, tags, verdicts and what values decide, and
//! says of each row what came out: see the heads of the files in data/.
//!
//! Its words name the files. It ends well where each row is as expected.
#![tactic(auto)]

ghost use Rattle.std.specs.Prelude.{◌≤◌};

mod calls;
mod names;
mod plain_check;
mod small_parts;
mod values;
mod verdicts;
mod words;

use recorder::History;
use std::alloc::{AllocError, Global};
use std::process::ExitCode;
use test_rows::{Answer, run_rows};
use words::{first_word, number};

/// Says what comes of a line.
fn say_line(out: &mut Answer, history: &mut History, line: &str) {
    let (word, rest) = first_word(line);
    let is_said = names::say(out, word, rest)
        || verdicts::say(out, word, rest)
        || calls::say(out, history, word, rest);
    if !is_said {
        write!(out, "not understood: {line}\n");
    }
}

/// How many calls the history of a row may have: what its line `limit` says, else a million.
fn limit_of(input: &str) -> u32
    ensures { result ≤ 1000000 }
{
    match first_word(input.lines().next().unwrap_or("")) {
        ("limit", rest) => number(rest).unwrap_or(0).min(1_000_000),
        _ => 1_000_000,
    }
}

/// Says what comes of a row's lines.
fn say_lines(out: &mut Answer, input: &str) {
    let mut history = History::new(out.alloc(), limit_of(input));
    for line in input.lines() {
        if !line.starts_with("limit ") {
            say_line(out, &mut history, line);
        }
    }
}

/// What comes of a row: of the lines below `values`, or else of steps and questions.
fn found(alloc: Global, input: &str) -> Result<String, AllocError> {
    let mut out = Answer::new(alloc);
    match input.strip_prefix("values\n") {
        Some(lines) => values::say_decided(&mut out, lines),
        None => say_lines(&mut out, input),
    }
    out.text()
}

fn main(rt: HostRuntime) -> ExitCode {
    run_rows(&rt, &|input: &str| found(rt.alloc(), input))
}
