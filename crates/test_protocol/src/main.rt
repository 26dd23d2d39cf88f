//! Goes over files of worked rows of the protocol, and says of each row what came of its steps: of a
//! world, a client, a replica, the network, or quorums; and whether a world answers as a plain, slow one.
//!
//! Its words name the files. It ends well where each row is as expected.
#![tactic(auto)]

mod all_keys;
mod clients;
mod messages;
mod networks;
mod sets;
mod settings;
mod subject;
mod texts;
mod twin;
mod words;
mod worlds;

use std::alloc::{AllocError, Global};
use std::process::ExitCode;
use subject::Subject;
use test_rows::{Answer, run_rows};

/// Says what comes of a line of steps, divided as they are.
fn say_steps(out: &mut Answer, subject: &mut Subject, line: &str) {
    for (place, step) in line.split(" / ").enumerate() {
        if place > 0 {
            out.push(" / ");
        }
        subject.answer(out, step);
    }
    out.push("\n");
}

/// Says what comes of a row's steps, which begin with nothing, a line for each line of them.
fn say_input(out: &mut Answer, input: &str) {
    let mut subject = Subject::None;
    for line in input.lines() {
        say_steps(out, &mut subject, line);
    }
}

/// What comes of the steps.
fn found(alloc: Global, input: &str) -> Result<String, AllocError> {
    let mut out = Answer::new(alloc);
    say_input(&mut out, input);
    out.text()
}

fn main(rt: HostRuntime) -> ExitCode {
    run_rows(&rt, &|input: &str| found(rt.alloc(), input))
}
