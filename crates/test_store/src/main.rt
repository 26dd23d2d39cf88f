//! Hostile gates, seats and stores, a line each: what came of it; and keys that are checked on several threads.
//!
//! A row starts a store with a gate, has clients join, and says of each step what has to come of it.
#![tactic(auto)]

mod board;
mod calls;
mod gates;
mod journal_rows;
mod records;
mod rows;
mod scene;
mod shape;
mod stage;
mod steps;
mod store_rows;
mod texts;
mod thread_rows;
mod turns;
mod workers;

use crate::journal_rows::{JOURNAL_ROWS, JournalRow};
use crate::rows::Row;
use crate::stage::Stage;
use crate::store_rows::STORE_ROWS;
use crate::thread_rows::THREAD_ROWS;
use crate::workers::{meetings, shares, verdicts};
use std::process::ExitCode;
use std::sync::Wait;
use std::thread::Threads;
use std::time::Clock;

/// Prints a row.
fn show(rt: &HostRuntime, name: &str, found: &str) {
    let _ = println!(rt; "{}: {}", name, found);
}

/// What is said of a row that came out as it has to, or didn't.
fn word(is_right: bool) -> &'static str {
    if is_right {
        "as expected"
    } else {
        "NOT as expected"
    }
}

/// Whether keys are checked by threads as they have to be.
fn show_workers<R>(rt: &HostRuntime, stage: &Stage<'_, R>)
where
    R: Threads + Wait + Clock + Copy + Send + Sync + 'static,
{
    let meet = meetings::always_meet(stage.rt, stage.alloc);
    show(rt, "two workers at the gate at once", word(meet));
    let have_shares = shares::have_their_shares(stage.rt, stage.alloc);
    show(rt, "each worker on its own indexes", word(have_shares));
    let say_the_same = verdicts::say_the_same(stage.rt, stage.alloc);
    show(rt, "every number of workers", word(say_the_same));
}

/// Whether rows come out as they have to.
fn show_rows<R>(rt: &HostRuntime, stage: &Stage<'_, R>, rows: &[Row])
where
    R: Threads + Wait + Clock + Copy + Send + Sync + 'static,
{
    for row in rows {
        let word = match stage.comes_out(row) {
            Some(is_right) => word(is_right),
            None => "not run",
        };
        show(rt, row.name, word);
    }
}

/// What calls of one client leave.
fn show_journals<R>(rt: &HostRuntime, stage: &Stage<'_, R>, rows: &[JournalRow])
where
    R: Threads + Wait + Clock + Copy + Send + Sync + 'static,
{
    for row in rows {
        match stage.left_by(row) {
            Some(left) => show(rt, row.row.name, left.as_str()),
            None => show(rt, row.row.name, "not run"),
        }
    }
}

fn main(rt: HostRuntime) -> ExitCode {
    let stage = Stage {
        rt: &rt,
        alloc: rt.alloc(),
    };
    show_rows(&rt, &stage, &STORE_ROWS);
    show_journals(&rt, &stage, &JOURNAL_ROWS);
    show_rows(&rt, &stage, &THREAD_ROWS);
    show_workers(&rt, &stage);
    ExitCode::SUCCESS
}
