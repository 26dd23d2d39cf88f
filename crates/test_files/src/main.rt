//! Goes over files of worked rows, and says of each row what came out of the readers and writers of
//! files, or what the words of a command line ask for.
//!
//! Its words name the files. It ends well where each row is as expected.
#![tactic(auto)]

mod answers;
mod asked;
mod contents;
mod counts;
mod devices;
mod feeding;
mod formats;
mod kept;
mod limits;
mod names;
mod notation;
mod readings;
mod saying;
mod wording;

use asked::Asked;
use contents::{say_history_row, say_orders_row, say_script_row, say_writers_row};
use counts::{say_counted_reads, say_counted_writes, say_faults, say_other_faults};
use feeding::say_fed;
use kept::{say_kept_reads, say_kept_sizes};
use limits::say_whole_record;
use names::say_names;
use readings::{Format, say_cuts, say_files_read};
use std::process::ExitCode;
use std::thread::Threads;
use test_rows::{Answer, run_rows};
use wording::{say_first_lines, say_words};

/// What comes of rows that read files.
fn say_file_row(rt: &(impl Threads + Sync), out: &mut Answer, asked: Asked<'_>) {
    match asked.kind() {
        "histories" => say_files_read(rt, out, asked, Format::History),
        "orders" => say_files_read(rt, out, asked, Format::Orders),
        "scripts" => say_files_read(rt, out, asked, Format::Script),
        "feed-history" => say_fed(rt, out, Format::History, asked.lines),
        "feed-orders" => say_fed(rt, out, Format::Orders, asked.lines),
        "history" => say_history_row(rt, out, asked),
        "key-orders" => say_orders_row(rt, out, asked.lines),
        "script" | "steps" => say_script_row(rt, out, asked),
        "writers" => say_writers_row(rt, out, asked.lines),
        "cuts" => say_cuts(rt, out, asked),
        "whole-record" => say_whole_record(rt, out),
        _ => out.push("NO SUCH KIND OF ROW\n"),
    }
}

/// What comes of other rows.
fn say_row(rt: &(impl Threads + Sync), out: &mut Answer, asked: Asked<'_>) {
    match asked.kind() {
        "words" => say_words(out, asked.lines),
        "first-lines" => say_first_lines(out, asked.lines),
        "names" => say_names(out, asked.lines),
        "counted-reads" => say_counted_reads(out, asked),
        "counted-writes" => say_counted_writes(out, asked.lines),
        "kept-reads" => say_kept_reads(out, asked),
        "kept-sizes" => say_kept_sizes(out, asked.lines),
        "file-faults" => say_faults(out, false),
        "script-faults" => say_faults(out, true),
        "other-faults" => say_other_faults(out),
        _ => say_file_row(rt, out, asked),
    }
}

fn main(rt: HostRuntime) -> ExitCode {
    run_rows(
        &rt,
        &|input: &str| {
            let mut answer = Answer::new(rt.alloc());
            say_row(&rt, &mut answer, Asked::new(input));
            answer.text()
        },
    )
}
