//! Rows of files that are read: in pieces of several sizes, by readers and by feeds.
use crate::answers::Agreed;
use crate::asked::Asked;
use crate::feeding::Feeding;
use crate::formats::{Counted, Counting, read_history, read_orders};
use crate::notation::bytes_of;
use crate::saying::{Outcome, say_history, say_orders, say_script};
use fault_script::parse;
use std::alloc::{AllocError, Global};
use std::thread::Threads;
use test_rows::{Answer, Pieces, spans_of};

/// What a file is to be.
#[derive(Clone, Copy)]
pub enum Format {
    History,
    Orders,
    Script,
}

/// Says where the reader's counts are others than they should be: a failure after a device's
/// fault, and all bytes after a good file of that length.
fn say_counts(out: &mut Answer, reader: &Counting<Pieces<'_>>, outcome: Outcome, length: usize) {
    let (given, failures) = (reader.given(), reader.failures());
    match outcome {
        Outcome::Device if failures != 1 => out.push(", but failures aren't counted"),
        Outcome::Good if given != length as u64 || failures != 0 => {
            out.push(", but bytes aren't counted");
        }
        _ => {}
    }
}

/// Says what the reader's bytes are.
fn say_read(
    rt: &(impl Threads + Sync),
    out: &mut Answer,
    format: Format,
    reader: &mut Counting<Pieces<'_>>,
) -> Outcome {
    let alloc = out.alloc();
    match format {
        Format::History => say_history(out, &read_history(rt, alloc, reader)),
        Format::Orders => say_orders(out, &read_orders(rt, alloc, reader)),
        Format::Script => say_script(out, &parse(rt, alloc, reader)),
    }
}

/// What a reader makes of the bytes.
fn read_answer(
    rt: &(impl Threads + Sync),
    alloc: Global,
    format: Format,
    pieces: Pieces<'_>,
) -> Answer {
    let mut answer = Answer::new(alloc);
    let length = pieces.left.len();
    let mut reader = Counting::new(pieces);
    let outcome = say_read(rt, &mut answer, format, &mut reader);
    say_counts(&mut answer, &reader, outcome, length);
    answer
}

/// What a feed makes of them.
fn fed_answer(
    rt: &(impl Threads + Sync),
    alloc: Global,
    mut feeding: Feeding,
    bytes: &[u8],
    size: usize,
) -> Answer {
    let mut answer = Answer::new(alloc);
    for piece in bytes.chunks(size.max(1)) {
        let _ = feeding.feed(rt, piece);
    }
    feeding.say(rt, &mut answer);
    answer
}

/// The answers to the bytes in pieces of that size, read and, where the format has a feed, fed.
fn say_size(
    rt: &(impl Threads + Sync),
    out: &mut Answer,
    agreed: &mut Agreed,
    format: Format,
    pieces: Pieces<'_>,
) {
    let alloc = out.alloc();
    let (left, size, is_whole) = (pieces.left, pieces.size, pieces.failure.is_none());
    agreed.say(out, read_answer(rt, alloc, format, pieces));
    if is_whole && let Some(feeding) = Feeding::new(alloc, format) {
        agreed.say(out, fed_answer(rt, alloc, feeding, left, size));
    }
}

/// The answers to the bytes, read and fed in pieces of the row's sizes.
fn say_sizes(
    rt: &(impl Threads + Sync),
    out: &mut Answer,
    asked: Asked<'_>,
    format: Format,
    left: &[u8],
) {
    let failure = asked.failure();
    let mut agreed = Agreed::new();
    for size in asked.sizes().split(',') {
        let size = size.parse::<usize>().unwrap_or(1);
        say_size(
            rt,
            out,
            &mut agreed,
            format,
            Pieces {
                left,
                size,
                failure,
            },
        );
    }
}

/// A line on a file of a row.
fn say_file(
    rt: &(impl Threads + Sync),
    out: &mut Answer,
    asked: Asked<'_>,
    format: Format,
    lines: &str,
) {
    let bytes = bytes_of(out, lines);
    say_sizes(rt, out, asked, format, bytes.as_slice());
    out.push("\n");
}

/// The files of a row: each line is one, or, with `whole`, all lines together.
pub fn say_files_read(
    rt: &(impl Threads + Sync),
    out: &mut Answer,
    asked: Asked<'_>,
    format: Format,
) {
    if asked.has("whole") {
        say_file(rt, out, asked, format, asked.lines);
    } else {
        for line in asked.lines.lines() {
            say_file(rt, out, asked, format, line);
        }
    }
}

/// What comes of the beginning of a history.
fn cut_answer(
    rt: &(impl Threads + Sync),
    alloc: Global,
    asked: Asked<'_>,
    cut: &[u8],
) -> Result<String, AllocError> {
    let mut answer = Answer::new(alloc);
    say_sizes(rt, &mut answer, asked, Format::History, cut);
    answer.text()
}

/// A history cut after each number of its bytes, in steps of `step` bytes.
pub fn say_cuts(rt: &(impl Threads + Sync), out: &mut Answer, asked: Asked<'_>) {
    let alloc = out.alloc();
    let bytes = bytes_of(out, asked.lines);
    let left = bytes.as_slice();
    let step = asked.number("step", 1).max(1);
    let answer = |place: usize| {
        let length = place.saturating_mul(step).min(left.len());
        cut_answer(rt, alloc, asked, &left[..length])
    };
    out.push_made(spans_of(
        alloc,
        step,
        0,
        (left.len() / step).saturating_add(1),
        &answer,
    ));
}
