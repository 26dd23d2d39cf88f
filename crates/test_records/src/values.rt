//! Rows of calls on one key, and what their values decide.
mod decisions;
mod draws;
mod search;
mod steps;
mod twin;

use recorder::History;
use test_rows::Answer;

/// Says what comes of a line: drawn parts are compared, or the history takes a step.
fn say_line(out: &mut Answer, history: &mut History, line: &str) {
    if let Some(range) = line.strip_prefix("drawn ") {
        twin::say_drawn(out, range);
    } else if steps::take(out.alloc(), history, line).is_none() {
        write!(out, "not understood: {line}\n");
    }
}

/// Says what comes of the lines, and what is decided of the calls.
pub fn say_decided(out: &mut Answer, lines: &str) {
    let mut history = History::new(out.alloc(), 1000);
    for line in lines.lines() {
        say_line(out, &mut history, line);
    }
    decisions::say_history(out, &history);
}
