//! Rows at the limits: a record of as many calls as there may be is made, written, read again, and checked.
mod making;

use crate::formats::{Counting, read_history, write_history};
use certificate_check::{Verdict, check_part};
use making::{CALLS, KEYS, one_call_more, whole_record};
use recorder::{History, Part};
use std::alloc::Global;
use std::thread::Threads;
use test_rows::{Answer, Pieces};
use witness_order::order_of;

/// The text of the record's file.
fn written(alloc: Global, history: &History) -> Option<Vec<u8>> {
    let mut writer = Counting::new(Vec::new(alloc));
    write_history(alloc, history, &mut writer).ok()?;
    Some(writer.into_inner())
}

/// The record that the text is.
fn read_again(rt: &(impl Threads + Sync), alloc: Global, text: &[u8]) -> Option<History> {
    read_history(rt, alloc, &mut Counting::new(Pieces::whole(text))).ok()
}

/// Whether both records have the same rows.
fn are_equal(one: &History, other: &History) -> bool {
    let count = one.row_count();
    if other.row_count() != count {
        return false;
    }
    for place in 0..count {
        if one.row(place) != other.row(place) {
            return false;
        }
    }
    true
}

/// Whether the order that the tags of a key's calls make is one.
fn is_yes(alloc: Global, part: &Part<'_>) -> bool {
    let Ok(order) = order_of(alloc, part) else {
        return false;
    };
    order.as_slice().len() == part.len()
        && check_part(alloc, part, order.as_slice()) == Ok(Verdict::Yes)
}

/// How many keys have an order by their tags, which has all their calls, before the first that has none.
fn keys_with_orders(alloc: Global, history: &History) -> Option<usize> {
    let parts = history.parts().ok()?;
    for place in 0..parts.len() {
        let (_, part) = parts.entry(place);
        if !is_yes(alloc, &part) {
            return Some(place);
        }
    }
    Some(parts.len())
}

/// Says how many keys have their orders.
fn say_orders(out: &mut Answer, history: &History) {
    match keys_with_orders(out.alloc(), history) {
        Some(ordered) => write!(out, "keys with their orders: {ordered} of {KEYS}\n"),
        None => out.refuse(),
    }
}

/// Says whether what was read again is the record, and how many of its keys have their orders.
fn say_again(out: &mut Answer, history: &History, again: &History) {
    let is_equal = are_equal(history, again);
    write!(out, "read again: equal {is_equal}\n");
    say_orders(out, again);
}

/// Says how long the record's file is, and what is read of it.
fn say_text(rt: &(impl Threads + Sync), out: &mut Answer, history: &History, text: &[u8]) {
    let (rows, bytes) = (history.row_count(), text.len());
    write!(out, "{rows} rows, {bytes} bytes\n");
    match read_again(rt, out.alloc(), text) {
        Some(again) => say_again(out, history, &again),
        None => out.push("not read again\n"),
    }
}

/// Says what comes of the record's file.
fn say_file(rt: &(impl Threads + Sync), out: &mut Answer, history: &History) {
    match written(out.alloc(), history) {
        Some(text) => say_text(rt, out, history, text.as_slice()),
        None => out.push("not written\n"),
    }
}

/// Says how many calls the record has, and why it takes no further one.
fn say_full(out: &mut Answer, history: &mut History) {
    match one_call_more(out.alloc(), history) {
        Some(refused) => {
            let calls = history.calls();
            write!(out, "{calls} calls of {CALLS}, and then: {refused}\n");
        }
        None => out.push("one call more than there may be\n"),
    }
}

/// Says what comes of a record of as many calls as there may be.
pub fn say_whole_record(rt: &(impl Threads + Sync), out: &mut Answer) {
    match whole_record(out.alloc()) {
        Some(mut history) => {
            say_full(out, &mut history);
            say_file(rt, out, &history);
        }
        None => out.push("no record\n"),
    }
}
