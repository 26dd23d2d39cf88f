//! Steps on a history, and questions about it.

use crate::names::{action_of, returned_of, said_equal, say_found, tag_of};
use crate::words::{first_word, number};
use recorder::{
    Call, History, KeyOrder, KeyRef, Order, Part, Parts, Response, ReturnedRef, Row, RowRefusal,
};
use std::alloc::Global;
use tag::{ClientId, Key, Memory, NameError, OpId, Tag};
use tag_check::check_tags;
use test_rows::{Answer, RowSaid, said_by, say_action, say_tag};
use witness_order::order_of;

/// `invoke CLIENT KEY read`, or `write TEXT` in place of `read`.
fn invoke(alloc: Global, history: &mut History, words: &str) -> Option<Result<OpId, RowRefusal>> {
    let (client, rest) = first_word(words);
    let (key, action) = first_word(rest);
    let client = ClientId::new(number(client)?).ok()?;
    let key = Key::new(alloc, key).ok()?;
    let action = action_of(alloc, action)?;
    Some(history.invoke(client, key, action))
}

/// `note CALL NUMBER WRITER`.
fn note(history: &mut History, words: &str) -> Option<Result<(), RowRefusal>> {
    let (op, tag) = first_word(words);
    let (op, tag) = number(op).zip(tag_of(tag))?;
    Some(history.note(OpId(op), tag))
}

/// `respond CALL written`, or `none` or `value TEXT` in place of `written`.
fn respond(alloc: Global, history: &mut History, words: &str) -> Option<Result<(), RowRefusal>> {
    let (op, returned) = first_word(words);
    let op = OpId(number(op)?);
    Some(history.respond(op, returned_of(alloc, returned)?))
}

/// Says what came of an invocation. Whether there was one.
fn say_invoked(out: &mut Answer, taken: Option<Result<OpId, RowRefusal>>) -> bool {
    match taken {
        Some(Ok(op)) => {
            let number = op.0;
            write!(out, "call {number}\n");
        }
        Some(Err(refusal)) => write!(out, "refused {refusal:?}\n"),
        None => {}
    }
    taken.is_some()
}

/// Says what came of a note or a response. Whether there was one.
fn say_row_taken(out: &mut Answer, taken: Option<Result<(), RowRefusal>>) -> bool {
    match taken {
        Some(Ok(())) => out.push("taken\n"),
        Some(Err(refusal)) => write!(out, "refused {refusal:?}\n"),
        None => {}
    }
    taken.is_some()
}

/// The kind of an answer, and its text.
fn said_of<'h>(returned: &ReturnedRef<'h>) -> (&'static str, &'h str) {
    match returned.answered() {
        None => ("written", ""),
        Some(None) => ("none", ""),
        Some(Some(value)) => ("value ", value.as_str()),
    }
}

/// Says the tag of a call's note, if it has one.
fn say_note(out: &mut Answer, note: Option<Tag>) {
    out.push("note ");
    match note {
        Some(tag) => say_tag(out, tag),
        None => out.push("none"),
    }
}

/// Says a call's answer.
fn say_answered(out: &mut Answer, returned: &ReturnedRef<'_>) {
    let (kind, text) = said_of(returned);
    write!(out, "answer {kind}{text}");
}

fn say_row(out: &mut Answer, row: &Row<'_>) {
    let (op, said) = said_by(row);
    write!(out, "call {op}: ");
    match said {
        RowSaid::Noted(tag) => say_note(out, Some(tag)),
        RowSaid::Answered(returned) => say_answered(out, returned),
        RowSaid::Invoked(client, key, action) => {
            let (client, key) = (client.get(), key.as_str());
            write!(out, "client {client}, {key}, ");
            say_action(out, action);
        }
    }
    out.push("\n");
}

/// All rows.
fn say_rows(out: &mut Answer, history: &History) {
    for place in 0..history.row_count() {
        say_row(out, &history.row(place));
    }
}

fn say_response(out: &mut Answer, response: Option<&Response<'_>>) {
    match response {
        None => out.push("pending\n"),
        Some(response) => {
            say_answered(out, &response.returned);
            let place = response.place;
            write!(out, " in row {place}\n");
        }
    }
}

/// A call as its part has it.
fn say_call(out: &mut Answer, call: &Call<'_>) {
    let (op, client, invoked) = (call.op.0, call.client.get(), call.invoked);
    write!(out, "{op}: client {client}, ");
    say_action(out, &call.action);
    write!(out, ", in row {invoked}, ");
    say_note(out, call.note);
    out.push(", ");
    say_response(out, call.response.as_ref());
}

fn say_part(out: &mut Answer, key: &KeyRef<'_>, part: &Part<'_>) {
    out.push(key.as_str());
    out.push("\n");
    for place in 0..part.len() {
        say_call(out, &part.call(place));
    }
}

/// The keys of the parts in their order, each with its calls.
fn say_entries(out: &mut Answer, parts: &Parts<'_>) {
    for place in 0..parts.len() {
        let (key, part) = parts.entry(place);
        say_part(out, &key, &part);
    }
}

/// The parts of a history.
fn say_parts(out: &mut Answer, history: &History) {
    match history.parts() {
        Ok(parts) => say_entries(out, &parts),
        Err(Memory) => out.refuse(),
    }
}

/// Whether a copy of the history is equal to it.
fn say_copy(out: &mut Answer, history: &History) {
    match history.copy() {
        Ok(copy) => out.push(said_equal(copy == *history)),
        Err(Memory) => out.refuse(),
    }
}

/// Numbers of calls, as `[0, 1]`.
fn say_numbers(out: &mut Answer, ops: &[OpId]) {
    let mut divider = "[";
    for op in ops {
        let number = op.0;
        write!(out, "{divider}{number}");
        divider = ", ";
    }
    out.push(if ops.is_empty() { "[]\n" } else { "]\n" });
}

/// The tag order of a part's calls, or what is missing.
fn say_order(out: &mut Answer, part: &Part<'_>) {
    match order_of(out.alloc(), part) {
        Ok(order) => say_numbers(out, order.as_slice()),
        Err(error) => write!(out, "{error}\n"),
    }
}

/// The first rule of sound tags that the notes of a part's calls break.
fn say_rule(out: &mut Answer, part: &Part<'_>) {
    match check_tags(out.alloc(), part) {
        Ok(Some(rule)) => write!(out, "{rule}\n"),
        Ok(None) => out.push("sound\n"),
        Err(Memory) => out.refuse(),
    }
}

/// The answer to a question about a part's calls.
fn say_of_part(out: &mut Answer, word: &str, part: &Part<'_>) {
    match word {
        "tags?" => say_rule(out, part),
        _ => say_order(out, part),
    }
}

/// The answer to a question about the calls on a key.
fn say_of_parts(out: &mut Answer, parts: &Parts<'_>, word: &str, key: &Key) {
    match parts.get(key) {
        Some(part) => say_of_part(out, word, &part),
        None => out.push("no part\n"),
    }
}

fn say_of_key(out: &mut Answer, history: &History, word: &str, key: &Key) {
    match history.parts() {
        Ok(parts) => say_of_parts(out, &parts, word, key),
        Err(Memory) => out.refuse(),
    }
}

/// The answer to a question about the calls on the key of that name.
fn say_of_name(out: &mut Answer, history: &History, word: &str, name: &str) {
    match Key::new(out.alloc(), name) {
        Ok(key) => say_of_key(out, history, word, &key),
        Err(NameError::Memory) => out.refuse(),
        Err(_) => out.push("no key\n"),
    }
}

/// The numbers, put into an order one by one.
fn numbered(out: &mut Answer, words: &str) -> Order {
    let mut order = Order::empty(out.alloc());
    for word in words.split(' ') {
        if let Some(number) = number(word)
            && order.push(OpId(number)).is_err()
        {
            out.refuse();
        }
    }
    order
}

/// The numbers put into an order, which is then taken apart and made again for a key.
fn say_numbered(out: &mut Answer, words: &str) {
    let order = Order::from_vec(numbered(out, words).into_vec());
    match Key::new(out.alloc(), "x") {
        Ok(key) => {
            let named = KeyOrder { key, order };
            say_numbers(out, named.order.as_slice());
        }
        Err(_) => out.refuse(),
    }
}

/// How many calls the empty part has.
fn say_empty(out: &mut Answer) {
    let count = Part::empty().len();
    write!(out, "{count} calls\n");
}

/// Whether the client has a pending call.
fn busy(history: &History, words: &str) -> Option<&'static str> {
    let client = ClientId::new(number(words)?).ok()?;
    if history.is_busy(client) {
        Some("busy\n")
    } else {
        Some("idle\n")
    }
}

/// Says what comes of a row that is added. Whether the words are one.
fn say_added(out: &mut Answer, history: &mut History, word: &str, rest: &str) -> bool {
    match word {
        "invoke" => say_invoked(out, invoke(out.alloc(), history, rest)),
        "note" => say_row_taken(out, note(history, rest)),
        "respond" => say_row_taken(out, respond(out.alloc(), history, rest)),
        _ => false,
    }
}

/// Says the answer to a question about the history. Whether the words are one.
fn say_answer(out: &mut Answer, history: &History, word: &str, rest: &str) -> bool {
    match word {
        "rows?" => say_rows(out, history),
        "parts?" => say_parts(out, history),
        "copy?" => say_copy(out, history),
        "order?" | "tags?" => say_of_name(out, history, word, rest),
        "numbers" => say_numbered(out, rest),
        "empty" => say_empty(out),
        _ => return false,
    }
    true
}

/// Says how many calls there are, or may be, or whether a client is busy. Whether that was asked.
fn say_state(out: &mut Answer, history: &History, word: &str, rest: &str) -> bool {
    let count = match word {
        "calls?" => history.calls(),
        "limit?" => history.limit() as usize,
        "busy?" => return say_found(out, busy(history, rest)),
        _ => return false,
    };
    write!(out, "{count}\n");
    true
}

/// Says what comes of a step on a history or of a question. Whether the words are one.
pub fn say(out: &mut Answer, history: &mut History, word: &str, rest: &str) -> bool {
    say_added(out, history, word, rest)
        || say_answer(out, history, word, rest)
        || say_state(out, history, word, rest)
}
