//! Steps of a client.
use crate::messages::reply_of;
use crate::texts::{say_request, say_returned, say_set, say_taken};
use crate::words::Words;
use client_phases::{Client, Phase, Taken};
use recorder::ReturnedRef;
use replica::Reply;
use std::alloc::Global;
use tag::{Action, Key, OpId};
use test_rows::Answer;

/// `4 read x`, or `4 write x b`.
fn call_of(alloc: Global, mut words: Words<'_>) -> Option<(OpId, Key, Action)> {
    let op = words.op()?;
    let kind = words.word();
    let key = words.key(alloc)?;
    Some((op, key, words.action(alloc, kind)?))
}

/// What comes of an invocation.
fn invoked(client: &mut Client, call: Option<(OpId, Key, Action)>) -> &'static str {
    if client.phase() != Phase::Idle {
        return "busy";
    }
    match call {
        Some((op, key, action)) => {
            client.invoke(op, key, action);
            "invoked"
        }
        None => "NO SUCH CALL",
    }
}

/// What the client made of a reply, and what it foresaw, where that is another.
fn say_heard(out: &mut Answer, taken: Taken, foreseen: Taken) {
    say_taken(out, taken);
    if taken != foreseen {
        out.push(", FORESEEN AS ");
        say_taken(out, foreseen);
    }
}

fn hear(out: &mut Answer, client: &mut Client, reply: Reply) {
    if let Reply::Held { tag, .. } = &reply
        && tag.number() >= 1_000_000
    {
        return out.push("A NUMBER TOO GREAT");
    }
    let foreseen = client.foresee(&reply);
    let taken = client.take(reply);
    say_heard(out, taken, foreseen);
}

fn respond(out: &mut Answer, client: &mut Client) {
    if client.phase() != Phase::Ready {
        return out.push("not ready");
    }
    let returned = client.respond();
    say_returned(out, &ReturnedRef::of(&returned));
}

fn say_next_request(out: &mut Answer, client: &Client) {
    match client.request() {
        Ok(Some(request)) => say_request(out, &request),
        Ok(None) => out.push("nothing"),
        Err(_) => out.push("NO MEMORY"),
    }
}

fn say_next_answer(out: &mut Answer, client: &Client) {
    match client.answer() {
        Ok(Some(returned)) => say_returned(out, &ReturnedRef::of(&returned)),
        Ok(None) => out.push("nothing"),
        Err(_) => out.push("NO MEMORY"),
    }
}

/// Where the client stands, its pending call, and whom it counted in this phase.
fn say_state(out: &mut Answer, client: &Client) {
    let phase = client.phase();
    match client.pending() {
        Some(op) => {
            let op = op.0;
            write!(out, "{phase:?}, call {op}");
        }
        None => write!(out, "{phase:?}, no call"),
    }
    let count = client.counted().count();
    write!(out, ", counted {count}");
    say_set(out, client.counted());
}

/// What a client answers to a reply.
fn hear_line(out: &mut Answer, client: &mut Client, line: &str) {
    match reply_of(out.alloc(), Words { rest: line }) {
        Some(reply) => hear(out, client, reply),
        None => out.push("NO SUCH STEP"),
    }
}

/// What a client answers to a step or a question.
pub fn client_answers(out: &mut Answer, client: &mut Client, line: &str) {
    let mut words = Words { rest: line };
    match words.word() {
        "invoke" => out.push(invoked(client, call_of(out.alloc(), words))),
        "respond" => respond(out, client),
        "stop" => {
            client.stop();
            out.push("stopped");
        }
        "request?" => say_next_request(out, client),
        "answer?" => say_next_answer(out, client),
        "state?" => say_state(out, client),
        _ => hear_line(out, client, line),
    }
}
