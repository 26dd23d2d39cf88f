//! Texts of what comes out.
use client_phases::Taken;
use network::{Message, NetRefusal};
use quorum::ReplicaSet;
use recorder::{ActionRef, ReturnedRef, Row, ValueRef};
use replica::{Reply, Request};
use tag::{ReplicaId, Tag, Value};
use test_rows::{Answer, RowSaid, said_by, say_action, say_tag};
use world_steps::Step;

pub fn value_text<'h>(value: Option<ValueRef<'h>>) -> &'h str {
    match value {
        None => "absent",
        Some(value) if value.as_str() == "" => "\"\"",
        Some(value) => value.as_str(),
    }
}

pub fn say_taken(out: &mut Answer, taken: Taken) {
    let (word, tag) = match taken {
        Taken::Stale => ("stale", None),
        Taken::Counted => ("counted", None),
        Taken::Ready => ("ready", None),
        Taken::Noted(tag) => ("noted ", Some(tag)),
        Taken::Agreed(tag) => ("agreed ", Some(tag)),
    };
    out.push(word);
    if let Some(tag) = tag {
        say_tag(out, tag);
    }
}

pub fn say_request(out: &mut Answer, request: &Request) {
    let (kind, op, key) = match request {
        Request::Query { op, key } => ("query", op.0, key.as_str()),
        Request::Put { op, key, .. } => ("put", op.0, key.as_str()),
    };
    write!(out, "{kind} {op} {key}");
    if let Request::Put { tag, value, .. } = request {
        out.push(" ");
        say_pair(out, *tag, value.as_ref());
    }
}

pub fn say_pair(out: &mut Answer, tag: Tag, value: Option<&Value>) {
    say_tag(out, tag);
    let value = value_text(value.map(|value| ValueRef::of(value)));
    write!(out, " {value}");
}

pub fn say_reply(out: &mut Answer, reply: &Reply) {
    let (kind, op, replica) = match reply {
        Reply::Held { op, replica, .. } => ("held", op.0, replica.get()),
        Reply::Kept { op, replica } => ("kept", op.0, replica.get()),
    };
    write!(out, "{kind} {op} from {replica}");
    if let Reply::Held { tag, value, .. } = reply {
        out.push(" ");
        say_pair(out, *tag, value.as_ref());
    }
}

pub fn say_message(out: &mut Answer, message: &Message) {
    let (kind, number) = match message {
        Message::ToReplica(replica, request) => {
            say_request(out, request);
            ("replica", u32::from(replica.get()))
        }
        Message::ToClient(client, reply) => {
            say_reply(out, reply);
            ("client", client.get())
        }
    };
    write!(out, " to {kind} {number}");
}

pub fn say_returned(out: &mut Answer, returned: &ReturnedRef<'_>) {
    out.push(match returned.answered() {
        None => "written",
        Some(value) => value_text(value),
    });
}

pub fn say_net_refusal(out: &mut Answer, refusal: NetRefusal) {
    let number = refusal as u8;
    write!(out, "refused {number} {refusal:?}");
}

pub fn say_row(out: &mut Answer, row: &Row<'_>) {
    let (op, said) = said_by(row);
    match said {
        RowSaid::Invoked(client, key, action) => {
            let (client, key) = (client.get(), key.as_str());
            write!(out, "invoke {op} by {client} {key} ");
            say_action(out, action);
        }
        RowSaid::Noted(tag) => {
            write!(out, "note {op} ");
            say_tag(out, tag);
        }
        RowSaid::Answered(returned) => {
            write!(out, "respond {op} ");
            say_returned(out, returned);
        }
    }
}

/// The replicas of a set, each with a space before it.
pub fn say_set(out: &mut Answer, set: ReplicaSet) {
    for number in 0..15 {
        if let Some(replica) = ReplicaId::new(number)
            && set.contains(replica)
        {
            write!(out, " {number}");
        }
    }
}

/// The word of a step, and the first of its numbers.
fn said_of(step: &Step) -> (&'static str, u32) {
    match step {
        Step::Invoke { client, .. } => ("invoke", client.get()),
        Step::Send { client, .. } => ("send", client.get()),
        Step::Join { client } => ("join", client.get()),
        Step::Respond { client } => ("respond", client.get()),
        Step::StopClient { client } => ("stop", client.get()),
        Step::Deliver { flight } => ("deliver", *flight),
        Step::Lose { flight } => ("lose", *flight),
        Step::Repeat { flight } => ("repeat", *flight),
        Step::StopReplica { replica } => ("down", u32::from(replica.get())),
        Step::StartReplica { replica } => ("up", u32::from(replica.get())),
    }
}

/// A step as rows write it, but that the key stands before the action.
pub fn say_step(out: &mut Answer, step: &Step) {
    let (word, number) = said_of(step);
    write!(out, "{word} {number}");
    match step {
        Step::Invoke { key, action, .. } => {
            let key = key.as_str();
            write!(out, " {key} ");
            say_action(out, &ActionRef::of(action));
        }
        Step::Send { replica, .. } => {
            let replica = replica.get();
            write!(out, " {replica}");
        }
        _ => {}
    }
}
