//! Steps of the network and of a replica.
use crate::messages::{message_of, request_of};
use crate::texts::{say_message, say_net_refusal, say_pair, say_reply};
use crate::words::Words;
use network::{Message, NetRefusal, Pool};
use replica::{Replica, Reply, Request};
use tag::{ClientId, Key, OpId, ReplicaId};
use test_rows::Answer;

fn say_outcome(out: &mut Answer, outcome: Result<(), NetRefusal>, word: &str) {
    match outcome {
        Ok(()) => out.push(word),
        Err(refusal) => say_net_refusal(out, refusal),
    }
}

fn send(out: &mut Answer, pool: &mut Pool, message: Message) {
    match pool.send(message) {
        Ok(number) => write!(out, "sent {number}"),
        Err(refusal) => say_net_refusal(out, refusal),
    }
}

fn send_line(out: &mut Answer, pool: &mut Pool, words: Words<'_>) {
    match message_of(out.alloc(), words) {
        Some(message) => send(out, pool, message),
        None => out.push("NO SUCH MESSAGE"),
    }
}

fn deliver(out: &mut Answer, pool: &mut Pool, number: u32) {
    match pool.deliver(number) {
        Ok(message) => say_message(out, &message),
        Err(refusal) => say_net_refusal(out, refusal),
    }
}

fn say_found(out: &mut Answer, message: Option<&Message>) {
    match message {
        Some(message) => say_message(out, message),
        None => out.push("nothing"),
    }
}

/// Sends a message of the call of that number, and loses it. Whether it had that number; none where memory was refused.
fn is_sent_and_lost(
    pool: &mut Pool,
    client: ClientId,
    replica: ReplicaId,
    number: u32,
) -> Option<bool> {
    let op = OpId(number);
    match pool.send(Message::ToClient(client, Reply::Kept { op, replica })) {
        Ok(sent) => Some(sent == number && pool.lose(number).is_ok()),
        Err(NetRefusal::Memory) => None,
        Err(_) => Some(false),
    }
}

/// Sends and loses so many messages. How many of them had the number that came next.
fn sent_and_lost(pool: &mut Pool, times: u32) -> Option<u32> {
    let (client, replica) = (ClientId::new(1).ok()?, ReplicaId::new(0)?);
    let mut lost = 0u32;
    for number in 0..times {
        if is_sent_and_lost(pool, client, replica, number)? {
            lost = lost.saturating_add(1);
        }
    }
    Some(lost)
}

fn send_and_lose(out: &mut Answer, pool: &mut Pool, times: u32) {
    match sent_and_lost(pool, times) {
        Some(lost) => write!(out, "{lost} sent in turn and lost"),
        None => out.push("NO MEMORY"),
    }
}

fn say_pool(out: &mut Answer, pool: &Pool) {
    let (sent, stored, limit) = (pool.sent(), pool.stored(), pool.limit());
    write!(out, "{sent} sent of {limit}, {stored} under way");
}

/// What the network answers to a step or a question about a number.
fn answer_number(out: &mut Answer, pool: &mut Pool, kind: &str, number: u32) {
    match kind {
        "deliver" => deliver(out, pool, number),
        "lose" => say_outcome(out, pool.lose(number), "lost"),
        "repeat" => say_outcome(out, pool.repeat(number), "repeated"),
        "unsend" => say_found(out, pool.unsend().as_ref()),
        "look?" => say_found(out, pool.look(number)),
        "copies?" => {
            let copies = pool.copies(number);
            write!(out, "{copies}");
        }
        "send-and-lose" => send_and_lose(out, pool, number),
        "pool?" => say_pool(out, pool),
        _ => out.push("NO SUCH STEP"),
    }
}

/// What the network answers to a step or a question.
pub fn pool_answers(out: &mut Answer, pool: &mut Pool, line: &str) {
    let mut words = Words { rest: line };
    match words.word() {
        "send" => send_line(out, pool, words),
        kind => {
            let number = words.number().unwrap_or(0);
            answer_number(out, pool, kind, number);
        }
    }
}

fn say_held(out: &mut Answer, replica: &Replica, key: &Key) {
    let (tag, value) = replica.held(key);
    say_pair(out, tag, value);
}

fn say_held_line(out: &mut Answer, replica: &Replica, mut words: Words<'_>) {
    match words.key(out.alloc()) {
        Some(key) => say_held(out, replica, &key),
        None => out.push("NO SUCH KEY"),
    }
}

fn handle(out: &mut Answer, replica: &mut Replica, request: &Request) {
    match replica.handle(request) {
        Ok(reply) => say_reply(out, &reply),
        Err(_) => out.push("NO MEMORY"),
    }
}

fn handle_line(out: &mut Answer, replica: &mut Replica, line: &str) {
    match request_of(out.alloc(), Words { rest: line }) {
        Some(request) => handle(out, replica, &request),
        None => out.push("NO SUCH STEP"),
    }
}

/// What a replica answers to a request, or to `held? x`.
pub fn replica_answers(out: &mut Answer, replica: &mut Replica, line: &str) {
    let mut words = Words { rest: line };
    match words.word() {
        "held?" => say_held_line(out, replica, words),
        _ => handle_line(out, replica, line),
    }
}
