//! Requests, replies and messages as rows write them.
use crate::words::Words;
use network::Message;
use replica::{Pair, Reply, Request};
use std::alloc::Global;
use tag::Memory;

/// `(1, 1) a`.
fn pair_of(alloc: Global, mut words: Words<'_>) -> Option<Pair> {
    Some(Pair {
        tag: words.tag()?,
        value: words.value(alloc)?,
    })
}

/// `query 7 x`, or `put 4 x (1, 1) a`.
pub fn request_of(alloc: Global, mut words: Words<'_>) -> Option<Request> {
    let kind = words.word();
    let op = words.op()?;
    let key = words.key(alloc)?;
    match kind {
        "query" => Some(Request::Query { op, key }),
        "put" => {
            let Pair { tag, value } = pair_of(alloc, words)?;
            Some(Request::Put {
                op,
                key,
                tag,
                value,
            })
        }
        _ => None,
    }
}

/// `held 4 from 0 (1, 1) a`, or `kept 4 from 0`.
pub fn reply_of(alloc: Global, mut words: Words<'_>) -> Option<Reply> {
    let kind = words.word();
    let op = words.op()?;
    let _ = words.word();
    let replica = words.replica()?;
    match kind {
        "kept" => Some(Reply::Kept { op, replica }),
        "held" => Some(Reply::Held {
            op,
            replica,
            tag: words.tag()?,
            value: words.value(alloc)?,
        }),
        _ => None,
    }
}

/// A request with `to replica 1` before it, or a reply with `to client 1` before it.
pub fn message_of(alloc: Global, mut words: Words<'_>) -> Option<Message> {
    let _ = words.word();
    match words.word() {
        "replica" => {
            let replica = words.replica()?;
            Some(Message::ToReplica(replica, request_of(alloc, words)?))
        }
        "client" => {
            let client = words.client()?;
            Some(Message::ToClient(client, reply_of(alloc, words)?))
        }
        _ => None,
    }
}

/// How a copy compares with what it is of.
fn compared<T: PartialEq + Drop>(copy: Result<T, Memory>, original: &T) -> &'static str {
    match copy {
        Ok(copy) if copy == *original => "equal",
        Ok(_) => "different",
        Err(_) => "NO MEMORY",
    }
}

/// How the copy of the pair that is written compares with it.
fn copied_pair(alloc: Global, words: Words<'_>) -> &'static str {
    match pair_of(alloc, words) {
        Some(pair) => compared(pair.copy(), &pair),
        None => "NO SUCH COPY",
    }
}

/// How the copy of what is written compares with it.
pub fn copied(alloc: Global, line: &str) -> &'static str {
    let words = Words { rest: line };
    if let Some(request) = request_of(alloc, words) {
        return compared(request.copy(), &request);
    }
    if let Some(reply) = reply_of(alloc, words) {
        return compared(reply.copy(), &reply);
    }
    match message_of(alloc, words) {
        Some(message) => compared(message.copy(), &message),
        None => copied_pair(alloc, words),
    }
}
