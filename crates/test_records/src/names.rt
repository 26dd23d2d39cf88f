//! Steps on names, values and tags.

use crate::words::{first_word, meant, number, two_numbers};
use std::alloc::Global;
use std::cmp::Ordering;
use tag::{Action, ClientId, Key, Memory, OpId, ReplicaId, Returned, Tag, Value};
use test_rows::{Answer, say_tag};

/// Says how one thing stands to another in an order.
fn said_order(order: Ordering) -> &'static str {
    match order {
        Ordering::Less => "below\n",
        Ordering::Equal => "equal\n",
        Ordering::Greater => "above\n",
    }
}

fn said_taken(taken: bool) -> &'static str {
    if taken { "taken\n" } else { "refused\n" }
}

pub fn said_equal(equal: bool) -> &'static str {
    if equal { "equal\n" } else { "another\n" }
}

/// How the copy of a thing stands to it.
fn said_copy<T: PartialEq + Drop>(copy: Result<T, Memory>, original: &T) -> Option<&'static str> {
    match copy {
        Ok(copy) => Some(said_equal(copy == *original)),
        Err(Memory) => None,
    }
}

/// Says a text that was taken, and whether its copy is equal.
fn say_text(out: &mut Answer, text: &str, copy: Option<&str>) {
    match copy {
        Some(copy) => write!(out, "taken {text}, copy {copy}"),
        None => out.refuse(),
    }
}

/// The key that is made of the text, and whether its copy is equal.
fn say_key_of(out: &mut Answer, text: &str) {
    match Key::new(out.alloc(), text) {
        Ok(key) => say_text(out, key.as_str(), said_copy(key.copy(), &key)),
        Err(error) => write!(out, "refused {error:?}\n"),
    }
}

/// The value that is made of the text, and whether its copy is equal.
fn say_value_of(out: &mut Answer, text: &str) {
    match Value::new(out.alloc(), text) {
        Ok(value) => say_text(out, value.as_str(), said_copy(value.copy(), &value)),
        Err(error) => write!(out, "refused {error:?}\n"),
    }
}

/// The key or the value of a text.
fn say_made_of(out: &mut Answer, word: &str, text: &str) {
    match word {
        "key" => say_key_of(out, text),
        _ => say_value_of(out, text),
    }
}

/// The key or the value of the text that is meant.
fn say_made(out: &mut Answer, word: &str, words: &str) {
    match meant(out.alloc(), words) {
        Ok(text) => say_made_of(out, word, text.as_str()),
        Err(_) => out.refuse(),
    }
}

/// The tag that a client takes after the least: `next CLIENT`.
fn next(words: &str) -> Option<Tag> {
    let client = ClientId::new(number(words)?).ok()?;
    Some(Tag::least().next(client))
}

/// Says the tag that comes next. Whether there is one.
fn say_next(out: &mut Answer, tag: Option<Tag>) -> bool {
    match tag {
        Some(tag) => {
            say_tag(out, tag);
            out.push("\n");
            true
        }
        None => false,
    }
}

/// The action of the words `read` or `write TEXT`.
pub fn action_of(alloc: Global, words: &str) -> Option<Action> {
    match first_word(words) {
        ("read", "") => Some(Action::Read),
        ("write", text) => Some(Action::Write(Value::new(alloc, text).ok()?)),
        _ => None,
    }
}

/// The answer of the words `written`, `none` or `value TEXT`.
pub fn returned_of(alloc: Global, words: &str) -> Option<Returned> {
    match first_word(words) {
        ("written", "") => Some(Returned::Written),
        ("none", "") => Some(Returned::Value(None)),
        ("value", text) => Some(Returned::Value(Some(Value::new(alloc, text).ok()?))),
        _ => None,
    }
}

/// Whether the copy of an answer is equal to it.
fn copied_answer(alloc: Global, words: &str) -> Option<&'static str> {
    match returned_of(alloc, words) {
        Some(returned) => said_copy(returned.copy(), &returned),
        None => None,
    }
}

/// Whether the copy of an action or an answer is equal to it.
fn copied(alloc: Global, words: &str) -> Option<&'static str> {
    match action_of(alloc, words) {
        Some(action) => said_copy(action.copy(), &action),
        None => copied_answer(alloc, words),
    }
}

/// The tag of the words `NUMBER WRITER`.
pub fn tag_of(words: &str) -> Option<Tag> {
    let (number, writer) = two_numbers(words)?;
    Tag::new(number, writer)
}

/// How a tag stands to another: `NUMBER WRITER to NUMBER WRITER`.
fn order(words: &str) -> Option<&'static str> {
    let (one, other) = words.split_once(" to ")?;
    let (one, other) = tag_of(one).zip(tag_of(other))?;
    Some(said_order(one.cmp(&other)))
}

/// How a call's number stands to another's.
fn calls(words: &str) -> Option<&'static str> {
    let (one, other) = two_numbers(words)?;
    Some(said_order(OpId(one).cmp(&OpId(other))))
}

/// What stands for a number of a client, of a replica, or for a tag.
fn range(word: &str, rest: &str) -> Option<&'static str> {
    let taken = match word {
        "client" => ClientId::new(number(rest)?).is_ok(),
        "replica" => ReplicaId::new(rest.parse::<u8>().ok()?).is_some(),
        "tag" => {
            let (number, writer) = two_numbers(rest)?;
            Tag::new(number, writer).is_some()
        }
        _ => return None,
    };
    Some(said_taken(taken))
}

/// What is said of a step on names that has one of a few answers, if it is such a step.
fn answer(alloc: Global, word: &str, rest: &str) -> Option<&'static str> {
    match word {
        "order" => order(rest),
        "calls" => calls(rest),
        "copy" => copied(alloc, rest),
        _ => range(word, rest),
    }
}

/// Says such an answer. Whether there is one.
pub fn say_found(out: &mut Answer, found: Option<&str>) -> bool {
    match found {
        Some(text) => {
            out.push(text);
            true
        }
        None => false,
    }
}

/// Says what comes of a step on names. Whether it is one.
pub fn say(out: &mut Answer, word: &str, rest: &str) -> bool {
    match word {
        "key" | "value" => {
            say_made(out, word, rest);
            true
        }
        "next" => say_next(out, next(rest)),
        _ => say_found(out, answer(out.alloc(), word, rest)),
    }
}
