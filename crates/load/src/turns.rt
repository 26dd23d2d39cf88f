//! Which call a caller makes at a turn.
ghost use Rattle.std.specs.Prelude.{◌≡◌, ◌<◌, ◌≤◌, true, IfOk, length, string_bytes};
ghost use Rattle.tag.specs.Limits.{value_limit};
ghost use Rattle.tag.specs.Names.{is_key};
ghost use Rattle.load.specs.Ranges.{IsIn, keys_range};
ghost use Rattle.load.specs.Turns.{action_at, key_at, key_number, key_text, value_text, writes};

use itoa::Buffer;
use std::alloc::{AllocError, Global};
use tag::{Action, Key, Memory, NameError, Value};

/// A turn of a caller.
#[derive(Clone, Copy, Debug, PartialEq, Eq)]
pub struct Turn {
    /// How many keys there are, 1 to 8.
    pub keys: u8,
    /// The caller.
    pub caller: u32,
    /// The turn, from 0.
    pub number: u16,
}

/// The number of the turn's key: caller 1 keeps to key 0, the others take one after another.
fn key_number(turn: Turn) -> u8
    requires { 1 ≤ turn.keys }
    ensures { result ≡ key_number turn }
{
    if turn.caller == 1 {
        return 0;
    }
    (turn.number % u16::from(turn.keys)) as u8
}

/// Whether the caller writes: caller 1 at even turns, the others alternately with reading, on keys above 0.
fn writes(turn: Turn) -> bool
    requires { 1 ≤ turn.keys }
    ensures { result ≡ writes turn }
{
    if turn.caller == 1 {
        return turn.number % 2 == 0;
    }
    if key_number(turn) == 0 {
        return false;
    }
    let round = u64::from(turn.number / u16::from(turn.keys));
    (round + u64::from(turn.caller)) % 2 == 0
}

/// The text of the key of that number.
fn key_text(number: u8) -> &'static str
    requires { number < keys_range.most }
    ensures text { result.now ≡ key_text number }
    ensures lawful { is_key result.now ≡ true }
{
    match number {
        0 => "k0",
        1 => "k1",
        2 => "k2",
        3 => "k3",
        4 => "k4",
        5 => "k5",
        6 => "k6",
        _ => "k7",
    }
}

/// The key of that number.
fn key_of(alloc: Global, number: u8) -> Result<Key, Memory>
    requires { number < keys_range.most }
    ensures { IfOk result (λ key. key ≡ key_text number) }
{
    match Key::new(alloc, key_text(number)) {
        Ok(key) => Ok(key),
        Err(NameError::Memory) => Err(Memory),
        Err(_) => unreachable!(),
    }
}

/// The text of the turn: a c with the caller, and a t with the turn's number.
fn text_of(alloc: Global, turn: Turn) -> Result<String, AllocError>
    ensures text { IfOk result (λ text. string_bytes text ≡ value_text turn) }
    ensures short { IfOk result (λ text. length (string_bytes text) ≤ value_limit) }
{
    let mut digits = Buffer::new();
    let mut text = String::from_str(alloc, "c")?;
    text.push_str(digits.format(turn.caller))?;
    text.push_str("t")?;
    text.push_str(digits.format(turn.number))?;
    Ok(text)
}

/// The value that is written at the turn.
fn value_of(alloc: Global, turn: Turn) -> Result<Value, Memory>
    ensures { IfOk result (λ value. value ≡ value_text turn) }
{
    let text = text_of(alloc, turn)?;
    match Value::new(alloc, text.as_str()) {
        Ok(value) => Ok(value),
        Err(NameError::Memory) => Err(Memory),
        Err(_) => unreachable!(),
    }
}

/// What the caller does at the turn.
fn action_of(alloc: Global, turn: Turn) -> Result<Action, Memory>
    requires { 1 ≤ turn.keys }
    ensures { IfOk result (λ action. action ≡ action_at turn) }
{
    if writes(turn) {
        Ok(Action::Write(value_of(alloc, turn)?))
    } else {
        Ok(Action::Read)
    }
}

/// The key and the action of the caller's call at the turn. `Memory` comes only where room for a text
/// was refused.
pub fn call_at(alloc: Global, turn: Turn) -> Result<(Key, Action), Memory>
    requires { IsIn keys_range turn.keys }
    ensures key { IfOk result (λ call. call.0 ≡ key_at turn) }
    ensures action { IfOk result (λ call. call.1 ≡ action_at turn) }
{
    let key = key_of(alloc, key_number(turn))?;
    Ok((key, action_of(alloc, turn)?))
}
