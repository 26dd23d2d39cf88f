//! The calls of a caller: caller 1 writes `k0` and reads it, in turn; others read `k0`, and write `k1` or read it.
use crate::steps::Wanted;
use std::alloc::Global;

/// How many calls each caller makes.
pub const TURNS: u32 = 50;

/// What a caller does at a turn: the key's name, the text that it writes if it does, and what has to come of that.
#[derive(Clone, Copy)]
pub struct Turn<'a> {
    pub name: &'static str,
    pub text: Option<&'a str>,
    pub wanted: Wanted<'a>,
}

/// Whether the caller writes at the turn.
fn is_write(caller: u32, turn: u32) -> bool {
    if caller == 1 {
        return turn % 2 == 0;
    }
    turn % 2 == 1 && u32::wrapping_add(turn / 2, caller) % 2 == 0
}

/// The text that the caller writes at the turn or, if it is caller 1 and reads, wrote at the turn before.
pub fn text_of(alloc: Global, caller: u32, turn: u32) -> Option<String> {
    let written = if caller == 1 { turn - turn % 2 } else { turn };
    format!(in alloc; "c{caller}t{written}").ok()
}

/// What the caller does at the turn, with that text.
pub fn turn_of(caller: u32, turn: u32, text: &str) -> Turn<'_> {
    let is_write = is_write(caller, turn);
    Turn {
        name: if caller == 1 || turn % 2 == 0 {
            "k0"
        } else {
            "k1"
        },
        text: if is_write { Some(text) } else { None },
        wanted: if caller == 1 && !is_write {
            Wanted::Gives(text)
        } else {
            Wanted::Answered
        },
    }
}
