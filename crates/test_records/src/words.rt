//! Words of a row's lines.

use std::alloc::{AllocError, Global};
use test_rows::Answer;

/// The first word and what follows it.
pub fn first_word(line: &str) -> (&str, &str) {
    line.split_once(' ').unwrap_or((line, ""))
}

/// The number that the text is.
pub fn number(text: &str) -> Option<u32> {
    text.parse::<u32>().ok()
}

/// The two numbers that the text is, one after the other.
pub fn two_numbers(text: &str) -> Option<(u32, u32)> {
    let (first, second) = first_word(text);
    number(first).zip(number(second))
}

/// Adds a text in which `\n` stands for the end of a line, at most once.
fn push_unit(out: &mut Answer, unit: &str) {
    match unit.split_once("\\n") {
        Some((before, after)) => {
            out.push(before);
            out.push("\n");
            out.push(after);
        }
        None => out.push(unit),
    }
}

/// The text that is meant: `<65*k>` stands for 65 times `k`, and `\n` for the end of a line.
pub fn meant(alloc: Global, text: &str) -> Result<String, AllocError> {
    let mut whole = Answer::new(alloc);
    let (count, unit) = repeated(text).unwrap_or((1, text));
    for _ in 0..count {
        push_unit(&mut whole, unit);
    }
    whole.text()
}

/// How often which text is meant, where it is written as `<65*k>`.
fn repeated(text: &str) -> Option<(u32, &str)> {
    match text.split_once('<')? {
        ("", marked) => {
            let (inside, _) = marked.split_once('>')?;
            let (count, unit) = inside.split_once('*')?;
            Some((number(count)?, unit))
        }
        _ => None,
    }
}
