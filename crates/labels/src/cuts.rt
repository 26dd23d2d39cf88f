//! Texts, cut to the room that they have.
ghost use Rattle.std.specs.Prelude.{◌≡◌, ◌++◌, IfOk, OnOk};
ghost use Rattle.std.specs.Char.{encode_utf8};
ghost use Rattle.std.specs.String.{string_bytes};
ghost use Rattle.markup.specs.Escapes.{escaped};
ghost use Rattle.markup.specs.Markup.{rendered};
ghost use Rattle.labels.specs.Cuts.{beginning, cells, cut, fits};

use crate::style::ELLIPSIS;
use markup::append_text;
use std::alloc::Global;
use tag::Memory;

/// How many letters' room the character takes.
fn cells(c: char) -> u64
    ensures { result ≡ cells c }
{
    if c < '\u{1100}' { 1 } else { 2 }
}

/// Adds the character.
fn push_char(kept: &mut String, c: char) -> Result<(), Memory>
    ensures { OnOk result (string_bytes kept.new ≡ string_bytes kept.old ++ encode_utf8 c) }
{
    kept.push(c)?;
    Ok(())
}

/// The beginning of the text that fits into the room.
fn beginning(alloc: Global, words: &str, room: u64) -> Result<String, Memory>
    ensures { IfOk result (λ kept. string_bytes kept ≡ beginning room words.now) }
{
    let mut kept = String::new(alloc);
    let mut left = room;
    for c in words.chars() {
        let width = cells(c);
        if left < width {
            return Ok(kept);
        }
        left -= width;
        push_char(&mut kept, c)?;
    }
    Ok(kept)
}

/// Whether the text fits into the room.
fn fits(alloc: Global, words: &str, room: u64) -> Result<bool, Memory>
    ensures { IfOk result (λ it. it ≡ fits room words.now) }
{
    let kept = beginning(alloc, words, room)?;
    Ok(kept.len() == words.len())
}

/// Adds the beginning of the text that fits into the room.
fn append_beginning(alloc: Global, page: &mut Vec<u8>, words: &str, room: u64) -> Result<(), Memory>
    ensures { OnOk result
        (page.new.items ≡ page.old.items ++ escaped (beginning room words.now)) }
{
    let kept = beginning(alloc, words, room)?;
    append_text(page, kept.as_str())
}

/// Adds the text, or, if it doesn't fit into the room, a beginning of it and an ellipsis.
#[tactic(auto, unfolding(markup::specs::Markup::rendered))]
pub(crate) fn append_cut(
    alloc: Global,
    page: &mut Vec<u8>,
    words: &str,
    room: u64,
) -> Result<(), Memory>
    ensures { OnOk result (page.new.items ≡ page.old.items ++ rendered (cut room words.now)) }
{
    if fits(alloc, words, room)? {
        return append_text(page, words);
    }
    append_beginning(alloc, page, words, room.saturating_sub(1))?;
    append_text(page, ELLIPSIS)
}
