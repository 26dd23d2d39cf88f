//! What lines are put together from.
ghost use Rattle.std.specs.Prelude.{◌≡◌, ◌++◌, OnOk};
ghost use Rattle.monitor_sentences.specs.Pieces.{pieces_text, with_piece};

use sentences::{append, append_number, append_quoted, append_tag};
use tag::{Memory, Tag};

/// A piece of a line.
#[derive(Drop)]
pub(crate) enum Piece<'a> {
    /// The words.
    Words(&'a str),
    /// The words, and then the number.
    Number(&'a str, u64),
    /// The text as a JSON text.
    Quoted(&'a str),
    /// The tag.
    Tag(Tag),
}

/// Adds the piece.
fn say_piece(text: &mut Vec<u8>, piece: &Piece<'_>) -> Result<(), Memory>
    ensures { OnOk result (text.new.items ≡ with_piece text.old.items piece.now) }
{
    match piece {
        Piece::Words(words) => append(text, words),
        Piece::Number(words, number) => append_number(text, words, *number),
        Piece::Quoted(words) => append_quoted(text, words),
        Piece::Tag(tag) => append_tag(text, *tag),
    }
}

/// Adds the pieces, one after another.
pub(crate) fn say(text: &mut Vec<u8>, pieces: &[Piece<'_>]) -> Result<(), Memory>
    ensures { OnOk result (text.new.items ≡ text.old.items ++ pieces_text pieces.now) }
{
    for piece in pieces {
        say_piece(text, piece)?;
    }
    Ok(())
}
