//! Words and numbers of calls, as a line is put together.
ghost use Rattle.std.specs.Prelude.{◌≡◌, ◌++◌, decimal, OnOk};
ghost use Rattle.value_explanations.specs.Pieces.{pieces_text, with_piece};

use sentences::{append, append_number};
use tag::{Memory, OpId};

/// A piece of a line.
#[derive(Drop)]
pub(crate) enum Piece<'a> {
    /// The words.
    Words(&'a str),
    /// The words, and then the call's number.
    Op(&'a str, OpId),
}

/// Adds the words and then the call's number.
pub(crate) fn append_op(text: &mut Vec<u8>, words: &str, op: OpId) -> Result<(), Memory>
    ensures { OnOk result (text.new.items ≡ text.old.items ++ (words.now ++ decimal op.0)) }
{
    append_number(text, words, u64::from(op.0))
}

/// Adds the piece.
fn say_piece(text: &mut Vec<u8>, piece: &Piece<'_>) -> Result<(), Memory>
    ensures { OnOk result (text.new.items ≡ with_piece text.old.items piece.now) }
{
    match piece {
        Piece::Words(words) => append(text, words),
        Piece::Op(words, op) => append_op(text, words, *op),
    }
}

/// Adds the pieces, one after another.
pub(crate) fn say(text: &mut Vec<u8>, pieces: &[Piece<'_>]) -> Result<(), Memory>
    ensures { OnOk result (text.new.items ≡ text.old.items ++ pieces_text pieces.now) }
{
    for piece in pieces {
        say_piece(text, piece)?;
    }
    Ok(())
}
