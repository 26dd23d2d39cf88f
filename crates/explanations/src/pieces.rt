//! Sentences, as they are put together.
ghost use Rattle.std.specs.Prelude.{◌≡◌, ◌++◌, OnOk};
ghost use Rattle.explanations.specs.Pieces.{pieces_text, with_piece};

use crate::hall_rows::HallRows;
use crate::words::{append_above, append_due, append_op};
use recorder::{ActionRef, Call, ValueRef};
use sentences::{append, append_number, append_tag};
use tag::{Key, Memory, OpId, Tag};

/// A piece of a sentence.
#[derive(Drop)]
pub(crate) enum Piece<'a> {
    /// The words.
    Words(&'a str),
    /// The words, and then the key.
    Key(&'a str),
    /// The words, and then the number.
    Number(&'a str, u64),
    /// The words, and then the call's number.
    Op(&'a str, OpId),
    /// The tag.
    Noted(Tag),
    /// The tags that a call of that action may have after a call that is noted with the tag.
    Above(&'a ActionRef<'a>, Tag),
    /// What a read should have answered, a line.
    Due(Option<ValueRef<'a>>),
    /// The words, and then the call to the end of the line.
    Line(&'a str, &'a Call<'a>),
    /// The words, the place in the order, and the call that stands there, a line.
    Placed(&'a str, usize, &'a Call<'a>),
}

/// What sentences are about: a key, and the rows of its hall.
#[derive(Clone, Copy)]
pub(crate) struct Subject<'k, 'h> {
    pub key: &'k Key,
    pub hall: HallRows<'h>,
}

impl Subject<'_, '_> {
    /// Adds the piece.
    fn say_piece(&self, text: &mut Vec<u8>, piece: &Piece<'_>) -> Result<(), Memory>
        ensures { OnOk result (text.new.items
            ≡ with_piece self.now.key.now self.now.hall text.old.items piece.now) }
    {
        match piece {
            Piece::Words(words) => append(text, words),
            Piece::Key(words) => {
                append(text, words)?;
                append(text, self.key.as_str())
            }
            Piece::Number(words, number) => append_number(text, words, *number),
            Piece::Op(words, op) => append_op(text, words, *op),
            Piece::Noted(tag) => append_tag(text, *tag),
            Piece::Above(action, tag) => append_above(text, action, *tag),
            Piece::Due(value) => append_due(text, value),
            Piece::Line(words, call) => self.append_line(text, words, call),
            Piece::Placed(words, place, call) => self.append_placed(text, words, *place, call),
        }
    }

    /// Adds the pieces, one after another.
    pub(crate) fn say(&self, text: &mut Vec<u8>, pieces: &[Piece<'_>]) -> Result<(), Memory>
        ensures { OnOk result (text.new.items
            ≡ text.old.items ++ pieces_text self.now.key.now self.now.hall pieces.now) }
    {
        for piece in pieces {
            self.say_piece(text, piece)?;
        }
        Ok(())
    }
}
