//! Pieces of orders as lines say them.
ghost use Rattle.std.specs.Prelude.{◌≡◌, true, IfOk};
ghost use Rattle.tag.specs.Names.{is_key};

use crate::line_texts::{LinePlace, LineText, LineTexts};
use recorder::Order;
use std::marker::Model;
use tag::{Memory, OpId};

/// A piece of a key's order, as a line of an order file has it. Its key is a part of the bytes that the line
/// is of.
#[derive(Debug, Drop)]
pub struct OrderPiece {
    pub(crate) texts: LineTexts,
    pub(crate) order: Order,
}

impl Model for OrderPiece {
    ghost use Rattle.std.specs.Prelude.{◌≡◌, true};
    ghost use Rattle.tag.specs.Names.{is_key};
    ghost use Rattle.recorder.specs.declared.order.KeyOrder.{KeyOrder};

    ghost Value = { KeyOrder };

    ghost view = { λ p. record { key = p.texts.key; order = p.order } };

    ghost invariant = { λ p. is_key p.texts.key ≡ true };
}

impl OrderPiece {
    /// The piece with that key, whose line stands there.
    pub(crate) fn new(
        place: &LinePlace,
        key: LineText<'_>,
        order: Order,
    ) -> Result<OrderPiece, Memory>
        requires { is_key key.text.now ≡ true }
        ensures key { IfOk result (λ piece. piece.key ≡ key.entry.text.now) }
        ensures order { IfOk result (λ piece. piece.order ≡ order) }
    {
        let texts = LineTexts::new(place, key, LineText::none())?;
        Ok(OrderPiece { texts, order })
    }

    /// The key.
    pub(crate) fn key(&self) -> &str
        ensures text { result.now ≡ self.now.key }
        ensures lawful { is_key self.now.key ≡ true }
    {
        self.texts.key()
    }

    /// The calls.
    pub fn calls(&self) -> &[OpId]
        ensures { result.now ≡ self.now.order }
    {
        self.order.as_slice()
    }
}
