//! Two families that must precede each other, as they are told.
ghost use Rattle.std.specs.Prelude.{◌≡◌};
ghost use Rattle.value_explanations.specs.ValueSentences.{is_one, opposition_of};

use tag::OpId;
use value_order::Side;

/// How two families that must precede each other are told.
#[derive(Clone, Copy)]
pub(crate) enum Opposition {
    /// The first call precedes the second, and that the third; the first and the third are of one
    /// family.
    Chain(OpId, OpId, OpId),
    /// Each family has two calls.
    Crossed(Side, Side),
}

/// Whether one call of the family shows both.
fn is_one(side: Side) -> bool
    ensures { result ≡ is_one side }
{
    side.first_ended.0 == side.last_begun.0
}

impl Opposition {
    /// How the two are told.
    pub(crate) fn of(a: Side, b: Side) -> Opposition
        ensures { result ≡ opposition_of a b }
    {
        if is_one(b) {
            Opposition::Chain(a.first_ended, b.last_begun, a.last_begun)
        } else if is_one(a) {
            Opposition::Chain(b.first_ended, a.last_begun, b.last_begun)
        } else {
            Opposition::Crossed(a, b)
        }
    }
}
