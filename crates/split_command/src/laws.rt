//! Laws of what a split wrote, each the contract of a function that does nothing.
ghost use Rattle.std.specs.Prelude.{ℕ, ◌↔◌, List};
ghost use Rattle.recorder.specs.declared.row.Row.{Row};
ghost use Rattle.recorder.specs.declared.part.Call.{Call};
ghost use Rattle.recorder.specs.Histories.{IsWellFormed};
ghost use Rattle.recorder.specs.Orders.{IsLinearizable};
ghost use Rattle.recorder.specs.Records.{IsPart};
ghost use Rattle.file_format.specs.ReadAgain.{IsTextOfRows};
ghost use Rattle.file_format.specs.Texts.{numbered_history_text};
ghost use Rattle.split_rows.specs.Pieces.{IsKeyOf};
ghost use Rattle.split_command.specs.declared.splitting.Split.{Split};
ghost use Rattle.split_command.specs.Endings.{HasPieces};

use counted_devices::CountedWrite;
use file_format::laws::numbered_rows_are_read_from_their_text;
use split_rows::laws::{
    a_key_is_linearizable_exactly_if_it_is_in_its_piece, a_piece_of_a_history_is_a_history,
};

/// The text of each piece is read as the rows of the piece, and as no others; and a key is linearizable in the history
/// exactly if it is in its piece.
pub fn pieces_are_read_and_judged_as_the_history<W: CountedWrite>()
    ensures read { (parts : ℕ) (rows : List Row) (split : Split W) (p : ℕ) → IsWellFormed rows
        → (has : HasPieces W.contents parts rows split)
        → IsTextOfRows (numbered_history_text (has.numbered p)) (has.pieces p) }
    ensures judged { (parts : ℕ) (rows : List Row) (split : Split W) (p : ℕ) (key : List ℕ)
        (part moved : List Call) → IsWellFormed rows
        → (has : HasPieces W.contents parts rows split) → IsKeyOf parts has.keys p key
        → IsPart rows key part → IsPart (has.pieces p) key moved
        → IsLinearizable part ↔ IsLinearizable moved }
{
    numbered_rows_are_read_from_their_text();
    a_piece_of_a_history_is_a_history();
    a_key_is_linearizable_exactly_if_it_is_in_its_piece();
}
