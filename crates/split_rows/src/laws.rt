//! Laws of pieces, each the contract of a function that does nothing.
ghost use Rattle.std.specs.Prelude.{◌≡◌, ◌<◌, ◌↔◌, ℕ, List, Option, map};
ghost use Rattle.tag.specs.declared.numbers.OpId.{OpId};
ghost use Rattle.recorder.specs.declared.row.Row.{Row};
ghost use Rattle.recorder.specs.declared.part.Call.{Call};
ghost use Rattle.recorder.specs.Histories.{IsWellFormed};
ghost use Rattle.recorder.specs.Orders.{IsLinearizable, IsOrder};
ghost use Rattle.recorder.specs.Records.{BeginsAt, IsPart};
ghost use Rattle.split_rows.specs.declared.taken.Taken.{Taken};
ghost use Rattle.split_rows.specs.MovedParts.{IsMovedPart};
ghost use Rattle.split_rows.specs.Pieces.{ArePieces, IsCallOf, IsKeyOf};
ghost use Rattle.split_rows.specs.Splits.{HasSplit};

use recorder::laws::a_part_is_one_list;

/// What a splitter has split are the pieces of the rows that it has taken.
pub fn a_splitter_has_the_pieces_of_its_rows()
    ensures { (parts : ℕ) (rows : List Row) (pieces : ℕ → List Row) (splitter : Option Taken)
        → HasSplit parts rows pieces splitter → (keys : List (List ℕ)) × (number : OpId → OpId)
        × ArePieces parts rows keys number pieces }
{}

/// A history of so many pieces has these alone.
pub fn a_piece_is_one_list()
    ensures { (parts : ℕ) (rows : List Row) (keys later : List (List ℕ)) (number other : OpId → OpId)
        (pieces others : ℕ → List Row) (p : ℕ) → IsWellFormed rows
        → ArePieces parts rows keys number pieces → ArePieces parts rows later other others
        → pieces p ≡ others p }
{}

/// A piece of a history is a history.
pub fn a_piece_of_a_history_is_a_history()
    ensures { (parts : ℕ) (rows : List Row) (keys : List (List ℕ)) (number : OpId → OpId)
        (pieces : ℕ → List Row) (p : ℕ) → IsWellFormed rows → ArePieces parts rows keys number pieces
        → IsWellFormed (pieces p) }
{}

/// The calls of a piece have their numbers in the same order as in the history.
pub fn a_piece_keeps_the_order_of_numbers()
    ensures { (parts : ℕ) (rows : List Row) (keys : List (List ℕ)) (number : OpId → OpId)
        (pieces : ℕ → List Row) (p : ℕ) (a b : OpId) → IsWellFormed rows
        → ArePieces parts rows keys number pieces → IsCallOf rows (IsKeyOf parts keys p) a
        → IsCallOf rows (IsKeyOf parts keys p) b → (a.0 < b.0) ↔ ((number a).0 < (number b).0) }
{}

/// A key on which a call is begun is one of one piece's, and no other piece has a call on it.
pub fn a_key_is_in_one_piece()
    ensures { (parts : ℕ) (rows : List Row) (keys : List (List ℕ)) (number : OpId → OpId)
        (pieces : ℕ → List Row) (key : List ℕ) (place : ℕ) → 0 < parts → IsWellFormed rows
        → ArePieces parts rows keys number pieces → BeginsAt rows key place
        → (p : ℕ) × (p < parts) × IsKeyOf parts keys p key
        × ((q at : ℕ) → BeginsAt (pieces q) key at → q ≡ p) }
{}

/// The part of a key is in its piece what it is in the history, but for numbers and places.
pub fn the_part_of_a_key_is_moved_to_its_piece()
    ensures { (parts : ℕ) (rows : List Row) (keys : List (List ℕ)) (number : OpId → OpId)
        (pieces : ℕ → List Row) (p : ℕ) (key : List ℕ) (part : List Call) → IsWellFormed rows
        → ArePieces parts rows keys number pieces → IsKeyOf parts keys p key → IsPart rows key part
        → (moved : List Call) × IsPart (pieces p) key moved × IsMovedPart number part moved }
{}

/// The orders of a moved part are those of the part, renumbered.
pub fn a_moved_part_has_the_same_orders()
    ensures { (number : OpId → OpId) (part moved : List Call) (order : List OpId)
        → IsMovedPart number part moved → IsOrder moved order
        ↔ ((source : List OpId) × (order ≡ map number source) × IsOrder part source) }
{}

/// So a key is linearizable in the history exactly if it is in its piece.
pub fn a_key_is_linearizable_exactly_if_it_is_in_its_piece()
    ensures { (parts : ℕ) (rows : List Row) (keys : List (List ℕ)) (number : OpId → OpId)
        (pieces : ℕ → List Row) (p : ℕ) (key : List ℕ) (part moved : List Call) → IsWellFormed rows
        → ArePieces parts rows keys number pieces → IsKeyOf parts keys p key → IsPart rows key part
        → IsPart (pieces p) key moved → IsLinearizable part ↔ IsLinearizable moved }
{
    a_part_is_one_list();
}
