//! Laws of the reasons, each the contract of a function that does nothing.
ghost use Rattle.std.specs.Prelude.{ℕ, List, Option};
ghost use Rattle.tag.specs.declared.numbers.OpId.{OpId};
ghost use Rattle.recorder.specs.declared.row.Row.{Row};
ghost use Rattle.recorder.specs.declared.part.Call.{Call};
ghost use Rattle.recorder.specs.Histories.{IsWellFormed};
ghost use Rattle.recorder.specs.Orders.{IsOrder, IsLastWritten};
ghost use Rattle.recorder.specs.Parts.{IsSequence};
ghost use Rattle.recorder.specs.Records.{IsRecorded};
ghost use Rattle.recorder.specs.Sound.{TagSound};
ghost use Rattle.reasons.specs.declared.order_reasons.OrderReason.{OrderReason};
ghost use Rattle.reasons.specs.declared.order_reasons.PlacedCall.{PlacedCall};
ghost use Rattle.reasons.specs.declared.tag_reasons.TagReason.{TagReason};
ghost use Rattle.reasons.specs.Notes.{note_place, IsNotePlace};
ghost use Rattle.reasons.specs.OrderReasons.{ShowsNoOrder, IsLastWriteBefore, last_value};
ghost use Rattle.reasons.specs.TagReasons.{BreaksRule};

/// A list that has a reason isn't an order of the part.
pub fn a_list_with_a_reason_is_no_order()
    ensures { (part : List Call) (order : List OpId) (reason : OrderReason) → IsSequence part
        → ShowsNoOrder part order reason → IsOrder part order → ⊥ }
{}

/// The value that a read should answer is the one that the last write before it wrote.
pub fn the_last_write_wrote_the_value()
    ensures { (part : List Call) (order : List OpId) (place : ℕ) (last : Option PlacedCall)
        → IsLastWriteBefore part order place last
        → IsLastWritten part order place (last_value last) }
{}

/// Tags that have a reason aren't sound.
pub fn tags_with_a_reason_are_not_sound()
    ensures { (part : List Call) (reason : TagReason) → BreaksRule part reason → TagSound part → ⊥ }
{}

/// In a history, the place of a call's note is that of the row which notes the call.
pub fn a_note_has_its_place()
    ensures { (rows : List Row) (key : List ℕ) (call : Call) → IsWellFormed rows
        → IsRecorded rows key call → IsNotePlace rows call (note_place rows call) }
{}
