//! Laws of values, each the contract of a function that does nothing.
ghost use Rattle.std.specs.Prelude.{◌≤◌, ℕ, Contains, List, Option};
ghost use Rattle.recorder.specs.declared.part.Call.{Call};
ghost use Rattle.recorder.specs.Parts.{IsSequence};
ghost use Rattle.recorder.specs.Orders.{IsLinearizable};
ghost use Rattle.value_order.specs.Writers.{IsOnlyWriter};
ghost use Rattle.value_order.specs.declared.decision.ValueFault.{ValueFault};
ghost use Rattle.value_order.specs.Decisions.{IsFault};
ghost use Rattle.value_order.specs.Families.{AreOpposed, AreOpposedBy};
ghost use Rattle.value_order.specs.Tables.{ReadsBy, StandInPieces};
ghost use Rattle.value_order.specs.Faults.{AnswersUnwritten, EndsTooEarly, IsLateNothing, IsStale};

/// Where a read answers what no write of the part writes, no list is an order.
pub fn an_unwritten_answer_refutes()
    ensures { (part : List Call) (read : Call) → Contains part read → AnswersUnwritten part read
        → IsLinearizable part → ⊥ }
{}

/// Where a read was answered before any write of its value began, no list is an order.
pub fn an_early_answer_refutes()
    ensures { (part : List Call) (write read : Call) → Contains part read
        → EndsTooEarly part write read → IsLinearizable part → ⊥ }
{}

/// Where a read answers nothing that began after a value was written or answered, no list is an order.
pub fn a_late_nothing_refutes()
    ensures { (part : List Call) (earlier later : Call) → IsSequence part → Contains part earlier
        → Contains part later → IsLateNothing earlier later → IsLinearizable part → ⊥ }
{}

/// Where two families must precede each other, no list is an order.
pub fn opposed_families_refute()
    ensures { (part : List Call) (x y : Call) → IsSequence part
        → AreOpposed part (IsOnlyWriter part) x y → IsLinearizable part → ⊥ }
{}

/// Where a read is stale, however many writers it has, no list is an order.
pub fn a_stale_read_refutes()
    ensures { (part : List Call) (read : Call) → IsSequence part → Contains part read
        → IsStale part read → IsLinearizable part → ⊥ }
{}

/// A fault is final: where there is one, no list is an order.
pub fn a_fault_refutes()
    ensures { (part : List Call) (fault : ValueFault) → IsSequence part → IsFault part fault
        → IsLinearizable part → ⊥ }
{}

/// A read with one writer stands in the piece of that writer, in each order.
pub fn only_writers_stand_in_pieces()
    ensures { (part : List Call) → StandInPieces part (IsOnlyWriter part) }
{}

/// Where two families by a table must precede each other, and its reads stand in the pieces of their writes,
/// no list is an order.
pub fn opposed_families_of_a_table_refute()
    ensures { (part : List Call) (source : ℕ → Option ℕ) (x y : Call) → IsSequence part
        → StandInPieces part (ReadsBy part source) → AreOpposed part (ReadsBy part source) x y
        → IsLinearizable part → ⊥ }
{}

/// Families by a table that oppose each other by a row do so by each later row.
pub fn an_opposition_lasts()
    ensures { (part : List Call) (source : ℕ → Option ℕ) (row later : ℕ) (x y : Call) → row ≤ later
        → AreOpposedBy part (ReadsBy part source) row x y
        → AreOpposedBy part (ReadsBy part source) later x y }
{}

/// Families by a table that oppose each other by a row are opposed.
pub fn an_opposition_by_a_row_is_one()
    ensures { (part : List Call) (source : ℕ → Option ℕ) (row : ℕ) (x y : Call)
        → AreOpposedBy part (ReadsBy part source) row x y
        → AreOpposed part (ReadsBy part source) x y }
{}
