//! Laws of refusals, each the contract of a function that does nothing.
ghost use Rattle.std.specs.Prelude.{◌≡◌, ◌<◌, ◌^◌, ◌↔◌, ℕ, List};
ghost use Rattle.tag.specs.declared.actions.Action.{Action};
ghost use Rattle.tag.specs.declared.numbers.OpId.{OpId};
ghost use Rattle.recorder.specs.declared.row.Row.{Row};
ghost use Rattle.recorder.specs.declared.row.RowRefusal.{RowRefusal};
ghost use Rattle.recorder.specs.Histories.{IsWellFormed, Recorded, call_count};
ghost use Rattle.recorder.specs.Answers.{IsRefused};
ghost use Rattle.open_calls.specs.declared.refusal.CallRefusal.{CallRefusal};
ghost use Rattle.open_calls.specs.Reasons.{IsInTurn, reason_of};
ghost use Rattle.open_calls.specs.Rows.{IsRefusedAfter};

/// A row has one refusal. `Memory` applies to a row that may follow, so to such a row no other does.
pub fn a_row_has_one_refusal()
    ensures { (rows : List Row) (row : Row) (a b : CallRefusal) → IsWellFormed rows
        → IsRefusedAfter rows row a → IsRefusedAfter rows row b → a ≡ b }
{}

/// While a history has room, a row whose call, if it begins one, is the next is refused here exactly if the history
/// refuses it, and for the same reason.
pub fn a_row_is_refused_as_by_a_history()
    ensures { (history : Recorded) (row : Row) (refusal : RowRefusal)
        → call_count history.rows < history.limit → IsInTurn history.rows row
        → IsRefused history row refusal ↔ IsRefusedAfter history.rows row (reason_of refusal) }
{}

/// After 4,294,967,296 calls each further one is out of turn.
pub fn after_the_last_number_each_call_is_out_of_turn()
    ensures { (rows : List Row) (op : OpId) (client : ℕ) (key : List ℕ) (action : Action)
        → call_count rows ≡ 2 ^ 32 → op.0 < 2 ^ 32
        → IsRefusedAfter rows (Row.Invoke op client key action) CallRefusal.OutOfTurn }
{}
