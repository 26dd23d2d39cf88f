//! Laws of a key's first call, each the contract of a function that does nothing.
//!
//! Its place may be 0, and then no row is before it: so the clauses of `begin_read` and `begin_write`, which speak of a row
//! before, say nothing of it.
ghost use Rattle.std.specs.Prelude.{◌≡◌, ℕ, List, None};
ghost use Rattle.tag.specs.declared.actions.Action.TheVariants.{Write};
ghost use Rattle.recorder.specs.declared.part.Call.{Call};
ghost use Rattle.recorder.specs.Sound.{IsRead};
ghost use Rattle.key_monitor.specs.Follows.{FollowsKept};
ghost use Rattle.monitored_key.specs.Changes.{HasReadBegun, HasWriteBegun, nothing_held};
ghost use Rattle.monitored_key.specs.FirstCalls.{IsFirstCall};
ghost use Rattle.monitored_key.specs.Held.{Held, state_of};

/// What is held after a first read began follows it.
pub fn a_first_read_is_followed()
    ensures { (part : List Call) (place number : ℕ) (call : Call) (new : Held)
        → IsFirstCall part place call → IsRead call → HasReadBegun nothing_held number place new
        → FollowsKept part (λ _. None) place (state_of new) }
{}

/// So does what is held after a first write began.
pub fn a_first_write_is_followed()
    ensures { (part : List Call) (place : ℕ) (value : List ℕ) (call : Call) (new : Held)
        → IsFirstCall part place call → call.action ≡ Write value
        → HasWriteBegun nothing_held call.op.0 value place new
        → FollowsKept part (λ _. None) place (state_of new) }
{}
