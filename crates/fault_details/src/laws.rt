//! Laws of what is shown, each the contract of a function that does nothing.
ghost use Rattle.std.specs.Prelude.{◌≡◌, ℕ, List, nat_le, true};
ghost use Rattle.std.specs.List.{list_all};
ghost use Rattle.fault_details.specs.Shown.{plain_after};

/// What is shown of bytes has none below 32, so no end of a line.
pub fn what_is_shown_has_no_control_byte()
    ensures { (bytes : List ℕ) → list_all (λ b. nat_le 32 b) (plain_after 0 bytes) ≡ true }
{}
