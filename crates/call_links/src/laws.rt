//! Laws of links, each the contract of a function that does nothing.
ghost use Rattle.std.specs.Prelude.{ℕ, ◌≡◌, ◌<◌, ◌^◌, ◌++◌, codes};
ghost use Rattle.call_links.specs.Ids.{bar_id, bar_target};

/// A link leads to the bar that it names, and no two bars have one id: those of two sections or of two
/// calls differ.
pub fn each_bar_has_its_own_id()
    ensures leads { (section call : ℕ) → bar_target section call ≡ codes "#" ++ bar_id section call }
    ensures own { (section other call own : ℕ) → section < 2 ^ 64 → other < 2 ^ 64 → call < 2 ^ 64
        → own < 2 ^ 64 → bar_id section call ≡ bar_id other own
        → (section ≡ other) × (call ≡ own) }
{}
