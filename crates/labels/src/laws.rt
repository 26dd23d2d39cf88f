//! Laws of labels, each the contract of a function that does nothing.
ghost use Rattle.std.specs.Prelude.{ℕ, ◌≡◌, ◌<◌, ◌≤◌, true, List, Option, chars};
ghost use Rattle.std.specs.List.{list_all};
ghost use Rattle.sentences.specs.Hidden.{is_shown};
ghost use Rattle.labels.specs.declared.strips.CutRows.{CutRows};
ghost use Rattle.labels.specs.declared.style.TheConstants.{FARTHEST};
ghost use Rattle.labels.specs.Cuts.{beginning, fits, width};
ghost use Rattle.labels.specs.Strips.{IsShownBetween, StandsOnce};
ghost use Rattle.labels.specs.Texts.{shown_words};

/// Nothing stands nearer than it belongs as far as 10^18 pixels.
pub fn the_farthest_place_is_far()
    ensures { 1_000_000_000_000_000_000 ≤ FARTHEST }
{}

/// What a label shows of its words keeps to the room, as letters of equal width: the whole where it
/// fits, and else the beginning of it, before an ellipsis. None of it is hidden, so the page shows it
/// letter by letter.
pub fn a_label_keeps_to_its_room()
    ensures whole { (room : ℕ) (words : List ℕ) → fits room (shown_words words) ≡ true
        → width (shown_words words) ≤ room }
    ensures beginning { (room : ℕ) (words : List ℕ) → width (beginning room (shown_words words))
        ≤ room }
    ensures shown { (words : List ℕ) → list_all is_shown (chars (shown_words words)) ≡ true }
    ensures beginning_shown { (room : ℕ) (words : List ℕ)
        → list_all is_shown (chars (beginning room (shown_words words))) ≡ true }
{}

/// Of rows that are cut into strips each stands in one strip, whole, and in no other.
pub fn each_row_stands_in_one_strip()
    ensures { (rows : CutRows) (row : ℕ) → row < rows.count → StandsOnce rows row }
{}

/// What stands from one row to another, as a bar or an arrow, is shown by the strip of each row
/// between them.
pub fn strips_show_what_crosses_them()
    ensures { (begins : ℕ) (ends : Option ℕ) → IsShownBetween begins ends }
{}
