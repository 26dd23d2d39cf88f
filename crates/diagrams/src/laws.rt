//! Laws of diagrams, each the contract of a function that does nothing.
ghost use Rattle.std.specs.Prelude.{ℕ, ◌≡◌, true};
ghost use Rattle.labels.specs.Texts.{all_differ, none_is_empty};
ghost use Rattle.diagrams.specs.Readable.{class_names, legend_words, other_words, phrases};
ghost use Rattle.diagrams.specs.Rows.{LeadsToItsLine};

/// No two classes have one name, and so it is with what a legend says and with what is said of messages,
/// calls, replicas and rows; and nothing is said without a word.
pub fn names_and_words_differ()
    ensures classes { all_differ class_names ≡ true }
    ensures legend { all_differ legend_words ≡ true }
    ensures phrases { all_differ phrases ≡ true }
    ensures classes_there { none_is_empty class_names ≡ true }
    ensures legend_there { none_is_empty legend_words ≡ true }
    ensures phrases_there { none_is_empty phrases ≡ true }
    ensures others_there { none_is_empty other_words ≡ true }
{}

/// The link of a row leads to the line of the script that its step belongs to.
pub fn a_row_links_its_line()
    ensures { (line : ℕ) → LeadsToItsLine line }
{}
