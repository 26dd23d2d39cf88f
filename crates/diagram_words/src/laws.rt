//! Laws of the words, each the contract of a function that does nothing.
ghost use Rattle.std.specs.Prelude.{◌≡◌, true};
ghost use Rattle.labels.specs.Texts.{all_differ, none_is_empty};
ghost use Rattle.diagram_words.specs.Readable.{command_phrases, joining_words, said_phrases};

/// No two commands have one phrase, and so it is with what is said of messages, calls and replicas; and
/// nothing is said without a word.
pub fn phrases_differ()
    ensures commands { all_differ command_phrases ≡ true }
    ensures said { all_differ said_phrases ≡ true }
    ensures commands_there { none_is_empty command_phrases ≡ true }
    ensures said_there { none_is_empty said_phrases ≡ true }
    ensures joining_there { none_is_empty joining_words ≡ true }
{}
