//! What is asked for if the words don't say it, as far as code elsewhere asks for it too: each number, and
//! the word that says it.

/// How many keys are explained or drawn.
pub const KEYS: u16 = 20;

/// The same as a word.
pub(crate) const KEYS_WORD: Option<&str> = Some("20");

/// How many calls of a key are drawn.
pub const CALLS: u16 = 200;

/// The same as a word.
pub(crate) const CALLS_WORD: Option<&str> = Some("200");
