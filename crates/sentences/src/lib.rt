//! What sentences are made of: words, numbers, tags, and values as JSON texts.
//!
//! Each function adds to a text the bytes that a definition names. Without memory it may have added
//! a beginning of them. No control character of a value stands in a sentence as it is, and none that
//! breaks a line or turns the direction of text, so that none moves a terminal or a label.
#![tactic(auto)]

mod hidden;
pub mod laws;
mod quoted;
mod words;

pub use hidden::{append_shown, append_shown_text, shown_text};
pub use quoted::{append_control, append_quoted, hex_digit};
pub use words::{append, append_number, append_tag, append_value};
