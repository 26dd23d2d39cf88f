//! Why an order was refused, or why a key's tags aren't sound, in sentences.
//!
//! What is said names calls, lines of the history file, and places in the order. It stands in lines
//! of its own, each after two blanks; values stand in it as JSON texts. The line of a call's note is
//! looked for in the rows from the call's invocation on, for each call that is said.
#![tactic(auto)]

mod calls;
mod hall_rows;
mod order_sentences;
mod pieces;
mod rules;
mod tag_sentences;
mod words;

pub use calls::append_call;
pub use hall_rows::HallRows;
pub use order_sentences::append_order_reason;
pub use rules::append_rule;
pub use tag_sentences::append_tag_reason;
pub use words::append_value;
