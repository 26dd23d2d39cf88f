//! What the diagram of the messages of a script's run says, in few words.
//!
//! Each function adds exactly the words that a definition makes of a step, a message, a call or a
//! replica. The phrases stand in `phrases.rt`; the laws say that no two that stand for different things
//! are the same. Only the `Vec` allocates. If a function fails, a beginning of what it was to add may
//! have been added.
#![tactic(auto)]

pub mod laws;
mod phrases;
mod words;

pub use words::{
    say_arrow, say_arrow_title, say_attempt, say_begin, say_holding, say_note, say_replica,
    say_returned, say_votes,
};
