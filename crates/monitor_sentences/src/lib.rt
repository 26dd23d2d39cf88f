//! What a monitor finds of a key, in sentences, or as an object of JSON.
//!
//! Each function adds to a text the bytes that a definition names; without memory it may have added a beginning
//! of them. Calls are told as `abd decide` tells them, with their lines in a file of version 1.
#![tactic(auto)]

mod counts;
mod findings;
mod objects;
mod pieces;
mod told_calls;

pub use counts::{Counts, Whole, append_end, append_end_object};
pub use findings::{append_given_up, append_refused, append_undecided};
pub use objects::{append_given_up_object, append_refused_object, append_undecided_object};
