//! `abd explain`: key by key what was found, and of a refused key the calls that show it.
//!
//! Each line says what was found of a key, by its order, or without orders by the tags of its calls.
//! Under the first refused keys stands why: with each call the lines of the history file on which it
//! stands. The same words serve whoever tells people what judging keys finds, also by their values.
#![tactic(auto)]

mod explaining;
pub mod laws;
mod lines;
mod reason;

pub use explaining::{Explaining, append_explained};
pub use lines::{append_finding, append_left_out, append_missing};
pub use reason::{Reason, append_reason, count_reads, reason_of};
