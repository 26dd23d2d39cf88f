//! Why the calls of a key have no order, as their values alone show: the calls, and sentences.
//!
//! A fault of values names numbers; a reason has the calls themselves, each found by a binary
//! search. It borrows their texts from the history and copies none. A reason is said in lines of its
//! own, each after two blanks; a fault or a doubt is said in words that stand within a line.
#![tactic(auto)]

mod call_lists;
mod faults;
pub mod laws;
mod oppositions;
mod pieces;
mod value_reasons;
mod value_sentences;

pub use call_lists::{append_doubt_calls, append_fault_calls};
pub use faults::{append_doubt, append_value_fault};
pub use value_reasons::{SideCalls, ValueReason, value_reason};
pub use value_sentences::{append_circle, append_value_reason};
