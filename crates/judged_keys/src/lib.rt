//! Keys that are judged: by their orders, by the tags of their calls, or by their values.
//!
//! `judge` finds whether a key is a yes, refused or undecided; `decide_key` also makes the order of a key that
//! is judged by its values. `judge_orders_command` and
//! `judge_history_command` read files, and make of their keys what a `Presentation` of them makes;
//! `tell_keys` tells of each key what was found, in any `Wording`. Each key is judged once, on the
//! caller's thread, and nothing is written before the whole of it is made.
#![tactic(auto)]

mod by_values;
mod commands;
mod files;
mod find_hall;
mod finding;
mod judged;
pub mod laws;
mod names;
mod notes;
mod presentation;
mod report;
mod selection;
mod telling;
mod wording;

pub use by_values::decide_key;
pub use commands::{Ended, judge_history_command, judge_orders_command};
pub use files::{FaultyFile, Files, files_in, history_in};
pub use find_hall::hall_of;
pub use finding::{Finding, Findings, JudgedKey, find_each, judge};
pub use judged::Judged;
pub use names::Names;
pub use presentation::Presentation;
pub use selection::Selection;
pub use telling::{found_in, tell_keys};
pub use wording::Wording;
