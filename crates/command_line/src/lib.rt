//! What the words of a command line ask for.
//!
//! `command` takes the words as clap reads them, and answers the command that they make, or else
//! what is said of them: help, the version, or their fault. Each command's words are a table, as clap takes
//! them; what they ask for is read word by word. Nothing is read or written here.
#![tactic(auto)]

mod asked;
pub mod defaults;
mod fault;
mod forms;
mod help;
mod lines;
mod quorums;
mod ranges;
mod reading;
mod run_help;
mod run_words;
mod word;
mod words;

pub use asked::{
    By, CheckAsked, Command, DecideAsked, DrawAsked, JustifyAsked, KeysAsked, MonitorAsked,
    RunAsked, Shown, SplitAsked, Usage,
};
pub use lines::Lines;
pub use words::command;
