//! `abd split`: a history of any length written as several, each with whole keys.
//!
//! Each row goes to the piece of its key, with its call's number there and its own line in the history. Memory goes with the keys,
//! the pending calls, and at most some 262,144 bytes for each piece.
#![tactic(auto)]

pub mod laws;
mod piece_files;
mod pieces;
mod splitting;

pub use splitting::{NoWatch, Split, Watch, split_command};
