//! Halls: a world with the journal of the steps that it took.
//!
//! A step is taken and added to the journal, or neither; so the world of every hall that exists is what
//! its journal makes of the opening world. The journal holds each step that was taken, with its texts.
#![tactic(auto)]

mod hall;

pub use hall::Hall;
