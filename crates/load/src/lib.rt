//! A load of a store: how large it may be, and which call each of its callers makes at each turn.
//!
//! A `Load` is within the ranges of `ranges`. The key `k0` has one writer, caller 1. Nothing here starts a
//! thread.
#![tactic(auto)]

pub mod laws;
mod load;
pub mod ranges;
mod turns;

pub use load::{Load, LoadOptions};
pub use turns::{Turn, call_at};
