//! The rule of sound tags that a part's notes break: exactly the definition's, and none where the
//! tags are sound.
//!
//! Each rule is judged in one pass over the calls, in `n log n` steps; no pass compares all pairs.
//! Nothing of a call is copied but its tag and its index.
#![tactic(auto)]

mod check;
mod entries;
pub mod laws;
mod notes;
mod rule;
mod tags;

pub use check::check_tags;
pub use rule::BrokenRule;
