//! Linearization points: for each call of a list a moment within the call, none before that of a call
//! that stands earlier.
//!
//! A list of calls has linearization points exactly where no call of it is preceded by one that
//! stands later. `points_of` finds them in one pass over the list, in `n log n` steps.
#![tactic(auto)]

mod find;
pub mod laws;
mod points;

pub use points::points_of;
