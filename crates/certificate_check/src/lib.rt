//! The verdict on an order of a part's calls: exactly the definition's.
//!
//! An order is checked in one pass for each kind of fault, in `n log n` steps; no pass compares all
//! pairs, and the definition speaks of nothing else.
#![tactic(auto)]

mod check;
pub mod laws;
mod listing;
mod verdict;

pub use check::check_part;
pub use listing::find_call;
pub use verdict::{Fault, Verdict};
