//! The writes of one value that a monitor keeps, and which of them a read may have read.
//!
//! To find out takes about the logarithm of how many there are.
#![tactic(auto)]

mod ends;
mod fresh;
mod readable;
mod writers;

pub use ends::Ends;
pub use fresh::{FreshEnds, fresh_ends};
pub use readable::{Begins, Candidates, readable_writes};
pub use writers::Writers;
