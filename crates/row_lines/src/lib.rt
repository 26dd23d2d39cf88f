//! The lines of a file on which rows stand.
//!
//! Rows that stand one after another from line 2 on, as all rows of one hall do, are only counted;
//! the lines of others are kept, one for each.
#![tactic(auto)]

mod lines;

pub use lines::RowLines;
