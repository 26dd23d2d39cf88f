//! Files of worked rows: each row names what it shows, has an input, and says what is expected to come out.
//!
//! A file begins with a head of comment lines. Before each row stands an empty line and then
//! `### ` and the row's name, so that a program goes over `text.split("\n### ").skip(1)` and what
//! is expected ends with the end of its last line. `run_rows` does that for a program that says
//! what it makes of an input; devices over memory and pieces of answers are what several programs
//! need for that.
#![tactic(auto)]

mod answer;
mod devices;
mod extents;
mod program;
mod recorded;
mod row;
mod said;
mod spans;
mod texts;

pub use answer::Answer;
pub use devices::{AMPLE, Bounded, Pieces};
pub use extents::extent;
pub use program::run_rows;
pub use recorded::{RowSaid, said_by, say_action, say_tag};
pub use row::Row;
pub use said::report;
pub use spans::spans_of;
pub use texts::{say_bytes, text_said, words_of};
