//! What is answered to a line whose row is refused.
//!
//! What takes the rows of a file and keeps its open calls answers a refusal as the fault of the row's line.
#![tactic(auto)]

mod answers;

pub use answers::line_answer;
