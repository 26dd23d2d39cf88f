//! The commands of `abd`, over readers and writers.
//!
//! Each command is one function that answers the exit status. The crate `command_line` says which one
//! the words of a command line ask for.
#![tactic(auto)]

mod check;
mod check_outcome;
mod json_lines;
mod justify;
mod noted_orders;
mod notes;
mod outcome;
mod simulate;
mod sources;
mod status;
mod tag_orders;
mod unchecked;
mod usage;
mod verdict_lines;

pub use check::check_command;
pub use command_line::Lines;
pub use counted_devices::Counting;
pub use justify::{justify_command, order_file};
pub use noted_orders::{Unjustified, checked_orders};
pub use notes::has_note;
pub use outcome::{Found, Made, Outcome, conclude};
pub use sentences::{append, append_number};
pub use simulate::simulate_command;
pub use sources::{Source, orders_in};
pub use status::{Failure, Status, say};
pub use usage::usage_command;
pub use verdict_lines::append_verdict;
