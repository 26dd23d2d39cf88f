//! Fault scripts: what their bytes are read as, and the first fault of those that are none.
//!
//! A script comes from a reader. Its lines are judged side by side, each by itself and where it lies,
//! and then read one after another; only what a command keeps, and the words of a line of the
//! configuration, are copied. What was read is what the lines say one for one, to the reader's end; a
//! script with a fault is refused with its first one. A script's run is simulated to the text of its
//! record, with a message for each command that is refused; a run of steps comes with the orders
//! that show its record atomic.
#![tactic(auto)]

mod draft;
mod fault;
pub mod laws;
mod lines;
mod messages;
mod numbers;
mod parse_command;
mod parse_line;
mod parse_setting;
mod reading;
mod run_with_orders;
mod shown;
mod simulate_script;
mod words;

pub use fault::{ErrorKind, LineFault, ScriptError};
pub use reading::parse;
pub use run_with_orders::justified_run;
pub use script_runs::{Command, NumberedCommand, Script};
pub use simulate_script::{SimulateError, simulate};
