//! `abd monitor`: a history judged by its values while it comes.
//!
//! Each block of the file is judged before the next one is read: its rows go to a monitor, and what that
//! reports of keys is written at once. Without `all` the command ends at the first refusal. Memory goes with
//! what the monitor keeps, and not with the file's length.
#![tactic(auto)]

mod judged_rows;
mod monitoring;
mod running;
mod session;
mod telling;

pub use monitoring::{Monitoring, NoWatch, Watch};
pub use running::monitor_command;
