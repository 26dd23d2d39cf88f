//! A record of calls on registers, judged by its values while it comes.
//!
//! Memory goes with how many calls are pending, the keys, what is kept of each, and the reports, of which a key has at most two, and one
//! for each read that is answered after it was given up. A row takes about the logarithm of that.
#![tactic(auto)]

mod key_calls;
pub mod laws;
mod placed;
mod record_monitor;
mod report;
mod taken;
mod telling;
mod told;
mod watched;
mod watched_keys;

pub use record_monitor::RecordMonitor;
pub use report::{Finding, Report};
pub use told::{Told, ToldCall, ToldNote, ToldSide};
