//! What a monitor knows of one key, which judges the key's calls by their values while they come.
//!
//! It forgets what no later call can touch. A row takes about the logarithm of what is kept. Two kept writes take no block
//! but their texts; a further one stands in maps, and has its text twice.
#![tactic(auto)]

mod by_value;
mod indexed;
mod judged;
mod kept;
mod kept_zone;
pub mod laws;
mod monitored_key;
mod slots;
mod stale;
mod write;
mod writes;

pub use judged::{Judged, Refusal};
pub use kept_zone::KeptZone;
pub use monitored_key::MonitoredKey;
