//! The verdicts on the orders of many keys, checked on several threads.
//!
//! `check_all` checks many parts and their orders, `check_history` and `check_histories` the keys of
//! recorded histories, which `hall_parts` and `keys_to_check` list. Each verdict is the definition's for
//! its key, whatever the number of workers. Worker w of k checks every k-th key from key w on, so each
//! takes about as many keys as any other.
#![tactic(auto)]

mod check;
mod checks;
mod collect_keys;
mod distinct;
mod error;
mod gate;
mod histories;
mod key_list;
mod scoped;
mod share;
mod verdict_list;
mod weave_verdicts;
mod workers;

pub use check::{KeyVerdict, check_all};
pub use collect_keys::{KeyToCheck, keys_to_check};
pub use distinct::are_distinct;
pub use error::CheckError;
pub use gate::{CheckGate, NoGate};
pub use histories::{check_histories, check_history, hall_parts};
pub use workers::Workers;
