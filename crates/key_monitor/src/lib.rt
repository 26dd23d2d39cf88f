//! What the zones of a key mean of its calls, what one row more adds to both, and how families are forgotten.
//!
//! `kept_zones` compares numbers, and `kept_families` says what of the calls a monitor may forget. Here are the laws
//! between the two, on which the state of a key stands.
#![tactic(auto)]

mod forgetting;
pub mod laws;
pub mod read_laws;
pub mod row_laws;
pub mod state_laws;
pub mod write_laws;

pub use forgetting::forget_one;
