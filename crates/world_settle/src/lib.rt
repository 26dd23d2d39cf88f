//! Completing a client's pending call by the steps that it needs.
//!
//! While the client asks or puts, its request goes to the least replica that is up and not counted
//! yet, and the reply comes back; then the client responds. Flights that were sent earlier stay as
//! they are. It takes three steps for each replica that is needed, and one.
#![tactic(auto)]

mod candidates;
mod errors;
pub mod laws;
mod refusing;
mod settle_steps;
mod settling;

pub use errors::SettleError;
pub use settle_steps::SettleSteps;
pub use settling::settle;
