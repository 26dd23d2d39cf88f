//! The pending calls of a history of any length.
//!
//! A row is taken exactly where it may follow the rows before it, and is else refused with the first of its faults. That
//! takes what is kept of the pending calls alone: memory goes with how many these are, and a row takes about the logarithm
//! of that. Of the latest 64 calls each has a slot, where it is found at once.
#![tactic(auto)]

pub mod laws;
mod numbered;
mod open_call;
mod open_calls;
mod refusal;
mod slots;

pub use open_call::OpenCall;
pub use open_calls::OpenCalls;
pub use refusal::CallRefusal;
