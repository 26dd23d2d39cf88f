//! One order of a whole record's calls, over all keys.
//!
//! If each key's calls have an order, all calls together have one that keeps real time, and the
//! reverse (`laws`): linearizability is local. `store_order` makes that order of the keys' orders,
//! in `n log n` steps.
#![tactic(auto)]

pub mod laws;
mod one_order;
mod timed_calls;

pub use one_order::store_order;
