//! `abd justify --by values`: the orders that are found of a history's keys by their values.
//!
//! The order file has them in the order in which the rows first see the keys, hall by hall. A key that has none
//! has the line that `abd decide` prints of it. It takes the time of `abd decide`, and of sorting and writing
//! the orders, on the caller's thread.
#![tactic(auto)]

mod found_orders;
mod justifying;

pub use justifying::Justifying;
