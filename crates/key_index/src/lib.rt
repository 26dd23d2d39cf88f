//! Keys and their numbers.
//!
//! `KeyNumbers` numbers keys 0, 1, 2 and so on, in the order in which they are first seen. A
//! look-up takes no memory, and a time that grows with the logarithm of the count of keys, whatever
//! the keys are: who chooses them can't make it slow.
#![tactic(auto)]

mod marks;
mod numbers;
mod placing;
mod slots;

pub use numbers::KeyNumbers;
