//! Orders from values alone, without tags.
//!
//! `decide_by_values` decides whether the calls of a part are linearizable by the values that reads answer and
//! writes write; no order is searched for, and where no fault and no doubt shows, nothing is sorted.
//! `order_by_values` does so too, and makes an order in `n log n` steps. Where no read has two writers, they
//! decide exactly.
#![tactic(auto)]

mod classes;
mod counts;
mod crossing;
mod decide;
mod decision;
mod ended;
mod faults;
mod firsts;
mod keys;
pub mod laws;
mod nexts;
mod nothings;
mod opposed;
mod overwritten;
mod placed;
mod sources;
mod stale;
mod values;
mod zones;

pub use counts::{reads, stale_reads};
pub use decide::{decide_by_values, order_by_values};
pub use decision::{Decision, Doubt, Side, ValueFault, ValueVerdict};
