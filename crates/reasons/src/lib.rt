//! The calls that show why an order was refused, or why a part's tags aren't sound.
//!
//! A verdict names places and numbers; a reason has the calls themselves. It borrows their texts from
//! the history and copies none. It takes one pass over the order and one over the calls at most, and
//! a binary search for each call.
#![tactic(auto)]

mod find;
pub mod laws;
mod listed;
mod notes;
mod order_reasons;
mod tag_reasons;
mod unnoted;

pub use find::call_of;
pub use notes::note_place;
pub use order_reasons::{OrderReason, PlacedCall, order_reason};
pub use tag_reasons::{TagReason, tag_reason};
