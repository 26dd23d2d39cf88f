//! The order that the tags of a part give.
//!
//! `order_of` sorts the settled calls of a part by their tags, in `n log n` steps. Where the tags
//! are sound, that list is an order of the part. `justified_orders` makes the orders of all keys of a
//! record.
#![tactic(auto)]

mod error;
pub mod laws;
mod record_orders;
mod sort_key;
mod tag_order;

pub use error::WitnessError;
pub use record_orders::justified_orders;
pub use tag_order::order_of;
