//! Histories of calls, and the parts that they fall into, one for each key.
//!
//! A `History` is well-formed by its type: a row comes in only where it may follow the rows
//! before it, and adding one takes the same time however many there are. `History::parts` gives
//! the calls of each key as the rows record them, in a time that grows with the calls alone.
#![tactic(auto)]

mod clients;
mod groups;
mod halls;
mod histories;
mod history;
pub mod laws;
mod log_entry;
mod order;
mod part;
mod parts;
mod record;
mod refs;
mod row;
mod row_table;

pub use halls::Halls;
pub use histories::Histories;
pub use history::History;
pub use log_entry::{Entry, OwnResponse};
pub use order::{KeyOrder, Order};
pub use part::{Call, Part, Response};
pub use parts::Parts;
pub use record::CallState;
pub use refs::{ActionRef, KeyRef, ReturnedRef, ValueRef};
pub use row::{Row, RowRefusal};
