//! History and order files: what their bytes are read as, and the first fault of those that are
//! none.
//!
//! A file comes in blocks of any size, from a reader or from the caller. What was read is what the
//! lines say one for one, to the reader's end; a file with a fault is refused with its first one.
//! A line is read where it lies. Of each chunk of lines one copy is made, which the keys of its
//! lines share until the lines are read; beside it only what a line adds to the answer is copied.
#![tactic(auto)]

mod body;
mod feeds;
mod headed;
mod histories_format;
mod history_format;
pub mod laws;
mod numbered_format;
mod order_format;
mod reading;
mod taken_rows;
mod tool_sets;

pub use feeds::{HistoriesFeed, HistoryFeed, OrderFeed, RowsFeed};
pub use numbered_format::NumberedHistories;
pub use reading::{read_histories, read_history, read_numbered_histories, read_orders};
pub use taken_rows::LongHistory;
