//! The texts of histories and of orders: what a line says, what it shows by itself and after
//! others, and what is written.
//!
//! A JSON value is read as a row, or as a piece of an order, exactly where its members say it. What
//! is written of a history, or of orders of distinct keys, is read as that and nothing else.
#![tactic(auto)]

mod beginnings;
mod compact_lines;
mod document;
mod fault;
mod file_header;
mod following;
mod hall_histories;
mod hall_row;
mod handing;
mod header;
mod judge_lines;
pub mod laws;
mod line_item;
mod line_row;
mod line_texts;
mod line_tools;
mod marks;
mod numbered_rows;
mod numerals;
mod order_lines;
mod order_piece;
mod orders;
mod quorum_header;
mod ranges;
mod row_document;
mod rows;
mod texts;
mod tree;
mod writing;

pub use fault::{FaultKind, FileFault, LineFault, Stop};
pub use file_header::FileHeader;
pub use following::{MOST_CALLS, follow};
pub use hall_histories::HallHistories;
pub use hall_row::HallRow;
pub use handing::{TakesRows, hand_on};
pub use judge_lines::{judge_file_header, judge_header, judge_with};
pub use line_item::LineItem;
pub use line_row::LineRow;
pub use line_tools::LineTools;
pub use numbered_rows::{
    append_history_header, append_numbered_invoke, append_numbered_note, append_numbered_respond,
};
pub use order_piece::OrderPiece;
pub use orders::{JoinedOrders, join};
pub use writing::{history_text, write_histories, write_history, write_orders};
