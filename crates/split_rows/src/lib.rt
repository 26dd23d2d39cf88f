//! The pieces of a history: in each the rows of the calls on some keys, with its calls numbered anew.
//!
//! Rows are taken one after another, and of each is answered in which piece it goes, and with which number for its call. A key's
//! calls go to one piece, so that each verdict on a key of a piece is that on the key in the whole history. Memory goes with how
//! many calls are pending and with the keys; a row takes about the logarithm of that.
#![tactic(auto)]

pub mod laws;
mod moved;
mod row_splitter;
mod taken;

pub use moved::Moved;
pub use row_splitter::RowSplitter;
