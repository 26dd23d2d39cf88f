//! Files of lines: what their bytes are read as, and the first fault of those that are none.
//!
//! A file comes in blocks of any size, from a reader or from the caller. Its lines are judged side
//! by side, and read one after another. A file with a fault is refused with its first one. What the
//! lines are is the trait's: histories, orders and scripts are its implementations.
#![tactic(auto)]

mod ahead;
mod batches;
mod contents;
mod feed;
mod file_feed;
mod judge_blocks;
mod judged_lines;
mod judgements;
mod next_batch;
mod progress;
mod reading;
mod side_by_side;

pub use contents::{Contents, Opens};
pub use file_feed::FileFeed;
pub use reading::read_file;
