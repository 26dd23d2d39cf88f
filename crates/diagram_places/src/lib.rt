//! Where the diagram of the messages of a script's run shows what.
//!
//! Time goes down: each step that was tried has a row, and each client and each replica a column, in
//! the middle of which its lifeline stands. An arrow goes from the row where it begins to the row
//! where it ends. The sizes
//! stand in `sizes.rt`; the laws say what has to hold of them, as that columns go from left to right.
//! Each function takes constant time, but where a client stands: the logarithm of their number.
#![tactic(auto)]

mod frames;
pub mod laws;
mod layout;
pub mod sizes;
mod strips;
mod ways;

pub use frames::{band, bottom_of, curtain_frame, frame_of, piece, width_of};
pub use layout::{client_x, down, replica_x, replicas_of, rows_of};
pub use strips::{cut_rows, last_row_of_arrow, last_row_of_call};
pub use ways::{is_request, label_x, way_of};
