//! Readers and writers that count their failures, and bytes cut into lines.
//!
//! Each error of a device is counted, so that a contract can say that a device failed. A text goes
//! out whole, or after a failure a beginning of it. The definitions say what lines show by themselves
//! (`Judgements`), and which fault of a file is its first, by the rules of its lines (`FirstFaults`).
#![tactic(auto)]

mod count_failures;
mod device_traits;
mod judgement;
mod lines;
mod read_fault;
mod sending;
mod write_fault;

pub use count_failures::Counting;
pub use device_traits::{Counted, CountedRead, CountedWrite};
pub use judgement::Judgement;
pub use lines::{Cut, LONGEST, cut_chunks, first_end};
pub use read_fault::{FaultKind, FaultNumbers, ReadFault, Stop};
pub use sending::{relieve, write_pieces, write_text};
pub use write_fault::WriteFault;
