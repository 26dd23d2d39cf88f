//! Seats: a client in a running store, the calls that it makes there, and the log that it keeps of them.
//!
//! `seating` makes a seat, and makes a call in one hall on it, in rounds of messages (`Transport`) that a
//! `Gate` may lose or double; `serve` is what the thread of a replica does with them. What a
//! seat's log says of a call is what the hall recorded, and `is_log` compares the two.
#![tactic(auto)]

mod comparing;
mod errand;
mod errors;
mod gate;
mod patience;
mod receipt;
mod replicas;
mod seat;
pub mod seating;
mod transport;

pub use comparing::{entries_of_hall, is_log};
pub use errors::CallError;
pub use gate::{Gate, OpenGate, Pass, Place};
pub use receipt::Receipt;
pub use recorder::Entry;
pub use replicas::{Parcel, Report, serve};
pub use seat::{Answer, Seat};
pub use transport::Transport;
