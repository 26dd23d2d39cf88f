//! A running store: halls that threads share under locks, a thread for each replica, and seats for clients.
//!
//! `Store::start` makes the halls and starts the replicas; `Store::join` gives a client its seat;
//! `Store::call` makes a call on a seat, in rounds of messages that a `Gate` may lose or double. What a
//! seat's log says of a call is what the halls recorded. `Store::close` ends the store, and gives the halls'
//! records with orders that show them atomic.
#![tactic(auto)]

mod closing;
mod config;
mod errors;
mod join;
mod snapshot;
mod store;
mod switch_replica;

pub use closing::{Closed, ClosedHall};
pub use config::StoreConfig;
pub use errors::{CloseError, JoinError, StartError};
pub use hall_lock::ClientPass;
pub use seats::{Answer, CallError, Entry, Gate, OpenGate, Pass, Place, Receipt, Seat};
pub use store::Store;
