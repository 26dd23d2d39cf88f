//! The network: a bag of numbered messages.
//!
//! Each message that is sent gets the next flight number, from 0, with one copy. A flight can be
//! delivered, lost and repeated, a copy at a time. Only flights that have a copy are kept, so each
//! call takes a time that grows with the logarithm of their count, whatever was ever sent.
#![tactic(auto)]

mod flights;
mod in_flight;
pub mod laws;
mod messages;
mod number_hash;
mod pools;
mod refusals;

pub use flights::Flight;
pub use messages::Message;
pub use pools::Pool;
pub use refusals::NetRefusal;
