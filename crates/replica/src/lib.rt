//! Replicas and the messages between them and clients.
//!
//! A replica keeps a pair of a tag and a value for each key. It answers a query with its pair of
//! the key, and adopts a pair that is put if that pair's tag is above its own. Look-ups and
//! changes take a time that grows with the logarithm of the count of keys.
#![tactic(auto)]

pub mod laws;
mod pairs;
mod replicas;
mod replies;
mod requests;

pub use pairs::Pair;
pub use replicas::Replica;
pub use replies::Reply;
pub use requests::Request;
