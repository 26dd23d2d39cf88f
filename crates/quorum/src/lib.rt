//! Sets of replicas, and the sets that end a phase: ask quorums and put quorums, by votes.
//!
//! All of it is plain numbers and takes no memory. An ask quorum and a put quorum always share a
//! replica.
#![tactic(auto)]

pub mod laws;
mod quorums;
mod sets;

pub use quorums::Quorums;
pub use sets::ReplicaSet;
