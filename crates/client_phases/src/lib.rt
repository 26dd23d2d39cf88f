//! The client of the two-phase protocol: what it sends, what it makes of a reply, what it answers.
//!
//! A client has one call at a time. It asks until an ask quorum has told what it holds, puts the
//! pair that follows from it until a put quorum keeps it, and then answers. Only `request` and
//! `answer` take memory.
#![tactic(auto)]

mod asking;
mod calls;
mod clients;
pub mod laws;
mod outcomes;
mod rules;
mod states;

pub use clients::Client;
pub use outcomes::{Phase, Taken};
pub use rules::ReadMode;
