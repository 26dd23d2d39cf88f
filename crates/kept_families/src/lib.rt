//! Which families of calls a monitor has to keep.
//!
//! A monitor judges a record row by row. This crate says which writes, with the reads that read them, a later row
//! may still touch, and which it may forget; its laws say that forgetting changes no answer. It has no code.
#![tactic(auto)]

pub mod laws;
