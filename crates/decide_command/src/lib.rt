//! `abd decide`: key by key, whether its calls have an order, by the values that they write and answer.
//!
//! Keys are judged by their values, and told of in lines for people, or in objects of JSON for programs.
//! Where values leave a key open, the order that its tags make is tried.
#![tactic(auto)]

mod deciding;
mod json_lines;
pub mod laws;

pub use deciding::Deciding;
