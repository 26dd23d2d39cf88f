//! What a row of a file does to the calls of its key.
//!
//! `key_monitor` says how what is known of a key goes on with its calls. Here each row of a file gives the premises of those
//! laws: it begins a call, answers one, notes one, or is of another key; and a pending read may be given up.
#![tactic(auto)]

pub mod laws;
