//! A hall that threads share under a lock.
//!
//! While nobody has it, the hall lies in a channel of capacity 1 under a rule: it is there, or out with
//! one pass; no two passes have one client; and a pass adds rows of its own client's calls alone. So each
//! pass knows that the record begins with the rows that it has seen, and that no other pass added rows
//! of its client's calls.
#![tactic(auto)]

mod client_pass;
mod door;
mod free_pass;
mod rule;

pub use client_pass::{Begun, ClientPass, Delay, Ended, Standing};
pub use free_pass::FreePass;
pub use rule::{SeenRows, View};
