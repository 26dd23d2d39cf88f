//! All calls of a history in one list, for what takes the calls of a key, as pictures do.
//!
//! `merge_keys` copies a history with all its calls on one key, and `all_calls` lends that key's part: the
//! list of all calls. It takes time and memory in proportion to the rows.
#![tactic(auto)]

mod calls;
mod merging;

pub use calls::all_calls;
pub use merging::merge_keys;
