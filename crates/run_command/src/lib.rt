//! `abd run`: a store under a load, closed, its record checked key by key, and written as a history.
//!
//! `Good` is answered only where every key of every hall has an order on which the verdict is yes, and the
//! text of the histories went out whole.
#![tactic(auto)]

mod check_record;
mod join_halls;
mod run;
mod shown;
mod telling;

pub use check_record::{RefusedKey, first_refused};
pub use load_run::{NoWatch, Watch};
pub use run::run_command;
