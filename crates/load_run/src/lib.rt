//! A running store under a load.
//!
//! `run_load` starts a store whose parcels are lost and doubled by count, has callers call it, each in a
//! thread of its own, and closes it. What each caller's log says is the workload's calls, in order.
#![tactic(auto)]

mod callers;
mod error;
mod gate;
mod load_run;

pub use callers::Called;
pub use error::LoadError;
pub use gate::{CountingGate, NoWatch, Watch, pass_at, pass_of};
pub use load_run::{LoadOutcome, Refused, run_load, world_of};
