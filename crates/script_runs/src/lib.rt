//! Scripts, and their runs, observed.
//!
//! A script is a configuration and commands. Its run takes their steps one after another, in one place,
//! from the opening world. An observer is told of each step before the run takes it and after it, of
//! each step that is refused, and of what there is to say of a command of several steps. So what is
//! said or drawn of a run is of its very steps. Only the world at the end is kept. A run copies no
//! step, and nothing is done for an observer that does nothing.
#![tactic(auto)]

mod both;
mod command;
pub mod laws;
mod notice;
mod observer;
mod origin;
mod quota;
mod script_run;
mod whole_run;

pub use both::{Both, observe_both};
pub use command::{Command, NumberedCommand, Script};
pub use notice::Notice;
pub use observer::Observer;
pub use origin::{CommandKind, Origin};
pub use quota::Quota;
pub use script_run::ScriptRun;
pub use whole_run::observe;
