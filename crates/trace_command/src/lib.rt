//! `abd trace`: the run of a script, told step by step, or drawn.
//!
//! `Good` is answered only where the whole text of the trace, or the whole page, went out. A page
//! has the diagram of the messages of the run, the trace, and the pictures of the history that the
//! run records.
#![tactic(auto)]

pub mod laws;
mod numbered;
mod observed;
mod page;
mod scripts;
mod texts;
mod trace;
mod trace_page;
mod words;

pub use trace::trace_command;
pub use trace_page::trace_page_command;
