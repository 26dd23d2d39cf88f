//! The trace of a fault script: its run told step by step, as one would tell it to a class.
//!
//! Each step has a line: who took it and what came of it, or why it was refused. The steps that
//! complete a call, and random ones, stand below the line of their command. The steps are those of
//! the script's run, so the world at the end is the one that the run leaves. A trace has as many
//! lines as are asked for, and then a line that says how many were left out.
#![tactic(auto)]

mod acts;
mod counts;
mod effects;
mod script_trace;
mod step_sentences;
mod step_words;
mod steps;
mod telling;
mod words;

pub use script_trace::trace_text;
pub use step_sentences::{BegunSentence, StepSentence};
pub use step_words::{append_refusal_reason, append_unsettled};
pub use telling::Telling;
