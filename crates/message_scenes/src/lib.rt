//! What a diagram of the messages of a script's run shows, as data.
//!
//! Time goes by rows, one for each step that was tried, and for each call that couldn't be finished.
//! Each says what a trace tells of it, and why it was refused, if it was. Each copy of a message has
//! one arrow, from the row of the step that sent it to the row of the step that delivered it or lost
//! it. A call is a bar on its client's lifeline, where it stands what the client makes of each reply,
//! and with how many votes; what a replica holds after each put and the times for which it is down
//! stand at its own. The steps are those of the script's run. Each step takes a time in proportion to
//! the shapes so far.
#![tactic(auto)]

mod arrows;
mod calls;
mod hearings;
pub mod laws;
mod lists;
mod replicas;
mod scene;
mod sketch;

pub use arrows::{Arrow, ArrowEnd};
pub use calls::{CallBar, CallEnd, PlacedNote};
pub use hearings::Hearing;
pub use replicas::{DownTime, Holding};
pub use scene::{Attempt, ComingStep, MessageScene, StepRow};
pub use sketch::Sketch;
