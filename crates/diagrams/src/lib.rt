//! The diagram of the messages of a script's run, as SVG in a page.
//!
//! Time goes down: each step that was tried has a row, and each client and each replica a lifeline.
//! The diagram is of the scene: each function adds exactly the bytes of a tree of elements that a
//! definition makes of the scene. An arrow goes from the row where it begins to the row where it
//! ends; since each step begins at most one, no two words of messages stand over one another.
//! Where what stands, `diagram_places` says. The words and the names of classes stand in `style.rt`; the
//! laws say what has to hold of them. Colours are of no contract. A diagram takes time in proportion to
//! what it shows, times the logarithm of the number of clients, and for each 32 rows once more over its
//! shapes; what is seen alone of a call takes all messages, of at most 1,000 rows.
#![tactic(auto, unfolding(markup::specs::Markup::rendered))]

mod arrows;
mod bars;
mod curtains;
mod diagram;
mod hearings;
mod items;
pub mod laws;
mod lifelines;
mod lit;
mod replicas;
mod rows;
mod sheet;
mod strips;
mod style;
mod texts;

pub use diagram::append_diagram;
pub use sheet::{append_diagram_legend, append_diagram_style};
pub use style::SCRIPT_ID;
