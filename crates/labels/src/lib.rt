//! What the pictures and the diagrams of pages are drawn with: labels, lines and samples, each at
//! its place, and a shape for each item of a list.
//!
//! Each function adds exactly the bytes of a tree of elements that a definition names. What a label
//! shows is cut to the room that it has. A caller says once, as a `Shape`, what is drawn of an item; then
//! `append_each` draws the items of a list, one after another. Rows are cut into strips on paper
//! (`CutRows`). If a function fails, a beginning of
//! what it was to add may have been added. Only the `Vec` and the words of a label allocate.
//!
//! ```text
//! /// The bars of a scene.
//! #[derive(Clone, Copy)]
//! struct Bars<'a> { alloc: Global, scene: &'a Scene }
//!
//! impl Shape for Bars<'_> {
//!     type Item = Bar;
//!     ghost can_append = { λ bars. IsInOrder bars.scene.now };
//!     ghost shape = { λ bars. bar_markup bars.scene.now };
//!     fn append(&self, page: &mut Vec<u8>, item: &Bar) -> Result<(), Memory> { .. }
//! }
//!
//! // adds rendered (each (bar_markup scene.now) scene.now.bars.items)
//! append_each(page, &Bars { alloc, scene }, &scene.bars)?;
//! ```
#![tactic(auto)]

mod cuts;
mod images;
mod labels;
pub mod laws;
mod places;
mod samples;
mod shapes;
mod strips;
mod style;
mod texts;

pub use images::{open_image, open_view};
pub use labels::{
    Spot, Way, append_label, append_line, append_numbered, append_polyline, append_title,
};
pub use places::{Frame, pixels};
pub use samples::append_sample;
pub use shapes::{IndexedShape, Shape, append_each, append_each_indexed};
pub use strips::{CutRows, STRIP_ROWS, shows_row, shows_some};
pub use texts::text_of;
