//! The picture of the calls on one key, or on all, as SVG in a page, and the table of the same calls.
//!
//! Time goes down: clients stand in columns, each place at which a shown call begins, is noted or
//! is answered has a row, and each linearization point and each mark of calls that are left out has a row
//! of its own, so that no words stand over others. On paper a picture is cut into strips of rows, each row in
//! one of them. The page is of the scene: each function adds exactly the bytes of a tree of
//! elements that a definition makes of the scene and the calls. Its sizes, words and names of classes
//! stand in `sizes.rt` and `style.rt`; the laws say what has to hold of them, as that a dot stands on
//! its bar. Colours are of no contract. A picture takes time in proportion to what it shows, times
//! the logarithm of that and of the key's calls, and each of its strips, at most 64, the same again.
#![tactic(auto, unfolding(markup::specs::Markup::rendered))]

mod arrows;
mod bars;
mod boxes;
mod cells;
mod cuts;
mod dots;
mod frames;
mod ground;
mod keys;
pub mod laws;
mod layout;
mod marks;
mod paper;
mod path;
mod picture;
mod sheet;
mod sizes;
mod strips;
mod style;
mod table;
mod texts;
mod words;

pub use keys::CallKeys;
pub use picture::{Picture, append_picture};
pub use sheet::{append_legend, append_style};
pub use table::append_call_table;
