//! Pages: HTML, with SVG in it, written into a `Vec<u8>`.
//!
//! A text stays text whatever it holds, since it is escaped. Each function adds bytes that a
//! definition names. A caller says which tree of elements and texts (`Markup`) its bytes are; then the
//! laws say that each element is closed once, the one that was opened last first. Only the `Vec`
//! allocates, where it grows.
//!
//! A caller names the tree in its contract, and opens `rendered` for the proof:
//! ```text
//! -- specs/Bars.antt
//! abbrev pub bar : ℕ → List ℕ → Markup
//! bar x words = element tag.Rect (record { name = name.X; value = tenths_text x } ∷ []) (text words)
//!
//! // src/bars.rt
//! #[tactic(auto, unfolding(markup::specs::Markup::rendered))]
//! fn append_bar(page: &mut Vec<u8>, x: u64, words: &str) -> Result<(), Memory>
//!     ensures { OnOk result (page.new.items ≡ page.old.items ++ rendered (bar x words.now)) }
//! {
//!     append_opening(page, Element::Rect, &[Attribute::Tenths(AttributeName::X, x)])?;
//!     append_text(page, words)?;
//!     append_closing(page, Element::Rect)
//! }
//! ```
#![tactic(auto)]

mod attributes;
mod escapes;
pub mod laws;
mod names;
mod page_tags;
mod texts;

pub use attributes::Attribute;
pub use escapes::append_text;
pub use names::{AttributeName, Element};
pub use page_tags::{
    append_closing, append_doctype, append_empty, append_line_end, append_opening, open_of_class,
};
pub use texts::{append_number, append_plain, append_worded};
