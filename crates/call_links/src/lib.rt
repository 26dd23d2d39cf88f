//! Links from the words of a sentence to the bars of the calls that it names.
//!
//! A page has sections, and in the picture of a section a bar for each call. The id of a bar is made of the
//! section's number and the call's, so no two bars have one id, and a link of a sentence leads to the bar
//! of the call that it names. Only the `Vec` and the beginnings of ids allocate.
#![tactic(auto, unfolding(markup::specs::Markup::rendered))]

mod ids;
pub mod laws;
mod linked;
mod named;
mod style;

pub use ids::{bar_ids, bar_targets};
pub use linked::append_linked;
pub use named::Links;
