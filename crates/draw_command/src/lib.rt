//! `abd draw`: a page with a table of the keys, and a picture of the first of them.
//!
//! Each key is judged once, by its order, or without orders by the tags of its calls. Refused keys
//! stand first. Nothing is written before the whole page is made. It takes the time of one check of
//! each key, on the caller's thread, and of the pictures, which grow with the calls that they show.
#![tactic(auto)]

mod around;
mod counts;
mod draw;
mod drawn;
mod frame;
mod front;
mod history_pictures;
mod key_scene;
mod page;
mod pictured;
mod pictured_keys;
mod ranges;
mod section;
mod showing;
mod table;
mod texts;
mod titled;
mod why;
mod words;

pub use drawn::Drawn;
pub use frame::{append_styles, begin_content, begin_page, end_page, title_of};
pub use front::append_hint;
pub use history_pictures::add_history_pictures;
pub use key_scene::{DrawnOrder, drawn_order};
pub use section::append_why;
pub use showing::append_showing;
pub use texts::append_finding;
pub use why::{Why, why_of};
