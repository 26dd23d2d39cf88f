//! `abd draw --whole`: a page with one picture of all keys of a hall, and the points of one order.
//!
//! Each key is judged once, and once more if one is refused, to count those that are. If each has an
//! order, these make one order of all calls, whose points the picture shows; if one is refused, the
//! picture marks the calls that show why. A file of several halls has a picture for each. It takes the
//! time of one or two checks of each key, of a copy of each history, and of the pictures, which grow
//! with the calls that they show.
#![tactic(auto)]

mod found;
mod page;
mod scene;
mod section;
mod texts;
mod together;
mod whole;
mod words;

pub use whole::Whole;
