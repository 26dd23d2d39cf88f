//! What a picture of one key's calls shows, as data: lanes, bars, ticks and linearization points.
//!
//! A scene has a lane for each client, a bar for each shown call and a dot for each of them that an
//! order lists, and says of each run of calls that aren't shown how many they are. So it grows with the
//! shown calls alone; its dots come from the order in one pass,
//! in `n log n` steps. Up to 16 lanes have a column each; of more, lanes whose calls don't overlap
//! share columns, each in the first that is free. How many calls are under way at once is found as
//! fast as the dots.
#![tactic(auto)]

mod arrows;
mod bars;
mod columns;
mod dots;
mod ends;
mod first_fit;
mod gaps;
mod lanes;
pub mod laws;
mod listed;
mod overlap;
mod scene;
mod ticks;
mod windows;

pub use arrows::{Arrow, arrow_between};
pub use columns::Column;
pub use gaps::Gap;
pub use listed::first_places;
pub use overlap::most_at_once;
pub use scene::{Bar, Dot, Scene, scene_of};
pub use windows::{Window, shown_calls, window_around};
