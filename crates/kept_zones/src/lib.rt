//! The zones of the families that a monitor keeps of one key, and which are overwritten.
//!
//! Of each family it has the place of its first end and that of its last begin. Each operation takes about the
//! logarithm of how many are kept, and adds at most three entries to its maps.
#![tactic(auto)]

mod inner;
mod nearest;
mod places;
mod slot;
mod zones;

pub use places::Places;
pub use zones::Zones;
