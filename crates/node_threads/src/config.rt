//! What is fixed of a store before it starts.
use recorder::Halls;
use world_steps::Config;

/// What is fixed of a store before it starts.
#[derive(Clone, Copy, Debug, PartialEq, Eq)]
pub struct StoreConfig {
    /// Its number. A program that runs two stores gives them two numbers.
    pub store: u64,
    /// What is fixed of each hall's world.
    pub world: Config,
    /// How many rounds of messages a phase of a call makes, 1 to 10,000.
    pub rounds: u16,
    /// How many halls it has.
    pub halls: Halls,
}
