//! What is fixed of a row's store before it starts.
ghost use Rattle.std.specs.Prelude.{◌≤◌, IfSome};

use client_phases::ReadMode;
use node_threads::{Closed, StoreConfig};
use quorum::Quorums;
use recorder::Halls;
use world_steps::Config;

/// What is fixed of a row's store: its number, how much it may do, and how its clients read.
#[derive(Clone, Copy)]
pub struct Shape {
    pub store: u64,
    pub replicas: u8,
    pub calls: u32,
    pub flights: u32,
    pub rounds: u16,
    pub halls: u8,
    pub reads: ReadMode,
    pub votes: Votes,
}

/// Which replicas make a quorum.
#[derive(Clone, Copy)]
pub enum Votes {
    /// A majority of them.
    Majority,
    /// Those that have 3 votes together: replicas 0, 1 and 2 have 1, 1 and 3.
    Uneven,
    /// All fifteen.
    All,
}

/// A store of three replicas and one hall.
pub const PLAIN: Shape = Shape {
    store: 1,
    replicas: 3,
    calls: 1000,
    flights: 1_000_000,
    rounds: 1000,
    halls: 1,
    reads: ReadMode::Full,
    votes: Votes::Majority,
};

/// The configuration of each hall; none outside its ranges.
fn world_of(shape: &Shape) -> Option<Config> {
    let plain = Config::new(shape.replicas, shape.calls, shape.flights)?.with_reads(shape.reads);
    match shape.votes {
        Votes::Majority => Some(plain),
        Votes::Uneven => plain.with_quorums(Quorums::new(&[1, 1, 3], 3, 3)?),
        Votes::All => plain.with_quorums(Quorums::new(&[1; 15], 15, 15)?),
    }
}

/// The store's configuration; none outside its ranges.
pub fn config_of(shape: &Shape) -> Option<StoreConfig>
    ensures { IfSome result (λ config. (1 ≤ config.rounds) × (config.rounds ≤ 10000)) }
{
    if shape.rounds < 1 || shape.rounds > 10_000 {
        return None;
    }
    Some(StoreConfig {
        store: shape.store,
        world: world_of(shape)?,
        rounds: shape.rounds,
        halls: Halls::new(shape.halls)?,
    })
}

/// Whether the configurations are the same.
fn is_config(own: Config, given: Config) -> bool {
    own.replicas() == given.replicas()
        && own.calls() == given.calls()
        && own.flights() == given.flights()
        && own.reads() == given.reads()
        && own.quorums() == given.quorums()
}

/// Whether there are as many halls as were asked for, each with that configuration.
pub fn have_config(closed: &Closed, shape: &Shape) -> bool {
    let Some(given) = world_of(shape) else {
        return false;
    };
    for hall in &closed.halls {
        if !is_config(hall.config, given) {
            return false;
        }
    }
    closed.halls.len() == usize::from(shape.halls)
}
