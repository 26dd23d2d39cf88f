//! What an observer is told of commands.
use tag::ClientId;
use world_settle::SettleError;

/// What there is to say of a command that takes several steps.
#[derive(Clone, Copy, Debug, PartialEq, Eq)]
pub enum Notice {
    /// The steps that complete the client's pending call follow.
    Finishes(ClientId),
    /// The call is completed, by so many steps.
    Finished(u32),
    /// The client's call can't be completed, so no step follows.
    Unfinished(ClientId, SettleError),
    /// So many random steps of that seed follow.
    Randomizes { seed: u64, count: u32 },
    /// So many of the random steps were taken, and the others refused.
    Randomized { taken: u32, count: u32 },
}
