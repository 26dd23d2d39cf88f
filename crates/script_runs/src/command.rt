//! Scripts and their commands.
use tag::ClientId;
use world_steps::{Config, Step};

/// A command after those of the configuration.
#[derive(Debug, Drop, PartialEq, Eq)]
pub enum Command {
    /// One step.
    Step(Step),
    /// The pending call of the client is completed.
    Finish(ClientId),
    /// So many random steps, by a generator of that seed.
    Random { seed: u64, count: u32 },
}

/// A command, and the number of its line, from 1.
#[derive(Debug, Drop, PartialEq, Eq)]
pub struct NumberedCommand {
    pub line: u64,
    pub command: Command,
}

/// What a script says: a configuration, and at most 1,000,000 commands in the order of their lines.
#[derive(Debug, Drop)]
pub struct Script {
    pub config: Config,
    pub commands: Vec<NumberedCommand>,
}
