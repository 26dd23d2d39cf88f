//! Where a step of a run comes from.
use tag::ClientId;

/// What a command is, without its step.
#[derive(Clone, Copy, Debug, PartialEq, Eq)]
pub enum CommandKind {
    /// One step.
    Step,
    /// The steps that complete the client's pending call.
    Finish(ClientId),
    /// So many random steps of that seed.
    Random { seed: u64, count: u32 },
}

/// The command that a step of a run belongs to, and the number of its line, from 1.
#[derive(Clone, Copy, Debug, PartialEq, Eq)]
pub struct Origin {
    pub line: u64,
    pub kind: CommandKind,
}
