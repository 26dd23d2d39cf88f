//! The steps of a world.
ghost use Rattle.std.specs.Prelude.{◌≡◌, IfOk, OnErr};
ghost use Rattle.world_steps.specs.Runs.{HoldsTexts};

use tag::{Action, ClientId, Key, Memory, ReplicaId};

/// One event: it touches one actor, the network and the record.
#[derive(Debug, Drop, PartialEq, Eq)]
pub enum Step {
    /// A client joins, idle. A name joins once.
    Join {
        client: ClientId,
    },
    /// An idle client invokes a call, and begins to ask.
    Invoke {
        client: ClientId,
        key: Key,
        action: Action,
    },
    /// A client that asks or puts sends its present request to a replica, up or down.
    Send {
        client: ClientId,
        replica: ReplicaId,
    },
    /// A copy of a flight comes to the replica or the client that it was sent to.
    Deliver {
        flight: u32,
    },
    /// A copy of a flight is lost.
    Lose {
        flight: u32,
    },
    /// A flight gets one more copy.
    Repeat {
        flight: u32,
    },
    /// A client that is ready answers its call.
    Respond {
        client: ClientId,
    },
    /// A client stops for good. A pending call stays pending.
    StopClient {
        client: ClientId,
    },
    /// A replica goes down, and keeps what it stored.
    StopReplica {
        replica: ReplicaId,
    },
    /// A replica goes up, with what it stored.
    StartReplica {
        replica: ReplicaId,
    },
}

impl Step {
    /// An equal step. `Memory` comes only if there is a text to copy.
    pub fn copy(&self) -> Result<Step, Memory>
        ensures equal { IfOk result (λ step. step ≡ self.now) }
        ensures err { OnErr result (HoldsTexts self.now) }
    {
        match self {
            Step::Join { client } => Ok(Step::Join { client: *client }),
            Step::Invoke {
                client,
                key,
                action,
            } => Ok(Step::Invoke {
                client: *client,
                key: key.copy()?,
                action: action.copy()?,
            }),
            Step::Send { client, replica } => Ok(Step::Send {
                client: *client,
                replica: *replica,
            }),
            Step::Deliver { flight } => Ok(Step::Deliver { flight: *flight }),
            Step::Lose { flight } => Ok(Step::Lose { flight: *flight }),
            Step::Repeat { flight } => Ok(Step::Repeat { flight: *flight }),
            Step::Respond { client } => Ok(Step::Respond { client: *client }),
            Step::StopClient { client } => Ok(Step::StopClient { client: *client }),
            Step::StopReplica { replica } => Ok(Step::StopReplica { replica: *replica }),
            Step::StartReplica { replica } => Ok(Step::StartReplica { replica: *replica }),
        }
    }
}
