//! The system of clients, replicas, the network between them and the record.
ghost use Rattle.std.specs.Prelude.{◌≡◌, ◌≤◌, IfOk};
ghost use Rattle.tag.specs.Limits.{call_limit};
ghost use Rattle.quorum.specs.Quorums.{IsLawful};
ghost use Rattle.world_steps.specs.Systems.{opening};

use crate::Config;
use crate::members::Members;
use crate::nodes::Nodes;
use network::Pool;
use recorder::History;
use std::alloc::Global;
use tag::Memory;

/// The configuration, the clients that joined, the replicas by number, the network, and the record.
#[derive(Debug, Drop, PartialEq)]
pub struct System {
    pub(crate) config: Config,
    pub(crate) members: Members,
    pub(crate) nodes: Nodes,
    pub(crate) pool: Pool,
    pub(crate) history: History,
}

impl System {
    /// The system before the first step.
    pub(crate) fn new(alloc: Global, config: Config) -> Result<System, Memory>
        ensures system { IfOk result (λ system. system ≡ opening config) }
        ensures lawful { IsLawful config.quorums }
        ensures few { config.calls ≤ call_limit }
    {
        let (replicas, calls) = (config.replicas(), config.calls());
        Ok(System {
            config,
            members: Members::new(alloc),
            nodes: Nodes::new(alloc, replicas)?,
            pool: Pool::new(alloc, config.flights()),
            history: History::new(alloc, calls),
        })
    }
}
