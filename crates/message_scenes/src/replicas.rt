//! Replicas: what they hold after each put, and when they are down.
ghost use Rattle.std.specs.Prelude.{◌≡◌, IfOk, OnOk, slice_get};
ghost use Rattle.message_scenes.specs.Replicas.{holding_by, holding_of, downs_after};

use crate::lists::end_first;
use network::Message;
use replica::Request;
use tag::{Key, Memory, ReplicaId, Tag, Value};
use world_steps::{Step, World};

/// What a replica holds for a key after a put that comes by the step of a row.
#[derive(Debug, Drop)]
pub struct Holding {
    pub row: usize,
    pub replica: ReplicaId,
    pub key: Key,
    pub tag: Tag,
    pub value: Option<Value>,
    /// Whether it takes the pair that is put; else it keeps its own.
    pub takes: bool,
}

/// A time for which a replica is down.
#[derive(Debug, Drop)]
pub struct DownTime {
    pub replica: ReplicaId,
    /// The row of the step by which it goes down.
    pub stops: usize,
    /// The row of the step by which it goes up again; `None` if it is down after the last row.
    pub starts: Option<usize>,
}

/// What the replica of that number holds after the request, if it is a put.
fn holding_by(
    world: &World,
    row: usize,
    number: ReplicaId,
    request: &Request,
) -> Result<Option<Holding>, Memory>
    ensures { IfOk result (λ holding.
        holding ≡ holding_by row number (slice_get world.now.nodes number) request.now) }
{
    let (
        Some(replica),
        Request::Put {
            key,
            tag,
            value,
            ..
        },
    ) = (world.replica(number), request)
    else {
        return Ok(None);
    };
    let (own, kept) = replica.held(key);
    let takes = own < *tag;
    Ok(Some(Holding {
        row,
        replica: number,
        key: key.copy()?,
        tag: if takes { *tag } else { own },
        value: Value::copy_of(if takes { value.as_ref() } else { kept })?,
        takes,
    }))
}

/// What a replica holds after the put that comes by the step, which isn't taken yet.
#[tactic(auto, unfolding(crate::specs::Replicas::holding_of))]
pub(crate) fn holding_of(world: &World, row: usize, step: &Step) -> Result<Option<Holding>, Memory>
    ensures { IfOk result (λ holding. holding ≡ holding_of row world.now step.now) }
{
    let Step::Deliver { flight } = step else {
        return Ok(None);
    };
    match world.pool().look(*flight) {
        Some(Message::ToReplica(number, request)) => holding_by(world, row, *number, request),
        _ => Ok(None),
    }
}

/// Begins or ends a time for which a replica is down, by the step of the row.
#[tactic(auto, unfolding(crate::specs::Replicas::downs_after))]
pub(crate) fn add_downs(downs: &mut Vec<DownTime>, row: usize, step: &Step) -> Result<(), Memory>
    ensures { OnOk result (downs.new.items ≡ downs_after row step.now downs.old.items) }
{
    match step {
        Step::StopReplica { replica } => {
            downs.push(DownTime {
                replica: *replica,
                stops: row,
                starts: None,
            })?;
        }
        Step::StartReplica { replica } => end_first(downs, *replica, row),
        _ => {}
    }
    Ok(())
}
