//! The steps that random steps never are.
use crate::twin::stop::Stop;
use std::alloc::Global;
use tag::{Action, ClientId, Key, ReplicaId, Value};
use world_steps::Step;

pub fn client(name: u32) -> Result<ClientId, Stop> {
    Ok(ClientId::new(name)?)
}

fn replica(number: u32) -> Result<ReplicaId, Stop> {
    let number = u8::try_from(number).ok().ok_or(Stop::Replica)?;
    ReplicaId::new(number).ok_or(Stop::Replica)
}

/// A client invokes a read.
pub fn read(alloc: Global, name: u32) -> Result<Step, Stop> {
    Ok(Step::Invoke {
        client: client(name)?,
        key: Key::new(alloc, "k0")?,
        action: Action::Read,
    })
}

/// A client sends to the first replica.
pub fn query(name: u32) -> Result<Step, Stop> {
    Ok(Step::Send {
        client: client(name)?,
        replica: replica(0)?,
    })
}

/// A write of `a` on the key.
fn write(alloc: Global, client: ClientId, key: &Key) -> Result<Step, Stop> {
    match (key.copy(), Value::new(alloc, "a")) {
        (Ok(key), Ok(value)) => Ok(Step::Invoke {
            client,
            key,
            action: Action::Write(value),
        }),
        _ => Err(Stop::Memory),
    }
}

/// The same step, but that a write writes `a`.
pub fn with_same_value(alloc: Global, step: &Step) -> Result<Step, Stop> {
    match step {
        Step::Invoke {
            client,
            key,
            action: Action::Write(_),
        } => write(alloc, *client, key),
        other => Ok(other.copy()?),
    }
}

/// A step of a client that never joined.
fn step_of_nobody(alloc: Global, round: u32) -> Result<Step, Stop> {
    let name = 65_535;
    match round % 4 {
        0 => read(alloc, name),
        1 => query(name),
        2 => Ok(Step::Respond {
            client: client(name)?,
        }),
        _ => Ok(Step::StopClient {
            client: client(name)?,
        }),
    }
}

/// A step of a client that joined: it stops, and another joins in its place; it joins again; or it
/// sends to a replica that isn't there.
fn step_of_somebody(round: u32) -> Result<Step, Stop> {
    let name = round / 64 % 1000 + 1;
    match round % 64 {
        20 | 21 => Ok(Step::StopClient {
            client: client(name)?,
        }),
        22 => Ok(Step::Join {
            client: client(name + 4)?,
        }),
        other if other % 2 == 0 => Ok(Step::Join {
            client: client(name)?,
        }),
        _ => Ok(Step::Send {
            client: client(name)?,
            replica: replica(14)?,
        }),
    }
}

fn stop(number: u32) -> Result<Step, Stop> {
    Ok(Step::StopReplica {
        replica: replica(number)?,
    })
}

fn start(number: u32) -> Result<Step, Stop> {
    Ok(Step::StartReplica {
        replica: replica(number)?,
    })
}

/// The step before the random one of that number, if there is one. In each round of 60 steps a replica
/// stops, stops again and starts; another, that is up, starts; and two clients take a step, one of
/// whom never joined. Of the replicas that take turns one isn't there.
pub fn further_step(alloc: Global, replicas: u8, number: u32) -> Result<Option<Step>, Stop> {
    let round = number / 60;
    let turns = u32::from(replicas) + 1;
    let step = match number % 60 {
        0 | 10 => stop(round % turns)?,
        20 => step_of_somebody(round)?,
        30 => start((round + 2) % turns)?,
        40 => step_of_nobody(alloc, round)?,
        50 => start(round % turns)?,
        _ => return Ok(None),
    };
    Ok(Some(step))
}
