//! Arrows: each copy of a message has one.
ghost use Rattle.std.specs.Prelude.{◌≡◌, ◌++◌, IfOk, OnOk, Some, option_copied, option_to_list};
ghost use Rattle.std.specs.List.{find};
ghost use Rattle.message_scenes.specs.Arrows.{arrival, arrows_by, copy_arrow, is_open};
ghost use Rattle.message_scenes.specs.Arrows.{is_under_way};
ghost use Rattle.message_scenes.specs.Arrows.{replier, reply_arrow, request_arrow};

use crate::lists::{end_first, first_of};
use client_phases::Taken;
use network::Message;
use replica::Reply;
use tag::{ClientId, Memory, ReplicaId};
use world_steps::{Effect, Step};

/// Where a copy of a message ends.
#[derive(Clone, Copy, Debug, PartialEq, Eq)]
pub enum ArrowEnd {
    /// It arrives by the step of that row.
    Arrives(usize),
    /// It arrives by the step of that row, and its client counts nothing of it.
    Stale(usize),
    /// It is lost by the step of that row.
    Lost(usize),
    /// It is still under way after the last row.
    Open,
}

/// A copy of a message: a request of a client to a replica, or a reply of a replica to a client.
#[derive(Debug, Drop)]
pub struct Arrow {
    pub flight: u32,
    pub client: ClientId,
    pub replica: ReplicaId,
    /// What it asks or tells, and which way it goes.
    pub message: Message,
    /// The row of the step that sent it or repeated it.
    pub begins: usize,
    pub end: ArrowEnd,
}

impl ArrowEnd {
    /// Whether it isn't there yet.
    pub fn is_open(&self) -> bool
        ensures { result ≡ is_open self.now }
    {
        matches!(self, ArrowEnd::Open)
    }
}

/// The replica that the reply is from.
fn replier(reply: &Reply) -> ReplicaId
    ensures { result ≡ replier reply.now }
{
    match reply {
        Reply::Held { replica, .. } | Reply::Kept { replica, .. } => *replica,
    }
}

/// Adds the arrow of a request that the client sends to the replica.
fn add_request(
    arrows: &mut Vec<Arrow>,
    row: usize,
    client: ClientId,
    replica: ReplicaId,
    flight: u32,
    sent: Option<&Message>,
) -> Result<(), Memory>
    ensures { OnOk result (arrows.new.items ≡ arrows.old.items
        ++ request_arrow row client replica flight (option_copied sent.entry)) }
{
    if let Some(message) = sent {
        arrows.push(Arrow {
            flight,
            client,
            replica,
            message: message.copy()?,
            begins: row,
            end: ArrowEnd::Open,
        })?;
    }
    Ok(())
}

/// Adds the arrow of a reply, if one was sent.
fn add_reply(
    arrows: &mut Vec<Arrow>,
    row: usize,
    flight: u32,
    sent: Option<&Message>,
) -> Result<(), Memory>
    ensures { OnOk result (arrows.new.items ≡ arrows.old.items
        ++ reply_arrow row flight (option_copied sent.entry)) }
{
    if let Some(Message::ToClient(client, reply)) = sent {
        arrows.push(Arrow {
            flight,
            client: *client,
            replica: replier(reply),
            message: Message::ToClient(*client, reply.copy()?),
            begins: row,
            end: ArrowEnd::Open,
        })?;
    }
    Ok(())
}

/// A further arrow of the message, from that row.
fn copy_from(arrow: &Arrow, row: usize) -> Result<Arrow, Memory>
    ensures { IfOk result (λ copy. copy ≡ record arrow.now { begins = row }) }
{
    Ok(Arrow {
        flight: arrow.flight,
        client: arrow.client,
        replica: arrow.replica,
        message: arrow.message.copy()?,
        begins: row,
        end: arrow.end,
    })
}

/// A further arrow of the flight, from that row, if a copy of it is under way.
fn copied(arrows: &[Arrow], row: usize, flight: u32) -> Result<Option<Arrow>, Memory>
    ensures { IfOk result (λ copy.
        option_to_list copy ≡ copy_arrow row (find (is_under_way flight) arrows.now)) }
{
    match first_of(arrows, flight) {
        Some(k) => Ok(Some(copy_from(&arrows[k], row)?)),
        None => Ok(None),
    }
}

/// Adds the arrow of a copy more of the flight.
fn add_copy(arrows: &mut Vec<Arrow>, row: usize, flight: u32) -> Result<(), Memory>
    ensures { OnOk result (arrows.new.items ≡ arrows.old.items
        ++ copy_arrow row (find (is_under_way flight) arrows.old.items)) }
{
    if let Some(arrow) = copied(arrows, row, flight)? {
        arrows.push(arrow)?;
    }
    Ok(())
}

/// How a copy ends that arrives by the step of the row, which had that effect.
fn arrival(row: usize, effect: &Effect) -> ArrowEnd
    ensures { result ≡ arrival row (Some effect.now) }
{
    match effect {
        Effect::Taken(Taken::Stale) => ArrowEnd::Stale(row),
        _ => ArrowEnd::Arrives(row),
    }
}

/// Adds and ends arrows by the step of the row, which had that effect and may have sent a message as
/// that flight.
pub(crate) fn add_arrows(
    arrows: &mut Vec<Arrow>,
    row: usize,
    step: &Step,
    effect: &Effect,
    flight: u32,
    sent: Option<&Message>,
) -> Result<(), Memory>
    ensures { OnOk result (arrows.new.items ≡ arrows_by row step.now (Some effect.now) flight
        (option_copied sent.entry) arrows.old.items) }
{
    match step {
        Step::Send { client, replica } => {
            add_request(arrows, row, *client, *replica, flight, sent)
        }
        Step::Deliver { flight: number } => {
            end_first(arrows, *number, arrival(row, effect));
            add_reply(arrows, row, flight, sent)
        }
        Step::Lose { flight: number } => {
            end_first(arrows, *number, ArrowEnd::Lost(row));
            Ok(())
        }
        Step::Repeat { flight: number } => add_copy(arrows, row, *number),
        _ => Ok(()),
    }
}
