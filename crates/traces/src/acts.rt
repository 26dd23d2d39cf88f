//! Who takes a step, and what it does: what is told of a step before its effect.
ghost use Rattle.std.specs.Prelude.{◌≡◌, ◌++◌, codes, option_and_then, option_copied, OnOk};
ghost use Rattle.sentences.specs.Words.{numbered, tag_text};
ghost use Rattle.client_phases.specs.Clients.{answer_of, request_of};
ghost use Rattle.traces.specs.StepLines.{act_text, answer_text, arrival_text, begun_text};
ghost use Rattle.traces.specs.StepLines.{handled_text, key_of, message_text, pair_at};
ghost use Rattle.traces.specs.StepLines.{reply_text, request_text, sent_text};

use crate::step_words::{append_client, append_flight, append_replica};
use crate::words::{append_key, append_pair, append_pair_of};
use client_phases::Client;
use network::Message;
use replica::{Reply, Request};
use sentences::{append, append_tag, append_value};
use tag::{Action, ClientId, Key, Memory, ReplicaId, Returned, Tag, Value};
use world_steps::{Step, World};

/// Adds that a client begins a call.
#[tactic(auto, unfolding(crate::specs::StepLines::begun_text))]
fn append_begun(text: &mut Vec<u8>, key: &Key, action: &Action) -> Result<(), Memory>
    ensures { OnOk result
        (text.new.items ≡ text.old.items ++ begun_text key.now action.now) }
{
    match action {
        Action::Read => append_key(text, " begins to read ", key),
        Action::Write(value) => {
            append(text, " begins to write ")?;
            append_value(text, Some(value))?;
            append(text, " to ")?;
            append(text, key.as_str())
        }
    }
}

/// Adds that a client sends the request to a replica.
#[tactic(auto, unfolding(crate::specs::StepLines::request_text))]
fn append_request(text: &mut Vec<u8>, replica: ReplicaId, request: &Request) -> Result<(), Memory>
    ensures { OnOk result
        (text.new.items ≡ text.old.items ++ request_text replica request.now) }
{
    match request {
        Request::Query { key, .. } => {
            append_replica(text, " asks replica ", replica)?;
            append(text, " about ")?;
            append(text, key.as_str())
        }
        Request::Put {
            key,
            tag,
            value,
            ..
        } => {
            append_pair_of(text, " puts ", *tag, value.as_ref(), key)?;
            append_replica(text, " at replica ", replica)
        }
    }
}

/// Adds that a client, if there is one, sends what it has to send.
fn append_sent(
    text: &mut Vec<u8>,
    replica: ReplicaId,
    client: Option<&Client>,
) -> Result<(), Memory>
    ensures { OnOk result (text.new.items ≡ text.old.items
        ++ sent_text replica (option_and_then request_of (option_copied client.entry))) }
{
    let Some(client) = client else {
        return Ok(());
    };
    match client.request()? {
        None => Ok(()),
        Some(request) => append_request(text, replica, &request),
    }
}

/// Adds that a client, if there is one, answers its call.
#[tactic(auto, unfolding(crate::specs::StepLines::answer_text))]
fn append_answer(text: &mut Vec<u8>, client: Option<&Client>) -> Result<(), Memory>
    ensures { OnOk result (text.new.items ≡ text.old.items
        ++ answer_text (option_and_then answer_of (option_copied client.entry))) }
{
    let Some(client) = client else {
        return Ok(());
    };
    match client.answer()? {
        None => Ok(()),
        Some(Returned::Written) => append(text, " answers that its write is done"),
        Some(Returned::Value(value)) => {
            append(text, " answers ")?;
            append_value(text, value.as_ref())
        }
    }
}

/// The tag and the value that the replica of that number holds for the key.
fn held_at<'a>(world: &'a World, number: ReplicaId, key: &Key) -> (Tag, Option<&'a Value>)
    ensures tag { result.0 ≡ (pair_at world.now number key.now).tag }
    ensures value { option_copied result.1 ≡ (pair_at world.now number key.now).value }
{
    match world.replica(number) {
        Some(replica) => replica.held(key),
        None => (Tag::least(), None),
    }
}

/// The key of a request.
fn key_of(request: &Request) -> &Key
    ensures { result.now ≡ key_of request.now }
{
    match request {
        Request::Query { key, .. } | Request::Put { key, .. } => key,
    }
}

/// Adds that a replica keeps its own pair of the key, which has that tag.
fn append_kept_pair(text: &mut Vec<u8>, own: Tag, key: &Key) -> Result<(), Memory>
    ensures { OnOk result (text.new.items ≡ text.old.items
        ++ codes " already holds " ++ tag_text own ++ codes " for " ++ key.now
        ++ codes ", which it keeps") }
{
    append(text, " already holds ")?;
    append_tag(text, own)?;
    append(text, " for ")?;
    append(text, key.as_str())?;
    append(text, ", which it keeps")
}

/// Adds what a replica that holds that tag and value makes of a request.
#[tactic(auto, unfolding(crate::specs::StepLines::handled_text))]
fn append_handled(
    text: &mut Vec<u8>,
    own: Tag,
    value: Option<&Value>,
    request: &Request,
) -> Result<(), Memory>
    ensures { OnOk result (text.new.items
        ≡ text.old.items ++ handled_text own (option_copied value.entry) request.now) }
{
    match request {
        Request::Query { key, .. } => append_pair_of(text, " holds ", own, value, key),
        Request::Put {
            key,
            tag,
            value,
            ..
        } => {
            if own < *tag {
                append_pair_of(text, " takes ", *tag, value.as_ref(), key)
            } else {
                append_kept_pair(text, own, key)
            }
        }
    }
}

/// Adds what a reply says.
#[tactic(auto, unfolding(crate::specs::StepLines::reply_text))]
fn append_reply(text: &mut Vec<u8>, reply: &Reply) -> Result<(), Memory>
    ensures { OnOk result (text.new.items ≡ text.old.items ++ reply_text reply.now) }
{
    match reply {
        Reply::Held {
            replica,
            tag,
            value,
            ..
        } => {
            append_replica(text, " hears that replica ", *replica)?;
            append(text, " holds ")?;
            append_pair(text, *tag, value.as_ref())
        }
        Reply::Kept { replica, .. } => {
            append_replica(text, " hears that replica ", *replica)?;
            append(text, " has its pair or a newer one")
        }
    }
}

/// Adds that the message arrives, and what its receiver makes of it.
#[tactic(auto, unfolding(crate::specs::StepLines::message_text))]
fn append_message(text: &mut Vec<u8>, world: &World, message: &Message) -> Result<(), Memory>
    ensures { OnOk result
        (text.new.items ≡ text.old.items ++ message_text world.now message.now) }
{
    match message {
        Message::ToReplica(number, request) => {
            let (own, value) = held_at(world, *number, key_of(request));
            append_replica(text, " arrives: replica ", *number)?;
            append_handled(text, own, value, request)
        }
        Message::ToClient(client, reply) => {
            append_client(text, " arrives: client ", *client)?;
            append_reply(text, reply)
        }
    }
}

/// Adds that the message of a flight arrives, if the flight has a copy.
fn append_arrival(
    text: &mut Vec<u8>,
    world: &World,
    message: Option<&Message>,
) -> Result<(), Memory>
    ensures { OnOk result (text.new.items
        ≡ text.old.items ++ arrival_text world.now (option_copied message.entry)) }
{
    match message {
        None => Ok(()),
        Some(message) => append_message(text, world, message),
    }
}

/// Adds the client, and what it does.
fn append_client_act(text: &mut Vec<u8>, client: ClientId, act: &str) -> Result<(), Memory>
    ensures { OnOk result
        (text.new.items ≡ text.old.items ++ (numbered (codes "client ") client ++ act.now)) }
{
    append_client(text, "client ", client)?;
    append(text, act)
}

/// Adds the replica, and what it does.
fn append_replica_act(text: &mut Vec<u8>, replica: ReplicaId, act: &str) -> Result<(), Memory>
    ensures { OnOk result
        (text.new.items ≡ text.old.items ++ (numbered (codes "replica ") replica ++ act.now)) }
{
    append_replica(text, "replica ", replica)?;
    append(text, act)
}

/// Adds the words and the message's number, and what becomes of the message.
fn append_flight_act(text: &mut Vec<u8>, words: &str, flight: u32, act: &str) -> Result<(), Memory>
    ensures { OnOk result
        (text.new.items ≡ text.old.items ++ (numbered words.now flight ++ act.now)) }
{
    append_flight(text, words, flight)?;
    append(text, act)
}

/// Adds who takes the step, and what it does.
#[tactic(auto, unfolding(crate::specs::StepLines::act_text))]
pub(crate) fn append_act(text: &mut Vec<u8>, world: &World, step: &Step) -> Result<(), Memory>
    ensures { OnOk result (text.new.items ≡ text.old.items ++ act_text world.now step.now) }
{
    match step {
        Step::Join { client } => append_client_act(text, *client, " joins"),
        Step::Invoke {
            client,
            key,
            action,
        } => {
            append_client(text, "client ", *client)?;
            append_begun(text, key, action)
        }
        Step::Send { client, replica } => {
            append_client(text, "client ", *client)?;
            append_sent(text, *replica, world.client(*client))
        }
        Step::Deliver { flight } => {
            append_flight(text, "message ", *flight)?;
            append_arrival(text, world, world.pool().look(*flight))
        }
        Step::Lose { flight } => append_flight_act(text, "a copy of message ", *flight, " is lost"),
        Step::Repeat { flight } => {
            append_flight_act(text, "message ", *flight, " gets one more copy")
        }
        Step::Respond { client } => {
            append_client(text, "client ", *client)?;
            append_answer(text, world.client(*client))
        }
        Step::StopClient { client } => append_client_act(text, *client, " stops for good"),
        Step::StopReplica { replica } => {
            append_replica_act(text, *replica, " goes down, and keeps what it stored")
        }
        Step::StartReplica { replica } => {
            append_replica_act(text, *replica, " comes up, with what it stored")
        }
    }
}
