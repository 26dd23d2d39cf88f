//! What is said in a diagram, in few words.
ghost use Rattle.std.specs.Prelude.{◌≡◌, ◌++◌, option_copied, OnOk};
ghost use Rattle.diagram_words.specs.Words.{action_words, arrow_title, arrow_words, attempt_words};
ghost use Rattle.diagram_words.specs.Words.{begin_words, between_words, holding_words, message_words};
ghost use Rattle.diagram_words.specs.Words.{missed_words, note_words, own_votes, own_words, pair_words};
ghost use Rattle.diagram_words.specs.Words.{receiver_words, replica_words, reply_words, request_words};
ghost use Rattle.diagram_words.specs.Words.{returned_words, step_words, votes_words};

use crate::phrases::{
    ANSWERS, ASKS, BLANK, CALL_SIGN, COMMA, DELIVER, DONE, FINISH, FROM_CLIENT, FROM_REPLICA, HELD,
    HOLDS_SIGN, INVOKE, JOIN, KEEPS, KEPT, LOSE, MESSAGE_WORD, NOTES, OF, PUTS, READS, REPEAT,
    REPLICA_WORD, RESPOND, SEND, START_REPLICA, STOP_CLIENT, STOP_REPLICA, TO_CLIENT, TO_REPLICA,
    VOTES, WRITES,
};
use message_scenes::{Arrow, ArrowEnd, Attempt, CallBar, Holding};
use network::Message;
use quorum::{Quorums, ReplicaSet};
use replica::{Reply, Request};
use sentences::{append, append_number, append_tag, append_value};
use tag::{Action, ClientId, Key, Memory, ReplicaId, Returned, Tag, Value};
use world_steps::Step;

/// Adds the first words of a step.
#[tactic(auto, unfolding(crate::specs::Words::step_words))]
fn say_step(words: &mut Vec<u8>, step: &Step) -> Result<(), Memory>
    ensures { OnOk result (words.new.items ≡ words.old.items ++ step_words step.now) }
{
    match step {
        Step::Join { client } => append_number(words, JOIN, u64::from(client.get())),
        Step::Invoke { client, .. } => append_number(words, INVOKE, u64::from(client.get())),
        Step::Send { client, replica } => {
            append_number(words, SEND, u64::from(client.get()))?;
            append_number(words, BLANK, u64::from(replica.get()))
        }
        Step::Deliver { flight } => append_number(words, DELIVER, u64::from(*flight)),
        Step::Lose { flight } => append_number(words, LOSE, u64::from(*flight)),
        Step::Repeat { flight } => append_number(words, REPEAT, u64::from(*flight)),
        Step::Respond { client } => append_number(words, RESPOND, u64::from(client.get())),
        Step::StopClient { client } => append_number(words, STOP_CLIENT, u64::from(client.get())),
        Step::StopReplica { replica } => {
            append_number(words, STOP_REPLICA, u64::from(replica.get()))
        }
        Step::StartReplica { replica } => {
            append_number(words, START_REPLICA, u64::from(replica.get()))
        }
    }
}

/// Adds the first words of what was tried.
pub fn say_attempt(words: &mut Vec<u8>, attempt: &Attempt) -> Result<(), Memory>
    ensures { OnOk result (words.new.items ≡ words.old.items ++ attempt_words attempt.now) }
{
    match attempt {
        Attempt::Taken(step) => say_step(words, step),
        Attempt::Refused(step, _) => say_step(words, step),
        Attempt::Unfinished(client, _) => append_number(words, FINISH, u64::from(client.get())),
    }
}

/// Adds a replica's pair.
fn say_pair(words: &mut Vec<u8>, tag: Tag, value: Option<&Value>) -> Result<(), Memory>
    ensures { OnOk result (words.new.items
        ≡ words.old.items ++ pair_words tag (option_copied value.entry)) }
{
    append_tag(words, tag)?;
    append(words, BLANK)?;
    append_value(words, value)
}

/// Adds what the request asks or puts.
#[tactic(auto, unfolding(crate::specs::Words::request_words))]
fn say_request(words: &mut Vec<u8>, request: &Request) -> Result<(), Memory>
    ensures { OnOk result (words.new.items ≡ words.old.items ++ request_words request.now) }
{
    match request {
        Request::Query { key, .. } => {
            append(words, ASKS)?;
            append(words, key.as_str())
        }
        Request::Put {
            key,
            tag,
            value,
            ..
        } => {
            append(words, PUTS)?;
            append(words, key.as_str())?;
            append(words, BLANK)?;
            say_pair(words, *tag, value.as_ref())
        }
    }
}

/// Adds what the reply tells.
#[tactic(auto, unfolding(crate::specs::Words::reply_words))]
fn say_reply(words: &mut Vec<u8>, reply: &Reply) -> Result<(), Memory>
    ensures { OnOk result (words.new.items ≡ words.old.items ++ reply_words reply.now) }
{
    match reply {
        Reply::Held { tag, value, .. } => {
            append(words, HELD)?;
            say_pair(words, *tag, value.as_ref())
        }
        Reply::Kept { .. } => append(words, KEPT),
    }
}

/// Adds what the message asks or tells.
fn say_message(words: &mut Vec<u8>, message: &Message) -> Result<(), Memory>
    ensures { OnOk result (words.new.items ≡ words.old.items ++ message_words message.now) }
{
    match message {
        Message::ToReplica(_, request) => say_request(words, request),
        Message::ToClient(_, reply) => say_reply(words, reply),
    }
}

/// Adds from whom to whom the message goes.
fn say_between(
    words: &mut Vec<u8>,
    client: ClientId,
    replica: ReplicaId,
    message: &Message,
) -> Result<(), Memory>
    ensures { OnOk result (words.new.items
        ≡ words.old.items ++ between_words client replica message.now) }
{
    let (client, replica) = (u64::from(client.get()), u64::from(replica.get()));
    match message {
        Message::ToReplica(_, _) => {
            append_number(words, FROM_CLIENT, client)?;
            append_number(words, TO_REPLICA, replica)
        }
        Message::ToClient(_, _) => {
            append_number(words, FROM_REPLICA, replica)?;
            append_number(words, TO_CLIENT, client)
        }
    }
}

/// Adds to whom the arrow's message goes.
fn say_receiver(words: &mut Vec<u8>, arrow: &Arrow) -> Result<(), Memory>
    ensures { OnOk result (words.new.items ≡ words.old.items
        ++ receiver_words arrow.now.client arrow.now.replica arrow.now.message) }
{
    match &arrow.message {
        Message::ToReplica(_, _) => append_number(
            words,
            TO_REPLICA,
            u64::from(arrow.replica.get()),
        ),
        Message::ToClient(_, _) => append_number(words, TO_CLIENT, u64::from(arrow.client.get())),
    }
}

/// Adds to whom the arrow's message goes, if it doesn't arrive.
fn say_missed(words: &mut Vec<u8>, arrow: &Arrow) -> Result<(), Memory>
    ensures { OnOk result (words.new.items ≡ words.old.items
        ++ missed_words arrow.now.end arrow.now.client arrow.now.replica arrow.now.message) }
{
    match arrow.end {
        ArrowEnd::Arrives(_) | ArrowEnd::Stale(_) => Ok(()),
        ArrowEnd::Lost(_) | ArrowEnd::Open => say_receiver(words, arrow),
    }
}

/// Adds the number of the arrow's message, and what it asks or tells; if it doesn't arrive, to whom
/// it goes.
#[tactic(auto, unfolding(crate::specs::Words::arrow_words))]
pub fn say_arrow(words: &mut Vec<u8>, arrow: &Arrow) -> Result<(), Memory>
    ensures { OnOk result (words.new.items ≡ words.old.items ++ arrow_words arrow.now) }
{
    append_number(words, "", u64::from(arrow.flight))?;
    append(words, BLANK)?;
    say_message(words, &arrow.message)?;
    say_missed(words, arrow)
}

/// Adds the number of the arrow's message, from whom to whom it goes, and what it asks or tells.
#[tactic(auto, unfolding(crate::specs::Words::arrow_title))]
pub fn say_arrow_title(words: &mut Vec<u8>, arrow: &Arrow) -> Result<(), Memory>
    ensures { OnOk result (words.new.items ≡ words.old.items ++ arrow_title arrow.now) }
{
    append_number(words, MESSAGE_WORD, u64::from(arrow.flight))?;
    say_between(words, arrow.client, arrow.replica, &arrow.message)?;
    append(words, COMMA)?;
    say_message(words, &arrow.message)
}

/// Adds what a call of that action does to the key.
#[tactic(auto, unfolding(crate::specs::Words::action_words))]
fn say_action(words: &mut Vec<u8>, key: &Key, action: &Action) -> Result<(), Memory>
    ensures { OnOk result
        (words.new.items ≡ words.old.items ++ action_words key.now action.now) }
{
    match action {
        Action::Read => {
            append(words, READS)?;
            append(words, key.as_str())
        }
        Action::Write(value) => {
            append(words, WRITES)?;
            append(words, key.as_str())?;
            append(words, BLANK)?;
            append_value(words, Some(value))
        }
    }
}

/// Adds the call's number, and what it does.
pub fn say_begin(words: &mut Vec<u8>, bar: &CallBar) -> Result<(), Memory>
    ensures { OnOk result (words.new.items ≡ words.old.items ++ begin_words bar.now) }
{
    append_number(words, CALL_SIGN, u64::from(bar.call.0))?;
    say_action(words, &bar.key, &bar.action)
}

/// Adds the tag that a call notes.
pub fn say_note(words: &mut Vec<u8>, tag: Tag) -> Result<(), Memory>
    ensures { OnOk result (words.new.items ≡ words.old.items ++ note_words tag) }
{
    append(words, NOTES)?;
    append_tag(words, tag)
}

/// Adds what a call answers.
#[tactic(auto, unfolding(crate::specs::Words::returned_words))]
pub fn say_returned(words: &mut Vec<u8>, returned: &Returned) -> Result<(), Memory>
    ensures { OnOk result (words.new.items ≡ words.old.items ++ returned_words returned.now) }
{
    match returned {
        Returned::Written => append(words, DONE),
        Returned::Value(value) => {
            append(words, ANSWERS)?;
            append_value(words, value.as_ref())
        }
    }
}

/// The votes that the replica has by itself.
fn own_votes(quorums: &Quorums, replica: ReplicaId) -> u8
    ensures { result ≡ own_votes quorums.now replica }
{
    let mut alone = ReplicaSet::empty();
    alone.add(replica);
    quorums.votes(&alone)
}

/// Adds so many votes, unless it is one.
fn say_own(words: &mut Vec<u8>, votes: u8) -> Result<(), Memory>
    ensures { OnOk result (words.new.items ≡ words.old.items ++ own_words votes) }
{
    if votes == 1 {
        return Ok(());
    }
    append_number(words, COMMA, u64::from(votes))?;
    append(words, VOTES)
}

/// Adds the name of the replica, with its votes.
pub fn say_replica(words: &mut Vec<u8>, quorums: &Quorums, replica: ReplicaId) -> Result<(), Memory>
    ensures { OnOk result
        (words.new.items ≡ words.old.items ++ replica_words quorums.now replica) }
{
    append_number(words, REPLICA_WORD, u64::from(replica.get()))?;
    say_own(words, own_votes(quorums, replica))
}

/// Adds so many votes, of so many that are needed.
pub fn say_votes(words: &mut Vec<u8>, votes: u8, needed: u8) -> Result<(), Memory>
    ensures { OnOk result (words.new.items ≡ words.old.items ++ votes_words votes needed) }
{
    append_number(words, "", u64::from(votes))?;
    append_number(words, OF, u64::from(needed))?;
    append(words, VOTES)
}

/// Adds what a replica holds after a put.
pub fn say_holding(words: &mut Vec<u8>, holding: &Holding) -> Result<(), Memory>
    ensures { OnOk result (words.new.items ≡ words.old.items ++ holding_words holding.now) }
{
    if holding.takes {
        append(words, holding.key.as_str())?;
        append(words, HOLDS_SIGN)?;
        say_pair(words, holding.tag, holding.value.as_ref())
    } else {
        append(words, KEEPS)?;
        append_tag(words, holding.tag)
    }
}
