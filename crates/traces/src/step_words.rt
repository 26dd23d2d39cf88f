//! A step's words, and why it is refused.
ghost use Rattle.std.specs.Prelude.{◌≡◌, ◌++◌, OnOk};
ghost use Rattle.sentences.specs.Words.{numbered};
ghost use Rattle.traces.specs.StepLines.{asked_words, step_words};
ghost use Rattle.traces.specs.Words.{refusal_sentence, refusal_text, unsettled_sentence};
ghost use Rattle.traces.specs.Words.{unsettled_text};

use crate::words::{append_key, append_reason};
use sentences::{append, append_number, append_value};
use tag::{Action, ClientId, Key, Memory, ReplicaId};
use world_settle::SettleError;
use world_steps::{Refusal, Step};

/// Adds what is asked of a key.
#[tactic(auto, unfolding(crate::specs::StepLines::asked_words))]
fn append_asked(text: &mut Vec<u8>, key: &Key, action: &Action) -> Result<(), Memory>
    ensures { OnOk result
        (text.new.items ≡ text.old.items ++ asked_words key.now action.now) }
{
    match action {
        Action::Read => append_key(text, " read ", key),
        Action::Write(value) => {
            append_key(text, " write ", key)?;
            append(text, " ")?;
            append_value(text, Some(value))
        }
    }
}

/// Adds the words and then the client's name.
pub(crate) fn append_client(text: &mut Vec<u8>, words: &str, client: ClientId) -> Result<(), Memory>
    ensures { OnOk result (text.new.items ≡ text.old.items ++ numbered words.now client) }
{
    append_number(text, words, u64::from(client.get()))
}

/// Adds the words and then the replica's number.
pub(crate) fn append_replica(
    text: &mut Vec<u8>,
    words: &str,
    replica: ReplicaId,
) -> Result<(), Memory>
    ensures { OnOk result (text.new.items ≡ text.old.items ++ numbered words.now replica) }
{
    append_number(text, words, u64::from(replica.get()))
}

/// Adds the words and then the message's number.
pub(crate) fn append_flight(text: &mut Vec<u8>, words: &str, flight: u32) -> Result<(), Memory>
    ensures { OnOk result (text.new.items ≡ text.old.items ++ numbered words.now flight) }
{
    append_number(text, words, u64::from(flight))
}

/// Adds the step's words.
#[tactic(auto, unfolding(crate::specs::StepLines::step_words))]
fn append_words(text: &mut Vec<u8>, step: &Step) -> Result<(), Memory>
    ensures { OnOk result (text.new.items ≡ text.old.items ++ step_words step.now) }
{
    match step {
        Step::Join { client } => append_client(text, "join ", *client),
        Step::Invoke {
            client,
            key,
            action,
        } => {
            append_client(text, "invoke ", *client)?;
            append_asked(text, key, action)
        }
        Step::Send { client, replica } => {
            append_client(text, "send ", *client)?;
            append_replica(text, " ", *replica)
        }
        Step::Deliver { flight } => append_flight(text, "deliver ", *flight),
        Step::Lose { flight } => append_flight(text, "lose ", *flight),
        Step::Repeat { flight } => append_flight(text, "repeat ", *flight),
        Step::Respond { client } => append_client(text, "respond ", *client),
        Step::StopClient { client } => append_client(text, "stop client ", *client),
        Step::StopReplica { replica } => append_replica(text, "stop replica ", *replica),
        Step::StartReplica { replica } => append_replica(text, "start replica ", *replica),
    }
}

/// Why a step is refused, in a sentence.
fn refusal_sentence(why: Refusal) -> &'static str
    ensures { result.now ≡ refusal_sentence why }
{
    match why {
        Refusal::NoSuchReplica => "no replica has that number",
        Refusal::NoSuchClient => "no client of that name joined",
        Refusal::ClientTaken => "a client of that name joined before",
        Refusal::ClientStopped => "the client is stopped",
        Refusal::ClientBusy => "the client has a pending call",
        Refusal::NothingToSend => "the client neither asks nor puts",
        Refusal::NotInFlight => "no copy of that message is in flight",
        Refusal::NotReady => "the client has no answer yet",
        Refusal::ReplicaDown => "the replica is down",
        Refusal::ReplicaUp => "the replica is up",
        Refusal::CopiesFull => "the message has 1000 copies",
        Refusal::OpsFull => "the record has all its calls",
        Refusal::FlightsFull => "as many messages were sent as may be",
        Refusal::Memory => "out of memory",
    }
}

/// Why a call can't be finished, in a sentence.
fn unsettled_sentence(why: SettleError) -> &'static str
    ensures { result.now ≡ unsettled_sentence why }
{
    match why {
        SettleError::NoMajority => "the replicas that are up have too few votes",
        SettleError::NotPending => "no call of that client is pending",
        SettleError::Room => "too few messages are left",
        SettleError::Memory(_) => "out of memory",
    }
}

/// Adds why a step is refused: the number of the reason, its name, and a sentence.
pub fn append_refusal_reason(text: &mut Vec<u8>, why: Refusal) -> Result<(), Memory>
    ensures { OnOk result (text.new.items ≡ text.old.items ++ refusal_text why) }
{
    append_reason(text, why.number(), why.name(), refusal_sentence(why))
}

/// Adds the step's words, and why it is refused.
pub(crate) fn append_refused(text: &mut Vec<u8>, step: &Step, why: Refusal) -> Result<(), Memory>
    ensures { OnOk result
        (text.new.items ≡ text.old.items ++ step_words step.now ++ refusal_text why) }
{
    append_words(text, step)?;
    append_refusal_reason(text, why)
}

/// Adds why a call can't be finished: the number of the reason, its name, and a sentence.
pub fn append_unsettled(text: &mut Vec<u8>, why: SettleError) -> Result<(), Memory>
    ensures { OnOk result (text.new.items ≡ text.old.items ++ unsettled_text why) }
{
    append_reason(text, why.number(), why.name(), unsettled_sentence(why))
}
