//! The commands after the configuration.
ghost use Rattle.std.specs.Prelude.{◌≡◌, ◌≤◌, IfOk};
ghost use Rattle.fault_script.specs.Words.{words, behind_word};
ghost use Rattle.counted_devices.specs.Answers.{Gives};
ghost use Rattle.fault_script.specs.Commands.{client_in, replica_in, flight_in, action_in};
ghost use Rattle.fault_script.specs.Commands.{invoke_in, send_in, stopped_in, stop_in, start_in};
ghost use Rattle.fault_script.specs.Commands.{random_in, client_step_in, step_in, command_in};

use crate::LineFault;
use crate::fault::Stop;
use crate::numbers::{
    client_of, flight_of, key_of, needed_number, one_number, replica_of, value_of, within,
};
use crate::words::{is, needed_text, needed_word, nothing_more};
use script_runs::Command;
use std::alloc::Global;
use tag::{Action, ClientId, ReplicaId};
use world_steps::Step;

#[tactic(auto, unfolding(crate::specs::Commands::client_in))]
fn client_in(args: &str) -> Result<ClientId, Stop>
    ensures { Gives (λ client. client) result (client_in (words args.now)) }
{
    let number = one_number(args)?;
    client_of(number)
}

#[tactic(auto, unfolding(crate::specs::Commands::replica_in))]
fn replica_in(args: &str) -> Result<ReplicaId, Stop>
    ensures { Gives (λ replica. replica) result (replica_in (words args.now)) }
{
    let number = one_number(args)?;
    replica_of(number)
}

#[tactic(auto, unfolding(crate::specs::Commands::flight_in))]
fn flight_in(args: &str) -> Result<u32, Stop>
    ensures { Gives (λ flight. flight) result (flight_in (words args.now)) }
{
    let number = one_number(args)?;
    flight_of(number)
}

/// What a call asks, by the word before its key and what stands after the key.
#[tactic(auto, unfolding(crate::specs::Commands::action_in))]
fn action_in(alloc: Global, action: &str, behind_key: &str) -> Result<Action, Stop>
    ensures { Gives (λ action. action) result (action_in action.now behind_key.now) }
{
    if is(action, "read") {
        nothing_more(behind_key)?;
        Ok(Action::Read)
    } else if is(action, "write") {
        let value = value_of(alloc, behind_key)?;
        Ok(Action::Write(value))
    } else {
        Err(Stop::Fault(LineFault::UnknownCommand))
    }
}

#[tactic(auto, unfolding(crate::specs::Commands::invoke_in))]
fn invoke_in(alloc: Global, args: &str) -> Result<Step, Stop>
    ensures { Gives (λ step. step) result (invoke_in args.now) }
{
    let (client, behind) = needed_number(args)?;
    let (action, behind) = needed_word(behind)?;
    let (key, behind) = needed_word(behind)?;
    let action = action_in(alloc, action, behind)?;
    let client = client_of(client)?;
    let key = key_of(alloc, key)?;
    Ok(Step::Invoke {
        client,
        key,
        action,
    })
}

#[tactic(auto, unfolding(crate::specs::Commands::send_in))]
fn send_in(args: &str) -> Result<Step, Stop>
    ensures { Gives (λ step. step) result (send_in (words args.now)) }
{
    let (client, behind) = needed_number(args)?;
    let replica = one_number(behind)?;
    let client = client_of(client)?;
    let replica = replica_of(replica)?;
    Ok(Step::Send { client, replica })
}

#[tactic(auto, unfolding(crate::specs::Commands::stopped_in))]
fn stopped_in(kind: &str, args: &str) -> Result<Step, Stop>
    ensures { Gives (λ step. step) result (stopped_in kind.now (words args.now)) }
{
    if is(kind, "client") {
        let client = client_in(args)?;
        Ok(Step::StopClient { client })
    } else if is(kind, "replica") {
        let replica = replica_in(args)?;
        Ok(Step::StopReplica { replica })
    } else {
        Err(Stop::Fault(LineFault::UnknownCommand))
    }
}

#[tactic(auto, unfolding(crate::specs::Commands::stop_in))]
fn stop_in(args: &str) -> Result<Step, Stop>
    ensures { Gives (λ step. step) result (stop_in (words args.now)) }
{
    let (kind, behind) = needed_word(args)?;
    stopped_in(kind, behind)
}

#[tactic(auto, unfolding(crate::specs::Commands::start_in))]
fn start_in(args: &str) -> Result<Step, Stop>
    ensures { Gives (λ step. step) result (start_in (words args.now)) }
{
    let behind = needed_text("replica", args)?;
    let replica = replica_in(behind)?;
    Ok(Step::StartReplica { replica })
}

#[tactic(auto, unfolding(crate::specs::Commands::random_in))]
fn random_in(args: &str) -> Result<Command, Stop>
    ensures { Gives (λ command. command) result (random_in (words args.now)) }
{
    let (seed, behind) = needed_number(args)?;
    let count = one_number(behind)?;
    let seed = within(0, u64::MAX, seed)?;
    let count = within(0, 1_000_000, count)?;
    Ok(Command::Random {
        seed,
        count: count as u32,
    })
}

#[tactic(auto, unfolding(crate::specs::Commands::client_step_in))]
fn client_step_in(verb: &str, args: &str) -> Result<Step, Stop>
    ensures { Gives (λ step. step) result (client_step_in verb.now (words args.now)) }
{
    if is(verb, "join") {
        let client = client_in(args)?;
        Ok(Step::Join { client })
    } else if is(verb, "send") {
        send_in(args)
    } else if is(verb, "respond") {
        let client = client_in(args)?;
        Ok(Step::Respond { client })
    } else {
        Err(Stop::Fault(LineFault::UnknownCommand))
    }
}

#[tactic(auto, unfolding(crate::specs::Commands::step_in))]
fn step_in(verb: &str, args: &str) -> Result<Step, Stop>
    ensures { Gives (λ step. step) result (step_in verb.now (words args.now)) }
{
    if is(verb, "deliver") {
        let flight = flight_in(args)?;
        Ok(Step::Deliver { flight })
    } else if is(verb, "lose") {
        let flight = flight_in(args)?;
        Ok(Step::Lose { flight })
    } else if is(verb, "repeat") {
        let flight = flight_in(args)?;
        Ok(Step::Repeat { flight })
    } else if is(verb, "stop") {
        stop_in(args)
    } else if is(verb, "start") {
        start_in(args)
    } else {
        client_step_in(verb, args)
    }
}

/// The command of that first word, and of what stands after it.
#[tactic(auto, unfolding(crate::specs::Commands::command_in))]
pub(crate) fn command_in(alloc: Global, verb: &str, args: &str) -> Result<Command, Stop>
    ensures { Gives (λ command. command) result (command_in verb.now args.now) }
{
    if is(verb, "invoke") {
        let step = invoke_in(alloc, args)?;
        Ok(Command::Step(step))
    } else if is(verb, "finish") {
        let client = client_in(args)?;
        Ok(Command::Finish(client))
    } else if is(verb, "random") {
        random_in(args)
    } else {
        let step = step_in(verb, args)?;
        Ok(Command::Step(step))
    }
}
