//! The lines of the configuration.
ghost use Rattle.std.specs.Prelude.{◌≡◌, ◌≤◌, length, take, IfOk};
ghost use Rattle.tag.specs.Limits.{replica_limit};
ghost use Rattle.fault_script.specs.Words.{words};
ghost use Rattle.counted_devices.specs.Answers.{Gives};
ghost use Rattle.fault_script.specs.Settings.{vote_count, config_in, replicas_in, mode_of};
ghost use Rattle.fault_script.specs.Settings.{reads_in, numbers_in, quorums_of, votes_in};

use crate::LineFault;
use crate::fault::Stop;
use crate::numbers::{needed_number, number_or, within};
use crate::words::{is, needed_text, needed_word, nothing_more};
use client_phases::ReadMode;
use quorum::Quorums;
use world_steps::Config;

/// The most calls where a script says none.
const CALLS: u64 = 1_000_000;

/// The most messages where a script says none.
const FLIGHTS: u64 = 4_000_000;

#[tactic(auto, unfolding(crate::specs::Settings::config_in))]
fn config_in(
    replicas: Option<u64>,
    calls: Option<u64>,
    flights: Option<u64>,
) -> Result<Config, Stop>
    ensures { Gives (λ config. config) result (config_in replicas calls flights) }
{
    let replicas = within(1, 15, replicas)?;
    let calls = within(1, 1_000_000, calls)?;
    let flights = within(1, 16_000_000, flights)?;
    match Config::new(replicas as u8, calls as u32, flights as u32) {
        Some(config) => Ok(config),
        None => Err(Stop::Fault(LineFault::Range)),
    }
}

/// The configuration that stands after `replicas`.
#[tactic(auto, unfolding(crate::specs::Settings::replicas_in))]
pub(crate) fn replicas_in(args: &str) -> Result<Config, Stop>
    ensures { Gives (λ config. config) result (replicas_in (words args.now)) }
{
    let (replicas, behind) = needed_number(args)?;
    let (calls, behind) = number_or(CALLS, behind)?;
    let (flights, behind) = number_or(FLIGHTS, behind)?;
    nothing_more(behind)?;
    config_in(replicas, calls, flights)
}

#[tactic(auto, unfolding(crate::specs::Settings::mode_of))]
fn mode_of(word: &str) -> Result<ReadMode, Stop>
    ensures { Gives (λ mode. mode) result (mode_of word.now) }
{
    if is(word, "full") {
        Ok(ReadMode::Full)
    } else if is(word, "short") {
        Ok(ReadMode::Short)
    } else {
        Err(Stop::Fault(LineFault::UnknownCommand))
    }
}

/// The way of reading that stands after `reads`.
#[tactic(auto, unfolding(crate::specs::Settings::reads_in))]
pub(crate) fn reads_in(args: &str) -> Result<ReadMode, Stop>
    ensures { Gives (λ mode. mode) result (reads_in (words args.now)) }
{
    let (mode, behind) = needed_word(args)?;
    nothing_more(behind)?;
    mode_of(mode)
}

/// The number of votes; above 255 all are alike, since the rules allow none of them.
fn vote_count(number: Option<u64>) -> u8
    ensures { result ≡ vote_count number }
{
    match number {
        Some(number) => number.min(255) as u8,
        None => 255,
    }
}

/// So many numbers of votes, in a row of 15, and what stands after them.
fn numbers_in(count: u8, args: &str) -> Result<([u8; 15], &str), Stop>
    requires { count ≤ replica_limit }
    ensures { Gives (λ found. (take count found.0, words found.1.now)) result
        (numbers_in count (words args.now)) }
{
    let mut votes = [0; 15];
    let mut behind = args;
    for place in 0..usize::from(count) {
        let (number, others) = needed_number(behind)?;
        votes[place] = vote_count(number);
        behind = others;
    }
    Ok((votes, behind))
}

fn quorums_of(votes: &[u8], ask: u8, put: u8) -> Result<Quorums, Stop>
    ensures said { Gives (λ quorums. quorums) result (quorums_of votes.now ask put) }
    ensures count { IfOk result (λ quorums. length quorums.votes ≡ length votes.now) }
{
    match Quorums::new(votes, ask, put) {
        Some(quorums) => Ok(quorums),
        None => Err(Stop::Fault(LineFault::Range)),
    }
}

/// The quorums that stand after `votes`, for so many replicas.
#[tactic(auto, unfolding(crate::specs::Settings::votes_in))]
pub(crate) fn votes_in(replicas: u8, args: &str) -> Result<Quorums, Stop>
    requires { replicas ≤ replica_limit }
    ensures said { Gives (λ quorums. quorums) result (votes_in replicas (words args.now)) }
    ensures count { IfOk result (λ quorums. length quorums.votes ≡ replicas) }
{
    let (votes, behind) = numbers_in(replicas, args)?;
    let behind = needed_text("ask", behind)?;
    let (ask, behind) = needed_number(behind)?;
    let behind = needed_text("put", behind)?;
    let (put, behind) = needed_number(behind)?;
    nothing_more(behind)?;
    quorums_of(
        &votes[..usize::from(replicas)],
        vote_count(ask),
        vote_count(put),
    )
}
