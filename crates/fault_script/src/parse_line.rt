//! What a line says after the lines before it.
ghost use Rattle.std.specs.Prelude.{◌<◌, IfOk, IsSome, codes};
ghost use Rattle.counted_devices.specs.Answers.{Gives};
ghost use Rattle.fault_script.specs.LineItems.{run_after, says_after, setting_word};
ghost use Rattle.fault_script.specs.LineMeanings.{command_limit, first_said, said_in};
ghost use Rattle.fault_script.specs.LineMeanings.{reads_said, votes_set, votes_said};
ghost use Rattle.fault_script.specs.Words.{words};

use crate::LineFault;
use crate::fault::Stop;
use crate::parse_setting::{reads_in, replicas_in, votes_in};
use crate::shown::{Setting, Shown};
use script_runs::Command;
use world_steps::Config;

/// The most commands of a script.
pub const MOST_COMMANDS: usize = 1_000_000;

/// Which line was the last that isn't blank and no comment.
#[derive(Clone, Copy, Debug)]
pub enum Last {
    Replicas,
    Reads,
    Other,
}

/// The configuration so far, and the last line: `reads` may stand after `replicas` alone, `votes`
/// after the two.
#[derive(Clone, Copy, Debug)]
pub struct ConfigSoFar {
    pub config: Config,
    pub last: Last,
}

/// What a line says: a configuration, or a command.
#[derive(Debug, Drop)]
pub enum Said {
    Opens(ConfigSoFar),
    Runs(Command),
}

#[tactic(auto, unfolding(crate::specs::LineMeanings::reads_said))]
fn reads_said(opened: ConfigSoFar, args: &str) -> Result<ConfigSoFar, Stop>
    ensures { Gives (λ opened. opened) result
        (reads_said opened.config opened.last (words args.now)) }
{
    match opened.last {
        Last::Replicas => {
            let mode = reads_in(args)?;
            Ok(ConfigSoFar {
                config: opened.config.with_reads(mode),
                last: Last::Reads,
            })
        }
        _ => Err(Stop::Fault(LineFault::UnknownCommand)),
    }
}

#[tactic(auto, unfolding(crate::specs::LineMeanings::votes_set))]
fn votes_set(config: Config, args: &str) -> Result<ConfigSoFar, Stop>
    ensures { Gives (λ opened. opened) result (votes_set config (words args.now)) }
{
    let quorums = votes_in(config.replicas(), args)?;
    match config.with_quorums(quorums) {
        Some(config) => Ok(ConfigSoFar {
            config,
            last: Last::Other,
        }),
        None => Err(Stop::Fault(LineFault::UnknownCommand)),
    }
}

#[tactic(auto, unfolding(crate::specs::LineMeanings::votes_said))]
fn votes_said(opened: ConfigSoFar, args: &str) -> Result<ConfigSoFar, Stop>
    ensures { Gives (λ opened. opened) result
        (votes_said opened.config opened.last (words args.now)) }
{
    match opened.last {
        Last::Replicas | Last::Reads => votes_set(opened.config, args),
        Last::Other => Err(Stop::Fault(LineFault::UnknownCommand)),
    }
}

/// What the first line of the configuration says.
#[tactic(auto, unfolding(crate::specs::LineMeanings::first_said))]
fn replicas_said(args: &str) -> Result<ConfigSoFar, Stop>
    ensures { Gives (λ opened. Said.Opens opened) result
        (first_said (codes "replicas") (words args.now)) }
{
    let config = replicas_in(args)?;
    Ok(ConfigSoFar {
        config,
        last: Last::Replicas,
    })
}

/// The configuration that its next line says after the lines before.
#[tactic(auto, unfolding(crate::specs::LineMeanings::said_in, crate::specs::LineMeanings::first_said))]
fn set_after(before: Option<ConfigSoFar>, setting: Setting, args: &str) -> Result<ConfigSoFar, Stop>
    ensures { Gives (λ opened. Said.Opens opened) result
        (said_in before (setting_word setting) args.now) }
{
    match (before, setting) {
        (None, Setting::Replicas) => replicas_said(args),
        (None, _) => Err(Stop::Fault(LineFault::NoReplicas)),
        (Some(_), Setting::Replicas) => Err(Stop::Fault(LineFault::UnknownCommand)),
        (Some(opened), Setting::Reads) => reads_said(opened, args),
        (Some(opened), Setting::Votes) => votes_said(opened, args),
    }
}

/// The command after the lines before, which must say a configuration.
fn run_after(
    before: Option<ConfigSoFar>,
    command: Result<Command, LineFault>,
) -> Result<Command, Stop>
    ensures { Gives (λ command. Said.Runs command) result (run_after before command) }
{
    if before.is_none() {
        return Err(Stop::Fault(LineFault::NoReplicas));
    }
    command.map_err(Stop::Fault)
}

/// What a line that shows that says after the lines before, of which so many were commands: nothing
/// where it is blank or a comment.
pub(crate) fn says_after(
    before: Option<ConfigSoFar>,
    count: usize,
    shown: Shown,
) -> Result<Option<Said>, Stop>
    ensures said { Gives (λ said. said) result (says_after before count shown) }
    ensures few { IfOk result (λ said. IsSome said → count < command_limit) }
{
    match shown {
        Shown::Nothing => Ok(None),
        _ if count >= MOST_COMMANDS => Err(Stop::Fault(LineFault::TooManyCommands)),
        Shown::Sets(setting, args) => {
            let opened = set_after(before, setting, args.as_str())?;
            Ok(Some(Said::Opens(opened)))
        }
        Shown::Runs(command) => {
            let command = run_after(before, command)?;
            Ok(Some(Said::Runs(command)))
        }
    }
}
