//! What a line of a script says by itself.
ghost use Rattle.std.specs.Prelude.{◌≡◌, ◌==◌, IfOk, MatchOption, slice_index, codes};
ghost use Rattle.fault_script.specs.Commands.{command_in};
ghost use Rattle.fault_script.specs.LineItems.{IsSettingWord, TextShows, setting_word};

use crate::LineFault;
use crate::fault::Stop;
use crate::parse_command::command_in;
use crate::words::{is, next_word};
use script_runs::Command;
use std::alloc::Global;
use tag::Memory;

/// The lines of the configuration, by their first words.
#[derive(Clone, Copy, Debug)]
pub enum Setting {
    Replicas,
    Reads,
    Votes,
}

/// What a line says by itself, without the lines before it.
#[derive(Debug, Drop)]
pub enum Shown {
    /// Nothing: it is blank or a comment.
    Nothing,
    /// A line of the configuration, with what stands after its first word: the lines before it say
    /// how that is read.
    Sets(Setting, String),
    /// A command, or the fault of its words.
    Runs(Result<Command, LineFault>),
}

fn is_comment(word: &str) -> bool
    ensures { result ≡ (slice_index word.now 0 == 35) }
{
    match word.as_bytes().first() {
        Some(byte) => *byte == b'#',
        None => false,
    }
}

/// The line of the configuration that has that first word.
fn setting_of(verb: &str) -> Option<Setting>
    ensures { MatchOption result (IsSettingWord verb.now → ⊥) (λ setting. verb.now ≡ setting_word setting) }
{
    if is(verb, "replicas") {
        Some(Setting::Replicas)
    } else if is(verb, "reads") {
        Some(Setting::Reads)
    } else if is(verb, "votes") {
        Some(Setting::Votes)
    } else {
        None
    }
}

/// The command of that first word and what stands after it, or the fault of its words.
fn command_shown(
    alloc: Global,
    verb: &str,
    args: &str,
) -> Result<Result<Command, LineFault>, Memory>
    ensures { IfOk result (λ command. command ≡ command_in verb.now args.now) }
{
    match command_in(alloc, verb, args) {
        Ok(command) => Ok(Ok(command)),
        Err(Stop::Fault(fault)) => Ok(Err(fault)),
        Err(Stop::Memory) => Err(Memory),
    }
}

/// What the text of a line shows by itself.
pub(crate) fn shown_by(alloc: Global, text: &str) -> Result<Shown, Memory>
    ensures { IfOk result (TextShows text.now) }
{
    let Some((verb, args)) = next_word(text) else {
        return Ok(Shown::Nothing);
    };
    if is_comment(verb) {
        return Ok(Shown::Nothing);
    }
    match setting_of(verb) {
        Some(setting) => Ok(Shown::Sets(setting, String::from_str(alloc, args)?)),
        None => Ok(Shown::Runs(command_shown(alloc, verb, args)?)),
    }
}
