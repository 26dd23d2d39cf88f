//! Messages of a script's run, as they are written.
ghost use Rattle.std.specs.Prelude.{◌≡◌, ◌++◌, [], OnOk};
ghost use Rattle.fault_script.specs.MessageTexts.{random_message, reason_message};

use script_runs::{CommandKind, Notice, Observer, Origin};
use sentences::{append, append_number};
use std::alloc::Global;
use tag::Memory;
use world_steps::{Effect, Refusal, Step, World};

/// What is said of a run: why a command is refused, and how many random steps of a command were taken.
#[derive(Drop)]
pub struct Messages {
    pub text: Vec<u8>,
}

/// Says that the command of that line was refused, in those words, with the reason's number and name.
#[tactic(auto, unfolding(crate::specs::MessageTexts::reason_message))]
fn append_reason(
    messages: &mut Vec<u8>,
    line: u64,
    refused: &str,
    number: u8,
    name: &str,
) -> Result<(), Memory>
    ensures { OnOk result (messages.new.items
        ≡ messages.old.items ++ reason_message line refused.now number name.now) }
{
    append_number(messages, "line ", line)?;
    append_number(messages, refused, u64::from(number))?;
    append(messages, " ")?;
    append(messages, name)?;
    append(messages, "\n")
}

/// Says how many of the random steps of that line were taken.
fn append_random(messages: &mut Vec<u8>, line: u64, taken: u32, count: u32) -> Result<(), Memory>
    ensures { OnOk result
        (messages.new.items ≡ messages.old.items ++ random_message line taken count) }
{
    append_number(messages, "line ", line)?;
    append_number(messages, ": random took ", u64::from(taken))?;
    append_number(messages, " of ", u64::from(count))?;
    append(messages, "\n")
}

impl Messages {
    /// Nothing is said yet.
    pub(crate) fn new(alloc: Global) -> Messages
        ensures { result.text.items ≡ [] }
    {
        Messages {
            text: Vec::new(alloc),
        }
    }
}

impl Observer for Messages {
    ghost use Rattle.fault_script.specs.Telling.{TellsOn};

    type Noted = ();

    ghost sees = { TellsOn };

    ghost notes = { λ old origin s step new noted. new ≡ old };

    fn before(&mut self, _world: &World, _origin: &Origin, _step: &Step) -> Result<(), Memory> {
        Ok(())
    }

    fn after(&mut self, _world: &World, _noted: (), _effect: &Effect) -> Result<(), Memory> {
        Ok(())
    }

    fn refused(&mut self, origin: &Origin, _step: &Step, why: Refusal) -> Result<(), Memory> {
        match origin.kind {
            CommandKind::Step => append_reason(
                &mut self.text,
                origin.line,
                ": refused ",
                why.number(),
                why.name(),
            ),
            _ => Ok(()),
        }
    }

    fn ignores_refused(&self, origin: &Origin) -> bool {
        !matches!(origin.kind, CommandKind::Step)
    }

    fn notice(&mut self, line: u64, notice: &Notice) -> Result<(), Memory> {
        match notice {
            Notice::Unfinished(_, why) => append_reason(
                &mut self.text,
                line,
                ": finish refused ",
                why.number(),
                why.name(),
            ),
            Notice::Randomized { taken, count } => {
                append_random(&mut self.text, line, *taken, *count)
            }
            _ => Ok(()),
        }
    }
}
