//! Lines that are told while there is room for them, and then counted.
ghost use Rattle.std.specs.Prelude.{◌≡◌, ◌++◌, [], IfOk, OnOk};
ghost use Rattle.traces.specs.Running.{IsTextOf, IsTold};
ghost use Rattle.traces.specs.Traces.{finish_words, finished_line, notice_line, omitted_line};
ghost use Rattle.traces.specs.Traces.{own_line, random_line, walked_line};

use crate::counts::{Count, count_of};
use crate::step_words::{append_client, append_unsettled};
use crate::steps::{append_after, append_before, append_head, append_refusal};
use script_runs::{CommandKind, Notice, Observer, Origin, Quota};
use sentences::{append, append_number};
use std::alloc::Global;
use tag::{ClientId, Memory};
use world_steps::{Effect, Refusal, Step, World};

/// The text of the lines that are told.
#[derive(Drop)]
pub struct Telling {
    text: Vec<u8>,
    quota: Quota,
}

/// Adds the words of a line that has a client's call completed.
#[tactic(auto, unfolding(crate::specs::Traces::finish_words, crate::specs::Traces::head_text))]
fn append_finish(text: &mut Vec<u8>, number: u64, client: ClientId) -> Result<(), Memory>
    ensures { OnOk result (text.new.items ≡ text.old.items ++ finish_words number client) }
{
    append_head(text, Some(number))?;
    append_client(text, "finish ", client)
}

/// Adds the line below the steps that completed a client's call.
#[tactic(auto, unfolding(crate::specs::Traces::finished_line))]
fn append_finished(text: &mut Vec<u8>, count: u32) -> Result<(), Memory>
    ensures { OnOk result (text.new.items ≡ text.old.items ++ finished_line count) }
{
    append_number(text, "  took ", u64::from(count))?;
    append(text, if count == 1 { " step\n" } else { " steps\n" })
}

/// Adds the line above random steps.
#[tactic(auto, unfolding(crate::specs::Traces::random_line, crate::specs::Traces::head_text))]
fn append_random(text: &mut Vec<u8>, number: u64, seed: u64, count: u32) -> Result<(), Memory>
    ensures { OnOk result (text.new.items ≡ text.old.items ++ random_line number seed count) }
{
    append_head(text, Some(number))?;
    append_number(text, "random ", seed)?;
    append_number(text, " ", u64::from(count))?;
    append(text, ":\n")
}

/// Adds the line below random steps.
#[tactic(auto, unfolding(crate::specs::Traces::walked_line))]
fn append_walked(text: &mut Vec<u8>, taken: u32, count: u32) -> Result<(), Memory>
    ensures { OnOk result (text.new.items ≡ text.old.items ++ walked_line taken count) }
{
    append_number(text, "  took ", u64::from(taken))?;
    append_number(text, " of ", u64::from(count))?;
    append(text, "\n")
}

/// Adds how many lines were left out, if some were.
#[tactic(auto, unfolding(crate::specs::Traces::omitted_line))]
fn append_omitted(text: &mut Vec<u8>, count: u64) -> Result<(), Memory>
    ensures { OnOk result (text.new.items ≡ text.old.items ++ omitted_line count) }
{
    if count == 0 {
        return Ok(());
    }
    append_number(text, "lines left out: ", count)?;
    append(text, "; --most N says how many are told\n")
}

/// Adds the line of what there is to say of the command of that line.
#[tactic(auto, unfolding(crate::specs::Traces::finish_line, crate::specs::Traces::unfinished_line))]
fn append_notice(text: &mut Vec<u8>, number: u64, notice: &Notice) -> Result<(), Memory>
    ensures { OnOk result (text.new.items ≡ text.old.items ++ notice_line number notice.now) }
{
    match notice {
        Notice::Finishes(client) => {
            append_finish(text, number, *client)?;
            append(text, ":\n")
        }
        Notice::Finished(count) => append_finished(text, *count),
        Notice::Unfinished(client, why) => {
            append_finish(text, number, *client)?;
            append_unsettled(text, *why)?;
            append(text, "\n")
        }
        Notice::Randomizes { seed, count } => append_random(text, number, *seed, *count),
        Notice::Randomized { taken, count } => append_walked(text, *taken, *count),
    }
}

/// The number of the line of a step that is a command by itself.
fn own_line(origin: &Origin) -> Option<u64>
    ensures { result ≡ own_line origin.now.line origin.now.kind }
{
    match origin.kind {
        CommandKind::Step => Some(origin.line),
        _ => None,
    }
}

/// What is noted of a step that is told: what the client counts that hears a reply by it.
#[derive(Debug, Drop)]
pub struct ToldStep {
    count: Option<Count>,
}

impl Telling {
    /// Before the first line, of which so many are told.
    pub fn new(alloc: Global, most: u32) -> Telling
        ensures { IsTold most [] result }
    {
        Telling {
            text: Vec::new(alloc),
            quota: Quota::new(most),
        }
    }

    /// The text of what was told, with how many lines were left out.
    pub fn into_text(self) -> Result<Vec<u8>, Memory>
        ensures { IfOk result (λ text. IsTextOf self text.items) }
    {
        let Telling { mut text, quota } = self;
        append_omitted(&mut text, quota.omitted)?;
        Ok(text)
    }
}

impl Observer for Telling {
    ghost use Rattle.traces.specs.Running.{NotesStep, TellsOn};

    /// None of a step that is left out.
    type Noted = Option<ToldStep>;

    ghost sees = { TellsOn };

    ghost notes = { NotesStep };

    fn before(
        &mut self,
        world: &World,
        origin: &Origin,
        step: &Step,
    ) -> Result<Option<ToldStep>, Memory> {
        if !self.quota.admits() {
            return Ok(None);
        }
        append_before(&mut self.text, world, own_line(origin), step)?;
        Ok(Some(ToldStep {
            count: count_of(world, step),
        }))
    }

    fn after(
        &mut self,
        _world: &World,
        noted: Option<ToldStep>,
        effect: &Effect,
    ) -> Result<(), Memory> {
        match noted {
            Some(told) => {
                append_after(&mut self.text, &told.count, effect)?;
                Ok(())
            }
            None => Ok(()),
        }
    }

    fn refused(&mut self, origin: &Origin, step: &Step, why: Refusal) -> Result<(), Memory> {
        if self.quota.admits() {
            append_refusal(&mut self.text, own_line(origin), step, why)?;
        }
        Ok(())
    }

    fn ignores_refused(&self, _origin: &Origin) -> bool {
        false
    }

    fn notice(&mut self, line: u64, notice: &Notice) -> Result<(), Memory> {
        if self.quota.admits() {
            append_notice(&mut self.text, line, notice)?;
        }
        Ok(())
    }
}
