//! The line of a step, told before the step is taken and after it.
ghost use Rattle.std.specs.Prelude.{◌≡◌, ◌++◌, codes, OnOk};
ghost use Rattle.traces.specs.StepLines.{act_text, effect_text, step_words};
ghost use Rattle.traces.specs.Traces.{head_text};
ghost use Rattle.traces.specs.Words.{refusal_text};

use crate::acts::append_act;
use crate::counts::Count;
use crate::effects::append_effect;
use crate::step_words::append_refused;
use sentences::{append, append_number};
use tag::Memory;
use world_steps::{Effect, Refusal, Step, World};

/// Adds how a line begins.
#[tactic(auto, unfolding(crate::specs::Traces::head_text, crate::specs::Traces::line_head))]
pub(crate) fn append_head(text: &mut Vec<u8>, number: Option<u64>) -> Result<(), Memory>
    ensures { OnOk result (text.new.items ≡ text.old.items ++ head_text number) }
{
    match number {
        None => append(text, "  "),
        Some(number) => {
            append_number(text, "line ", number)?;
            append(text, ": ")
        }
    }
}

/// Adds what is told of a step before it is taken.
pub(crate) fn append_before(
    text: &mut Vec<u8>,
    world: &World,
    number: Option<u64>,
    step: &Step,
) -> Result<(), Memory>
    ensures { OnOk result (text.new.items
        ≡ text.old.items ++ (head_text number ++ act_text world.now step.now)) }
{
    append_head(text, number)?;
    append_act(text, world, step)
}

/// Adds what is told of the step after it was taken.
pub(crate) fn append_after(
    text: &mut Vec<u8>,
    count: &Option<Count>,
    effect: &Effect,
) -> Result<(), Memory>
    ensures { OnOk result (text.new.items
        ≡ text.old.items ++ (effect_text count.now effect.now ++ codes "\n")) }
{
    append_effect(text, count, *effect)?;
    append(text, "\n")
}

/// Adds the line of a step that is refused.
pub(crate) fn append_refusal(
    text: &mut Vec<u8>,
    number: Option<u64>,
    step: &Step,
    why: Refusal,
) -> Result<(), Memory>
    ensures { OnOk result (text.new.items ≡ text.old.items
        ++ (head_text number ++ (step_words step.now ++ refusal_text why) ++ codes "\n")) }
{
    append_head(text, number)?;
    append_refused(text, step, why)?;
    append(text, "\n")
}
