//! What is told of a step, as a text of its own.
ghost use Rattle.std.specs.Prelude.{◌≡◌, IfOk};
ghost use Rattle.traces.specs.Sentences.{begun_of, ended_by, refused_sentence};
ghost use Rattle.traces.specs.Sentences.{unfinished_sentence};

use crate::acts::append_act;
use crate::counts::{Count, count_of};
use crate::effects::append_effect;
use crate::step_words::{append_client, append_refused, append_unsettled};
use std::alloc::Global;
use std::marker::Model;
use tag::{ClientId, Memory};
use world_settle::SettleError;
use world_steps::{Effect, Refusal, Step, World};

/// What is told of a step, as bytes of UTF-8.
#[derive(Debug, Drop)]
pub struct StepSentence {
    text: Vec<u8>,
}

impl Model for StepSentence {
    ghost use Rattle.std.specs.Prelude.{List, ℕ};

    ghost Value = { List ℕ };

    ghost view = { λ s. s.text.items };
}

/// What is told of a step before it is taken.
#[derive(Debug, Drop)]
pub struct BegunSentence {
    text: Vec<u8>,
    /// What the client counts that hears a reply by the step.
    count: Option<Count>,
}

impl Model for BegunSentence {
    ghost use Rattle.std.specs.Coded.{codes};
    ghost use Rattle.traces.specs.contracts.counts.Count as counted;
    ghost use Rattle.traces.specs.Sentences.{Begun};

    ghost Value = { Begun };

    ghost coded = { Prim.hlevel (codes, counted.the_row.coded) };

    ghost view = { λ b. record { text = b.text.items; count = b.count } };
}

impl StepSentence {
    /// Of a step that is refused: its words, and why.
    pub fn of_refused(alloc: Global, step: &Step, why: Refusal) -> Result<StepSentence, Memory>
        ensures { IfOk result (λ sentence. sentence ≡ refused_sentence step.now why) }
    {
        let mut text = Vec::new(alloc);
        append_refused(&mut text, step, why)?;
        Ok(StepSentence { text })
    }

    /// Of the client's call that can't be finished: that it was to be, and why it can't.
    pub fn of_unfinished(
        alloc: Global,
        client: ClientId,
        why: SettleError,
    ) -> Result<StepSentence, Memory>
        ensures { IfOk result (λ sentence. sentence ≡ unfinished_sentence client why) }
    {
        let mut text = Vec::new(alloc);
        append_client(&mut text, "finish ", client)?;
        append_unsettled(&mut text, why)?;
        Ok(StepSentence { text })
    }

    /// Its bytes.
    pub fn as_bytes(&self) -> &[u8]
        ensures { result.now ≡ self.now }
    {
        &self.text
    }
}

impl BegunSentence {
    /// Of a step that is about to be taken in the world.
    pub fn new(alloc: Global, world: &World, step: &Step) -> Result<BegunSentence, Memory>
        ensures { IfOk result (λ begun. begun ≡ begun_of world.now step.now) }
    {
        let mut text = Vec::new(alloc);
        append_act(&mut text, world, step)?;
        let count = count_of(world, step);
        Ok(BegunSentence { text, count })
    }

    /// The whole sentence: what came of the step stands at its end.
    pub fn end(self, effect: &Effect) -> Result<StepSentence, Memory>
        ensures { IfOk result (λ sentence. sentence ≡ ended_by self effect.now) }
    {
        let BegunSentence { mut text, count } = self;
        append_effect(&mut text, &count, *effect)?;
        Ok(StepSentence { text })
    }
}
