//! Scenes.
ghost use Rattle.std.specs.Prelude.{◌≡◌, ◌++◌, IfOk, OnOk, Some, length, option_to_list, slice_get};
ghost use Rattle.network.specs.Flights.{message_of};
ghost use Rattle.world_steps.specs.Systems.{effect_of, system_after};
ghost use Rattle.world_steps.specs.declared.system.System.{System};
ghost use Rattle.message_scenes.specs.Arrows.{arrows_by};
ghost use Rattle.message_scenes.specs.Calls.{calls_by};
ghost use Rattle.message_scenes.specs.Hearings.{heard_with};
ghost use Rattle.message_scenes.specs.Replicas.{downs_after};
ghost use Rattle.message_scenes.specs.Shapes.{joined_after, no_shapes, with_row};
ghost use Rattle.message_scenes.specs.Tried.{refused, taken_step, took, unfinished};

use crate::arrows::{Arrow, add_arrows};
use crate::calls::{CallBar, add_calls, row_at};
use crate::hearings::{Hearing, add_hearing, heard_with, receiver_of};
use crate::replicas::{DownTime, Holding, add_downs, holding_of};
use quorum::Quorums;
use script_runs::{CommandKind, Origin};
use std::alloc::Global;
use tag::{ClientId, Memory};
use traces::{BegunSentence, StepSentence};
use world_settle::SettleError;
use world_steps::{Effect, Refusal, Step, World};

/// What a diagram of the messages of a script's run shows. Rows are counted from 0.
#[derive(Debug, Drop)]
pub struct MessageScene {
    /// The votes of the replicas, and how many votes end an asking and a putting.
    pub quorums: Quorums,
    /// The clients that joined, in rising order.
    pub clients: Vec<ClientId>,
    pub rows: Vec<StepRow>,
    /// An arrow for each copy of a message, in the order of the rows at which they begin.
    pub arrows: Vec<Arrow>,
    /// A bar for each call, in the order of their invocations.
    pub calls: Vec<CallBar>,
    /// What clients made of the replies that they heard, in the order of the rows.
    pub hearings: Vec<Hearing>,
    /// What replicas hold after each put, in the order of the rows.
    pub holdings: Vec<Holding>,
    pub downs: Vec<DownTime>,
    /// How much more was tried that has no row.
    pub omitted: u64,
}

/// What was tried, and what came of it.
#[derive(Debug, Drop)]
pub enum Attempt {
    /// The step was taken.
    Taken(Step),
    /// The step was refused, and changed nothing.
    Refused(Step, Refusal),
    /// The client's pending call couldn't be finished, and nothing was done.
    Unfinished(ClientId, SettleError),
}

/// A row: what was tried, and the command that it belongs to.
#[derive(Debug, Drop)]
pub struct StepRow {
    pub origin: Origin,
    pub attempt: Attempt,
    /// What a trace tells of it.
    pub told: StepSentence,
}

/// A step that is about to be taken and to be drawn, and what a scene needs of the world before it.
#[derive(Debug, Drop)]
pub struct ComingStep {
    origin: Origin,
    step: Step,
    /// What is told of it so far.
    told: BegunSentence,
    /// The client that hears a reply by it.
    receiver: Option<ClientId>,
    /// What a replica holds after the put that comes by it.
    holding: Option<Holding>,
    /// How many messages were sent.
    sent: u32,
    /// How many rows the record has.
    recorded: usize,
}

/// Adds the holding, if there is one.
fn add_holding(holdings: &mut Vec<Holding>, holding: Option<Holding>) -> Result<(), Memory>
    ensures { OnOk result (holdings.new.items ≡ holdings.old.items ++ option_to_list holding) }
{
    if let Some(holding) = holding {
        holdings.push(holding)?;
    }
    Ok(())
}

/// Adds the client that joins by the step.
#[tactic(auto, unfolding(crate::specs::Shapes::joined_after))]
fn add_joined(names: &mut Vec<ClientId>, step: &Step) -> Result<(), Memory>
    ensures { OnOk result (names.new.items ≡ joined_after step.now names.old.items) }
{
    if let Step::Join { client } = step {
        names.push(*client)?;
    }
    Ok(())
}

impl MessageScene {
    ghost use Rattle.message_scenes.specs.Sketches.{IsComing, shapes_of};

    /// Without a row.
    pub(crate) fn new(alloc: Global, quorums: Quorums) -> MessageScene
        ensures shapes { shapes_of result ≡ no_shapes }
        ensures quorums { result.quorums ≡ quorums }
        ensures omitted { result.omitted ≡ 0 }
    {
        MessageScene {
            quorums,
            clients: Vec::new(alloc),
            rows: Vec::new(alloc),
            arrows: Vec::new(alloc),
            calls: Vec::new(alloc),
            hearings: Vec::new(alloc),
            holdings: Vec::new(alloc),
            downs: Vec::new(alloc),
            omitted: 0,
        }
    }

    /// The step that is about to be taken, as the next row needs it.
    pub(crate) fn coming(
        &self,
        world: &World,
        origin: &Origin,
        step: &Step,
    ) -> Result<ComingStep, Memory>
        ensures origin { IfOk result (λ coming. coming.origin ≡ origin.now) }
        ensures step { IfOk result (λ coming. coming.step ≡ step.now) }
        ensures is { IfOk result (IsComing (length self.now.rows.items) world.now) }
    {
        Ok(ComingStep {
            origin: *origin,
            step: step.copy()?,
            told: BegunSentence::new(*self.rows.allocator(), world, step)?,
            receiver: receiver_of(world, step),
            holding: holding_of(world, self.rows.len(), step)?,
            sent: world.pool().sent(),
            recorded: world.history().row_count(),
        })
    }

    /// Adds the row and the shapes of the step, which had that effect, in the world after it.
    pub(crate) fn add(
        &mut self,
        world: &World,
        coming: ComingStep,
        effect: &Effect,
    ) -> Result<(), Memory>
        ensures shapes { OnOk result ((s : System) → IsComing (length self.old.rows.items) s coming
            → effect_of s coming.step ≡ Some effect.now
            → world.now ≡ system_after s coming.step → shapes_of self.new
            ≡ with_row (shapes_of self.old) (took (taken_step coming.origin s coming.step))) }
        ensures quorums { OnOk result (self.new.quorums ≡ self.old.quorums) }
        ensures omitted { OnOk result (self.new.omitted ≡ self.old.omitted) }
    {
        let ComingStep {
            origin,
            step,
            told,
            receiver,
            holding,
            sent,
            recorded,
        } = coming;
        let row = self.rows.len();
        self.add_shapes(world, row, &step, effect, sent, recorded)?;
        let hearing = heard_with(world, row, receiver, effect);
        add_hearing(&mut self.hearings, hearing)?;
        add_holding(&mut self.holdings, holding)?;
        let attempt = Attempt::Taken(step);
        let told = told.end(effect)?;
        self.rows.push(StepRow {
            origin,
            attempt,
            told,
        })?;
        Ok(())
    }

    /// Adds the row of a step that was refused.
    pub(crate) fn add_refused(
        &mut self,
        origin: &Origin,
        step: &Step,
        why: Refusal,
    ) -> Result<(), Memory>
        ensures shapes { OnOk result (shapes_of self.new
            ≡ with_row (shapes_of self.old) (refused origin.now step.now why)) }
        ensures quorums { OnOk result (self.new.quorums ≡ self.old.quorums) }
    {
        let origin = *origin;
        let attempt = Attempt::Refused(step.copy()?, why);
        let told = StepSentence::of_refused(*self.rows.allocator(), step, why)?;
        self.rows.push(StepRow {
            origin,
            attempt,
            told,
        })?;
        Ok(())
    }

    /// Adds the row of the client's call that couldn't be finished, by the command of that line.
    pub(crate) fn add_unfinished(
        &mut self,
        line: u64,
        client: ClientId,
        why: SettleError,
    ) -> Result<(), Memory>
        ensures shapes { OnOk result (shapes_of self.new
            ≡ with_row (shapes_of self.old) (unfinished line client why)) }
        ensures quorums { OnOk result (self.new.quorums ≡ self.old.quorums) }
    {
        let kind = CommandKind::Finish(client);
        let origin = Origin { line, kind };
        let attempt = Attempt::Unfinished(client, why);
        let told = StepSentence::of_unfinished(*self.rows.allocator(), client, why)?;
        self.rows.push(StepRow {
            origin,
            attempt,
            told,
        })?;
        Ok(())
    }

    /// Adds the shapes of the step of the row but hearings and holdings, after it is taken.
    fn add_shapes(
        &mut self,
        world: &World,
        row: usize,
        step: &Step,
        effect: &Effect,
        sent: u32,
        recorded: usize,
    ) -> Result<(), Memory>
        ensures joined { OnOk result
            (self.new.clients.items ≡ joined_after step.now self.old.clients.items) }
        ensures arrows { OnOk result (self.new.arrows.items ≡ arrows_by row step.now
            (Some effect.now) sent (message_of world.now.pool.flights sent)
            self.old.arrows.items) }
        ensures calls { OnOk result (self.new.calls.items ≡ calls_by row step.now
            (slice_get world.now.history.rows recorded) self.old.calls.items) }
        ensures downs { OnOk result
            (self.new.downs.items ≡ downs_after row step.now self.old.downs.items) }
        ensures others { OnOk result (self.new ≡ record self.old {
          clients = self.new.clients;
          arrows = self.new.arrows;
          calls = self.new.calls;
          downs = self.new.downs;
        }) }
    {
        add_joined(&mut self.clients, step)?;
        add_arrows(
            &mut self.arrows,
            row,
            step,
            effect,
            sent,
            world.pool().look(sent),
        )?;
        add_calls(
            &mut self.calls,
            row,
            step,
            row_at(world.history(), recorded),
        )?;
        add_downs(&mut self.downs, row, step)
    }
}
