//! Halls.
ghost use Rattle.std.specs.Prelude.{◌≡◌, ◌≤◌, ◌+◌, IfOk, None, Ok, OnOk, OnErr, vec_capacity, vec_len};
ghost use Rattle.std.specs.Cmp.{and_per, on_per};
ghost use Rattle.std.specs.Cmp.Lexicographic.{lists_per, pointwise};
ghost use Rattle.std.specs.Ordering.{eq_of_both, on};
ghost use Rattle.world_steps.specs.contracts.config.ConfigPartialEq.TheImpl.Laws as config;
ghost use Rattle.world_steps.specs.contracts.step.StepPartialEq.TheImpl.Laws as step;
ghost use Rattle.world_steps.specs.contracts.world.WorldPartialEq.TheImpl.Laws as world;
ghost use Rattle.world_steps.specs.Moves.{IsReady};
ghost use Rattle.world_steps.specs.Refusals.{refusal_of};
ghost use Rattle.world_steps.specs.Runs.{join_count, stop_count};
ghost use Rattle.world_steps.specs.SoundSystems.{IsSound};
ghost use Rattle.hall_journal.specs.Halls.{IsReplay, MayWantMemory, TakesOrRefuses, most_elements, opening_hall};

use std::alloc::Global;
use std::marker::Model;
use tag::{ClientId, Memory, OpId, Returned};
use world_steps::{Config, Effect, Refusal, Step, World, laws};

/// A world, and the journal of the steps that it took.
///
/// Of every hall that exists the world is the one after the journal's steps, and each of them was
/// accepted.
#[derive(Debug, Drop)]
pub struct Hall {
    config: Config,
    /// In an allocation of its own, so that a hall that goes from hand to hand is a few words.
    world: Box<World>,
    journal: Vec<Step>,
    running: usize,
}

impl Model for Hall {
    ghost use Rattle.std.specs.Prelude.{List, refl, vec_capacity, vec_len};
    ghost use Rattle.std.specs.Coded.{code_by, coded×, coded_list};
    ghost use Rattle.world_steps.specs.contracts.config.Config as settings;
    ghost use Rattle.world_steps.specs.contracts.step.Step as event;
    ghost use Rattle.world_steps.specs.contracts.world.World as whole;
    ghost use Rattle.world_steps.specs.Configs.{Config};
    ghost use Rattle.world_steps.specs.SoundSystems.{IsSound};
    ghost use Rattle.world_steps.specs.declared.step.Step.{Step};
    ghost use Rattle.world_steps.specs.declared.system.System.{System};
    ghost use Rattle.hall_journal.specs.Halls.{Hall, HasRoomForStops, IsReplay};

    ghost Value = { Hall };

    ghost coded = { code_by (Config × (System × List Step)) (coded× settings.the_row.coded (coded×
        whole.the_row.coded (coded_list event.the_row.coded)))
        (λ h. (h.config, (h.world, h.journal))) (λ p. record {
          config = p.0;
          world = p.1.0;
          journal = p.1.1;
        }) (λ _. refl) };

    ghost view = { λ h. record { config = h.config; world = h.world.value; journal = h.journal.items } };

    ghost invariant = { λ h. IsReplay (record {
      config = h.config;
      world = h.world.value;
      journal =
          h.journal.items;
    }) × IsSound h.world.value
        × HasRoomForStops h.world.value.members h.running (vec_len h.journal) (vec_capacity h.journal) };
}

impl PartialEq for Hall {
    ghost eq = { eq_of_both (on (λ h. h.config) ⟦<Config as PartialEq>⟧.eq)
        (eq_of_both (on (λ h. h.world) ⟦<World as PartialEq>⟧.eq)
        (on (λ h. h.journal) (pointwise ⟦<Step as PartialEq>⟧.eq))) };

    ghost laws = { and_per (on_per (λ h. h.config) config.laws-law) (and_per (on_per (λ h. h.world)
        world.laws-law) (on_per (λ h. h.journal) (lists_per step.laws-law))) };

    fn eq(&self, other: &Hall) -> bool {
        self.config == other.config && *self.world == *other.world && self.journal == other.journal
    }
}

impl Hall {
    /// The hall before the first step: the opening world, and no step. `Memory` comes only if an
    /// allocation failed.
    pub fn new(alloc: Global, config: Config) -> Result<Hall, Memory>
        ensures { IfOk result (λ hall. hall ≡ opening_hall config) }
    {
        let world = World::new(alloc, config)?;
        Ok(Hall {
            config,
            world: Box::new(alloc, world)?,
            journal: Vec::new(alloc),
            running: 0,
        })
    }

    /// The configuration that it was made with.
    pub fn config(&self) -> Config
        ensures { result ≡ self.now.config }
    {
        self.config
    }

    /// The world: the one after the journal's steps.
    pub fn world(&self) -> &World
        ensures world { result.now ≡ self.now.world }
        ensures replay { IsReplay self.now }
    {
        &self.world
    }

    /// The steps that were taken, the first first.
    pub fn journal(&self) -> &[Step]
        ensures journal { result.now ≡ self.now.journal }
        ensures replay { IsReplay self.now }
    {
        self.journal.as_slice()
    }

    /// The configuration, the world, and the steps that it took, of a hall that takes no more.
    pub fn into_parts(self) -> (Config, World, Vec<Step>)
        ensures config { result.0 ≡ self.config }
        ensures world { result.1 ≡ self.world }
        ensures journal { result.2.items ≡ self.journal }
        ensures replay { IsReplay self }
    {
        let Hall {
            config,
            world,
            journal,
            ..
        } = self;
        (config, Box::into_inner(world), journal)
    }

    /// Has the world take a step, adds it to the journal, and answers what it did.
    ///
    /// Of the refusals that apply the one with the lowest number is answered, and the hall then equals
    /// what it was. `Memory` comes only if no other applies and an allocation failed; a client's stop needs
    /// no memory, since the journal has room for it from the time when the client joins.
    pub fn take(&mut self, step: Step) -> Result<Effect, Refusal>
        ensures takes { TakesOrRefuses self.old step result self.new }
        ensures replay { IsReplay self.new }
        ensures sound { IsSound self.new.world }
    {
        laws::a_list_may_have_one_more_step();
        laws::a_stop_is_of_a_client_that_runs();
        if let Some(refusal) = self.world.refusal(&step) {
            return Err(refusal);
        }
        let kept = step.copy()?;
        make_room(&mut self.journal, self.running, &kept)?;
        let effect = self.world.take(step)?;
        self.running = running_after(self.running, &kept);
        self.journal.push_reserved(kept);
        Ok(effect)
    }

    /// Has a client answer its call, where the world doesn't refuse that, and adds the step to the journal.
    /// It answers the call's number, and the answer that the client had; the record has a copy of it. After
    /// `Memory` the hall equals what it was.
    pub fn respond(&mut self, client: ClientId) -> Result<(OpId, Returned), Memory>
        requires { refusal_of self.old.world (Step.Respond client) ≡ None }
        ensures takes { IfOk result (λ answer. TakesOrRefuses self.old (Step.Respond client)
            (Ok (Effect.Responded answer.0)) self.new) }
        ensures ready { IfOk result (λ answer. IsReady self.old.world client answer.0 answer.1) }
        ensures err { OnErr result (self.new ≡ self.old) }
        ensures replay { IsReplay self.new }
        ensures sound { IsSound self.new.world }
    {
        laws::a_list_may_have_one_more_step();
        laws::a_stop_is_of_a_client_that_runs();
        let step = Step::Respond { client };
        make_room(&mut self.journal, self.running, &step)?;
        let answer = self.world.respond(client)?;
        self.journal.push_reserved(step);
        Ok(answer)
    }
}

/// Makes room for a step, and after it for the stops of all clients that then run. A client's stop has
/// its room already.
fn make_room(journal: &mut Vec<Step>, running: usize, step: &Step) -> Result<(), Memory>
    requires free { vec_len journal.old + running ≤ vec_capacity journal.old }
    requires runs { stop_count step.now ≤ running }
    ensures items { journal.new.items ≡ journal.old.items }
    ensures len { vec_len journal.new ≡ vec_len journal.old }
    ensures capacity { vec_capacity journal.old ≤ vec_capacity journal.new }
    ensures ok { OnOk result (vec_len journal.new + 1 + (running + join_count step.now)
        ≤ vec_capacity journal.new + stop_count step.now) }
    ensures err { OnErr result (MayWantMemory step.now) }
{
    match step {
        Step::StopClient { .. } => {}
        Step::Join { .. } => journal.reserve(running + 2)?,
        _ => journal.reserve(running + 1)?,
    }
    Ok(())
}

/// How many clients run after a step, where so many did before.
fn running_after(running: usize, step: &Step) -> usize
    requires runs { stop_count step.now ≤ running }
    requires few { running ≤ most_elements }
    ensures { result + stop_count step.now ≡ running + join_count step.now }
{
    match step {
        Step::Join { .. } => running + 1,
        Step::StopClient { .. } => running - 1,
        _ => running,
    }
}
