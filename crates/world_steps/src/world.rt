//! Worlds.
ghost use Rattle.std.specs.Prelude.{◌≡◌, IfOk, List, None, Ok, OnErr, ℕ, false, option_map, slice_get};
ghost use Rattle.std.specs.Option.{option_copied, option_map_or};
ghost use Rattle.std.specs.FinMap as finite;
ghost use Rattle.recorder.specs.Records.{IsPart};
ghost use Rattle.recorder.specs.Sound.{TagSound};
ghost use Rattle.recorder.specs.declared.part.Call.{Call};
ghost use Rattle.world_steps.specs.Moves.{IsReady, Moves};
ghost use Rattle.world_steps.specs.Refusals.{refusal_of};
ghost use Rattle.world_steps.specs.Runs.{Steps};
ghost use Rattle.world_steps.specs.SoundSystems.{IsSound};
ghost use Rattle.world_steps.specs.Systems.{opening};
ghost use Rattle.world_steps.specs.contracts.system.SystemPartialEq.TheImpl.Laws as system;

use crate::system::System;
use crate::{Config, Effect, Refusal, Step};
use client_phases::Client;
use network::Pool;
use recorder::History;
use replica::Replica;
use std::alloc::Global;
use std::marker::Model;
use tag::{ClientId, Memory, OpId, ReplicaId, Returned};

/// Clients, replicas, the network between them and the record, as steps from an opening world left
/// them.
///
/// Every world that exists is sound: tags come from notes, replicas' tags never fall, what is said to
/// be kept is stored, a put quorum holds each completed call, and what is told carries what precedes.
#[derive(Debug, Drop)]
pub struct World {
    system: System,
}

impl Model for World {
    ghost use Rattle.world_steps.specs.contracts.system.System as whole;
    ghost use Rattle.world_steps.specs.SoundSystems.{IsSound};
    ghost use Rattle.world_steps.specs.declared.system.System.{System};

    ghost Value = { System };

    ghost coded = { whole.the_row.coded };

    ghost view = { λ w. w.system };

    ghost invariant = { λ w. IsSound w.system };
}

impl PartialEq for World {
    ghost eq = { ⟦<System as PartialEq>⟧.eq };

    ghost laws = { system.laws-law };

    fn eq(&self, other: &World) -> bool {
        self.system == other.system
    }
}

impl World {
    /// The world before the first step: nobody joined, all replicas are up and empty, nothing was sent
    /// or recorded. `Memory` comes only if an allocation was refused.
    pub fn new(alloc: Global, config: Config) -> Result<World, Memory>
        ensures opening { IfOk result (λ world. world ≡ opening config) }
        ensures sound { IfOk result (λ world. IsSound world) }
    {
        let system = System::new(alloc, config)?;
        Ok(World { system })
    }

    /// Takes a step, and answers what it did.
    ///
    /// Of the refusals that apply the one with the lowest number is answered, and the world then
    /// equals what it was. `Memory` comes only if no other applies and an allocation was refused; the
    /// steps `Lose`, `Repeat`, `StopClient`, `StopReplica` and `StartReplica` take no memory.
    pub fn step(&mut self, step: Step) -> Result<Effect, Refusal>
        ensures step { Steps self.old step result self.new }
        ensures sound { IsSound self.new }
    {
        if let Some(refusal) = self.system.refusal(&step) {
            return Err(refusal);
        }
        Ok(self.take(step)?)
    }

    /// Takes a step that nothing refuses, which `refusal` tells, and answers what it did. After `Memory`
    /// the world equals what it was.
    pub fn take(&mut self, step: Step) -> Result<Effect, Memory>
        requires { refusal_of self.old step ≡ None }
        ensures moves { Moves self.old step result self.new }
        ensures sound { IsSound self.new }
    {
        self.system.apply(step)
    }

    /// Has a client answer its call, where nothing refuses that step. It answers the call's number, and
    /// the answer that the client had; the record has a copy of it. After `Memory` the world equals what it
    /// was.
    pub fn respond(&mut self, client: ClientId) -> Result<(OpId, Returned), Memory>
        requires { refusal_of self.old (Step.Respond client) ≡ None }
        ensures moves { IfOk result (λ answer. Moves self.old (Step.Respond client)
            (Ok (Effect.Responded answer.0)) self.new) }
        ensures ready { IfOk result (λ answer. IsReady self.old client answer.0 answer.1) }
        ensures err { OnErr result (self.new ≡ self.old) }
        ensures sound { IsSound self.new }
    {
        self.system.respond(client)
    }

    /// Why the step would be refused now, other than for memory.
    pub fn refusal(&self, step: &Step) -> Option<Refusal>
        ensures { result ≡ refusal_of self.now step.now }
    {
        self.system.refusal(step)
    }

    /// The configuration that it was made with.
    pub fn config(&self) -> Config
        ensures config { result ≡ self.now.config }
        ensures world { IsSound self.now }
    {
        self.system.config
    }

    /// The record. The tags of each of its parts are sound.
    pub fn history(&self) -> &History
        ensures history { result.now ≡ self.now.history }
        ensures world { IsSound self.now }
        ensures parts { (key : List ℕ) (part : List Call) → IsPart self.now.history.rows key part
            → TagSound part }
    {
        &self.system.history
    }

    /// The record, of a world that isn't needed any more. The tags of each of its parts are sound.
    pub fn into_history(self) -> History
        ensures history { result ≡ self.history }
        ensures parts { (key : List ℕ) (part : List Call) → IsPart self.history.rows key part
            → TagSound part }
    {
        let World { system } = self;
        system.history
    }

    /// The replica of that number, if there is one.
    pub fn replica(&self, number: ReplicaId) -> Option<&Replica>
        ensures { option_copied result ≡ option_map
            (λ node. node.replica) (slice_get self.now.nodes number) }
    {
        match self.system.nodes.get(number) {
            Some(node) => Some(&node.replica),
            None => None,
        }
    }

    /// Whether the replica of that number is up; a replica that isn't there is not.
    pub fn is_up(&self, number: ReplicaId) -> bool
        ensures { result ≡ option_map_or
            (λ node. node.is_up) (slice_get self.now.nodes number) false }
    {
        match self.system.nodes.get(number) {
            Some(node) => node.is_up,
            None => false,
        }
    }

    /// The client of that name, if it joined.
    pub fn client(&self, name: ClientId) -> Option<&Client>
        ensures { option_copied result ≡ finite.get self.now.members.clients name }
    {
        self.system.members.get(name)
    }

    /// The network.
    pub fn pool(&self) -> &Pool
        ensures { result.now ≡ self.now.pool }
    {
        &self.system.pool
    }

    /// The names that joined, stopped ones included, in the order in which they joined.
    pub fn joined(&self) -> &[ClientId]
        ensures { result.now ≡ self.now.members.joined }
    {
        self.system.members.joined()
    }
}
