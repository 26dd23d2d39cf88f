//! A pass to a hall without a client.
ghost use Rattle.std.specs.Prelude.{◌≡◌, ◌↔◌, false, Ok, Err, None, Some, IfOk, IfErr, OnOk, OnErr, IsTrue, [], ℕ};
ghost use Rattle.std.specs.Fn.{FnOnceReturnsAt};
ghost use Rattle.std.specs.Option.{option_copied};
ghost use Rattle.network.specs.declared.messages.Message.{Message};
ghost use Rattle.network.specs.Flights.{message_of};
ghost use Rattle.recorder.specs.declared.row.Row.{Row};
ghost use Rattle.world_steps.specs.Lasting.{Grows};
ghost use Rattle.world_steps.specs.SoundSystems.{IsSound};
ghost use Rattle.world_steps.specs.declared.effect.Effect.TheVariants as effect;
ghost use Rattle.world_steps.specs.declared.step.Step.TheVariants as event;
ghost use Rattle.hall_journal.specs.Halls.{IsReplay, TakesOrRefuses};
ghost use Rattle.hall_lock.specs.Turns.{AddsOwnRows, AreRecorded, DeliversFlight, HasNoCall, IsCopied};
ghost use Rattle.hall_lock.specs.Turns.{IsStepOfNoClient, IsToReplica, IsTold, RefusesJoin, ServesFlight, ServesStep};

use crate::client_pass::ClientPass;
use crate::door::{Door, take_in};
use hall_journal::Hall;
use network::Message;
use recorder::History;
use std::alloc::Global;
use std::marker::Model;
use std::sync::Wait;
use tag::{ClientId, Memory, ReplicaId};
use world_steps::{Config, Effect, Refusal, Step, World};

/// A pass to a hall that has no client, and so adds no row. A contract sees the rows that it has seen.
#[derive(Drop)]
pub struct FreePass {
    door: Door,
}

impl Model for FreePass {
    ghost use Rattle.std.specs.Prelude.{◌≡◌, List};
    ghost use Rattle.recorder.specs.declared.row.Row.{Row};
    ghost use Rattle.hall_lock.specs.Turns.{AreRecorded, guest};

    ghost Value = { List Row };

    ghost view = { λ p. p.door.rows };

    ghost invariant = { λ p. (p.door ≡ guest p.door.rows) × AreRecorded p.door.rows };
}

impl FreePass {
    /// The first pass to a new hall, which lies in its channel from now on. `Memory` comes only if an
    /// allocation failed.
    pub fn open(rt: &impl Wait, alloc: Global, config: Config) -> Result<FreePass, Memory>
        ensures { IfOk result (λ pass. pass ≡ []) }
    {
        let hall = Hall::new(alloc, config)?;
        let mut door = Door::new(alloc)?;
        door.give_back(rt, hall);
        Ok(FreePass { door })
    }

    /// Another pass to the same hall. `Memory` comes only if an allocation failed.
    pub fn another(&mut self) -> Result<FreePass, Memory>
        ensures same { self.new ≡ self.old }
        ensures ok { IfOk result (λ pass. pass ≡ self.old) }
    {
        let door = self.door.guest()?;
        Ok(FreePass { door })
    }

    /// One turn: the hall takes a step that names no client.
    pub fn take(&mut self, rt: &impl Wait, step: Step) -> Result<Effect, Refusal>
        requires free { IsStepOfNoClient step }
        ensures { ServesStep self.old step result self.new }
    {
        self.door.take(rt, step)
    }

    /// One turn: a request comes to the replica, where the flight is a request to it. The number of
    /// the flight that carries the reply. `NotInFlight`, and the hall as it was, where it is none.
    pub fn deliver(
        &mut self,
        rt: &impl Wait,
        replica: ReplicaId,
        flight: u32,
    ) -> Result<u32, Refusal>
        ensures served { IfOk result (λ reply.
            ServesFlight self.old replica flight (Ok (effect.Answered reply)) self.new) }
        ensures refused { IfErr result (λ why.
            ServesFlight self.old replica flight (Err why) self.new) }
    {
        let mut hall = self.door.receive(rt);
        let served = serve_in(&mut hall, replica, flight);
        self.door.give_back(rt, hall);
        served
    }

    /// One turn: a copy of the record.
    pub fn history(&mut self, rt: &impl Wait) -> Result<History, Memory>
        ensures copied { IfOk result (λ history. IsCopied self.old history) }
        ensures seen { Grows self.old self.new }
    {
        self.look(
            rt,
            |world| -> Result<History, Memory>
                ensures { IfOk result (λ history. history ≡ world.now.history) }
            { world.history().copy() },
        )
    }

    /// One turn, in which `look` is lent the hall's world; the hall waits for it.
    pub fn look<T, F: FnOnce(&World) -> T>(&mut self, rt: &impl Wait, look: F) -> T
        requires { F.IsAlwaysCallable look }
        ensures told { IsTold self.old (λ s. FnOnceReturnsAt F.FnOnce look s result) }
        ensures seen { Grows self.old self.new }
    {
        let hall = self.door.receive(rt);
        let told = look(hall.world());
        self.door.give_back(rt, hall);
        told
    }

    /// One turn: the client joins, and has this pass from now on; or the hall refuses that.
    pub fn join(self, rt: &impl Wait, client: ClientId) -> Result<ClientPass, Refusal>
        ensures client { IfOk result (λ pass. pass.client ≡ client) }
        ensures running { IfOk result (λ pass. pass.is_stopped ≡ false) }
        ensures rows { IfOk result (λ pass. Grows self pass.rows × HasNoCall client pass.rows) }
        ensures why { IfErr result (λ why. RefusesJoin self client why) }
    {
        let FreePass { mut door } = self;
        let mut hall = door.receive(rt);
        match join_in(&mut hall, client) {
            Ok(()) => {
                door.give_named(rt, hall, client);
                Ok(ClientPass::new(client, door))
            }
            Err(refusal) => {
                door.give_back(rt, hall);
                Err(refusal)
            }
        }
    }

    /// Receives the hall for good: whoever else has a pass to it waits from now on.
    pub fn into_hall(self, rt: &impl Wait) -> Hall
        ensures rows { Grows self result.world.history.rows }
    {
        let FreePass { mut door } = self;
        door.receive(rt)
    }
}

/// Has the hall take the delivery, where the flight is for the replica.
fn serve_in(hall: &mut Hall, replica: ReplicaId, flight: u32) -> Result<u32, Refusal>
    ensures served { IfOk result (λ reply.
        TakesOrRefuses hall.old (event.Deliver flight) (Ok (effect.Answered reply)) hall.new
        × IsToReplica replica (message_of hall.old.world.pool.flights flight)) }
    ensures refused { OnErr result (hall.new ≡ hall.old) }
    ensures why { IfErr result (λ why.
        DeliversFlight (IsToReplica replica) hall.old flight (Err why) hall.new) }
    ensures adds { OnOk result (AddsOwnRows None hall.old.world hall.new.world) }
{
    if !is_to(hall.world().pool().look(flight), replica) {
        return Err(Refusal::NotInFlight);
    }
    match take_in(hall, Step::Deliver { flight }) {
        Ok(Effect::Answered(reply)) => Ok(reply),
        Ok(_) => unreachable!(),
        Err(refusal) => Err(refusal),
    }
}

/// Whether the message is for the replica.
fn is_to(message: Option<&Message>, replica: ReplicaId) -> bool
    ensures { IsTrue result ↔ IsToReplica replica (option_copied message.entry) }
{
    match message {
        Some(Message::ToReplica(number, _)) => *number == replica,
        _ => false,
    }
}

/// Has the hall take the client in.
fn join_in(hall: &mut Hall, client: ClientId) -> Result<(), Refusal>
    ensures joined { OnOk result (TakesOrRefuses hall.old (event.Join client) (Ok effect.Joined) hall.new) }
    ensures refused { OnErr result (hall.new ≡ hall.old) }
    ensures why { IfErr result (λ why.
        TakesOrRefuses hall.old (event.Join client) (Err why) hall.new) }
    ensures adds { OnOk result (AddsOwnRows (Some client) hall.old.world hall.new.world) }
{
    match take_in(hall, Step::Join { client }) {
        Ok(_) => Ok(()),
        Err(refusal) => Err(refusal),
    }
}
