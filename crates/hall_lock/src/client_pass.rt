//! A client's pass to a hall.
ghost use Rattle.std.specs.Prelude.{◌≡◌, ◌≤◌, ◌↔◌, true, Result, Ok, Err, Some, None, IfOk, IfErr};
ghost use Rattle.std.specs.Prelude.{IfSome, OnErr, OnOk, IsTrue, length, ℕ};
ghost use Rattle.std.specs.Option.{option_copied};
ghost use Rattle.network.specs.Flights.{message_of};
ghost use Rattle.recorder.specs.declared.row.Row.TheVariants as row;
ghost use Rattle.world_steps.specs.Lasting.{HasStopped};
ghost use Rattle.world_steps.specs.Moves.{IsReady};
ghost use Rattle.world_steps.specs.Refusals.{refusal_of};
ghost use Rattle.world_steps.specs.declared.effect.Effect.{Effect};
ghost use Rattle.world_steps.specs.declared.effect.Effect.TheVariants as effect;
ghost use Rattle.world_steps.specs.declared.refusal.Refusal.{Refusal};
ghost use Rattle.world_steps.specs.declared.step.Step.TheVariants as event;
ghost use Rattle.hall_journal.specs.Halls.{TakesOrRefuses, most_elements};
ghost use Rattle.hall_lock.specs.Turns.{AddsOwnRows, AddsRow, AreRecorded, DeliversFlight, HoldsBack, IsDelayed};
ghost use Rattle.hall_lock.specs.Turns.{AddsNoRow, IsQuiet, IsStepOfClient, IsToClient, LooksAt};
ghost use Rattle.hall_lock.specs.Turns.{StandsIn, StaysStopped, TakesFlight, TakesReply, TakesTurn};
ghost use Rattle.hall_lock.specs.Turns.{seat};

use crate::door::{Door, answer_in, take_in};
use client_phases::{Phase, Taken};
use hall_journal::Hall;
use network::Message;
use quorum::ReplicaSet;
use std::fmt;
use std::marker::Model;
use std::sync::Wait;
use tag::{Action, ClientId, Key, Memory, OpId, Returned};
use world_steps::{Effect, Refusal, Step, World};

/// The pass of a client to a hall. No other pass has this client: rows of its calls come by this one
/// alone.
#[derive(Drop)]
pub struct ClientPass {
    client: ClientId,
    door: Door,
}

impl Model for ClientPass {
    ghost use Rattle.std.specs.Prelude.{◌≡◌};
    ghost use Rattle.hall_lock.specs.Turns.{AreRecorded, ClientView, seat};

    ghost Value = { ClientView };

    ghost view = { λ p. record { client = p.client; rows = p.door.rows; is_stopped = p.door.is_stopped } };

    ghost invariant = { λ p. (p.door ≡ seat p.client p.door.rows p.door.is_stopped) × AreRecorded p.door.rows };
}

impl fmt::Debug for ClientPass {
    fn fmt<W: fmt::Write>(&self, f: &mut fmt::Formatter<W>) -> fmt::Result {
        f.debug_struct("ClientPass")
            .field("client", &self.client)
            .finish_non_exhaustive()
    }
}

/// A call that began.
#[derive(Clone, Copy, Debug, PartialEq, Eq)]
pub struct Begun {
    /// Its number in the hall's record.
    pub op: OpId,
    /// The place of its invocation there.
    pub place: usize,
}

/// A call that was answered.
#[derive(Debug, Drop)]
pub struct Ended {
    /// Its number in the hall's record.
    pub op: OpId,
    /// The place of its response there.
    pub place: usize,
    /// Its answer, which the client had.
    pub returned: Returned,
    /// A copy of its answer, made before the response was taken: nothing is refused after that.
    pub copy: Returned,
}

/// Where a client stands.
#[derive(Clone, Copy, Debug)]
pub struct Standing {
    /// Its phase; stopped, where it isn't in the world.
    pub phase: Phase,
    /// The replicas that it counted in this phase.
    pub counted: ReplicaSet,
}

/// Why a call didn't begin.
#[derive(Clone, Copy, Debug, PartialEq, Eq)]
pub enum Delay {
    /// The record has fewer rows than were said to be seen.
    Foreign,
    /// The world refused it.
    Refused(Refusal),
}

impl ClientPass {
    /// The pass of the client that this door's pass has.
    pub(crate) fn new(client: ClientId, door: Door) -> ClientPass
        requires seat { door ≡ seat client door.rows door.is_stopped }
        requires recorded { AreRecorded door.rows }
        ensures { result ≡ record {
          client = client;
          rows = door.rows;
          is_stopped = door.is_stopped;
        } }
    {
        ClientPass { client, door }
    }

    /// The client.
    pub fn client(&self) -> ClientId
        ensures client { result ≡ self.now.client }
        ensures recorded { AreRecorded self.now.rows }
    {
        self.client
    }

    /// One turn: the hall takes a step of this client that adds no row.
    pub fn take(&mut self, rt: &impl Wait, step: Step) -> Result<Effect, Refusal>
        requires may { IsStepOfClient self.old.client step }
        requires quiet { IsQuiet step }
        ensures turned { TakesTurn self.old step result self.new }
        ensures no_row { AddsNoRow self.old self.new }
        ensures stays { StaysStopped self.old self.new }
        ensures recorded { AreRecorded self.new.rows }
    {
        self.door.take(rt, step)
    }

    /// One turn: the client stops for good, where it hasn't yet. Nothing refuses that for memory.
    pub fn stop(&mut self, rt: &impl Wait)
        ensures turned { (result : Result Effect Refusal)
            × TakesTurn self.old (event.StopClient self.old.client) result self.new }
        ensures no_row { AddsNoRow self.old self.new }
        ensures stopped { self.new.is_stopped ≡ true }
        ensures recorded { AreRecorded self.new.rows }
    {
        let client = self.client;
        let _ = self.door.take(rt, Step::StopClient { client });
    }
}

impl ClientPass {
    /// One turn: where the client stands. Once it was seen stopped it stands stopped.
    pub fn standing(&mut self, rt: &impl Wait) -> Standing
        ensures no_row { AddsNoRow self.old self.new }
        ensures told { LooksAt self.old
            (StandsIn self.old.client result.phase result.counted) self.new }
        ensures stopped { self.old.is_stopped ≡ true → result.phase ≡ Phase.Stopped }
        ensures stays { StaysStopped self.old self.new }
        ensures recorded { AreRecorded self.new.rows }
    {
        let hall = self.door.receive(rt);
        let standing = standing_in(hall.world(), self.client);
        self.door.give_back(rt, hall);
        standing
    }

    /// One turn: the client's call begins, where the record has as many rows as were seen.
    pub fn invoke(
        &mut self,
        rt: &impl Wait,
        key: Key,
        action: Action,
        seen: usize,
    ) -> Result<Begun, Delay>
        ensures begun { IfOk result (λ begun. AddsRow self.old
            (row.Invoke begun.op self.old.client key action) begun.place self.new) }
        ensures seen { IfOk result (λ begun. seen ≤ begun.place) }
        ensures few { IfOk result (λ begun. begun.place ≤ most_elements) }
        ensures turned { IfOk result (λ begun.
            TakesTurn self.old (event.Invoke self.old.client key action)
            (Ok (effect.Invoked begun.op)) self.new) }
        ensures why { IfErr result (λ delay. IsDelayed self.old
            (event.Invoke self.old.client key action) seen delay self.new) }
        ensures delayed { OnErr result (AddsNoRow self.old self.new) }
        ensures stays { StaysStopped self.old self.new }
        ensures recorded { AreRecorded self.new.rows }
    {
        let mut hall = self.door.receive(rt);
        let begun = begin_in(&mut hall, self.client, key, action, seen);
        self.door.give_back(rt, hall);
        begun
    }

    /// One turn: a reply comes to the client, where the flight is a reply to it. `NotInFlight`, and
    /// the hall as it was, where it is none.
    pub fn deliver(&mut self, rt: &impl Wait, flight: u32) -> Result<Taken, Refusal>
        ensures delivered { IfOk result (λ taken.
            TakesFlight self.old flight (Ok (effect.Taken taken)) self.new) }
        ensures kept { IfErr result (λ why. TakesFlight self.old flight (Err why) self.new) }
        ensures took { TakesReply self.old self.new }
        ensures refused { OnErr result (AddsNoRow self.old self.new) }
        ensures stays { StaysStopped self.old self.new }
        ensures recorded { AreRecorded self.new.rows }
    {
        let mut hall = self.door.receive(rt);
        let taken = deliver_in(&mut hall, self.client, flight);
        self.door.give_back(rt, hall);
        taken
    }

    /// One turn: the client's call is answered, where it is ready.
    pub fn respond(&mut self, rt: &impl Wait) -> Result<Ended, Refusal>
        ensures copy { IfOk result (λ ended. ended.copy ≡ ended.returned) }
        ensures few { IfOk result (λ ended. ended.place ≤ most_elements) }
        ensures ended { IfOk result (λ ended. AddsRow self.old
            (row.Respond ended.op ended.returned) ended.place self.new) }
        ensures turned { IfOk result (λ ended.
            TakesTurn self.old (event.Respond self.old.client)
            (Ok (effect.Responded ended.op)) self.new) }
        ensures why { IfErr result (λ why.
            TakesTurn self.old (event.Respond self.old.client) (Err why) self.new) }
        ensures refused { OnErr result (AddsNoRow self.old self.new) }
        ensures stays { StaysStopped self.old self.new }
        ensures recorded { AreRecorded self.new.rows }
    {
        let mut hall = self.door.receive(rt);
        let ended = respond_in(&mut hall, self.client);
        self.door.give_back(rt, hall);
        ended
    }
}

/// Has the hall take the invocation, where it has as many rows as were seen.
fn begin_in(
    hall: &mut Hall,
    client: ClientId,
    key: Key,
    action: Action,
    seen: usize,
) -> Result<Begun, Delay>
    ensures began { IfOk result (λ begun. TakesOrRefuses hall.old (event.Invoke client key action)
        (Ok (effect.Invoked begun.op)) hall.new) }
    ensures place { IfOk result (λ begun.
        (length hall.old.world.history.rows ≡ begun.place) × (seen ≤ begun.place)) }
    ensures few { IfOk result (λ begun. begun.place ≤ most_elements) }
    ensures why { IfErr result (λ delay.
        HoldsBack hall.old (event.Invoke client key action) seen delay hall.new) }
    ensures delayed { OnErr result (hall.new ≡ hall.old) }
    ensures adds { OnOk result (AddsOwnRows (Some client) hall.old.world hall.new.world) }
{
    let place = next_place(hall);
    if place < seen {
        return Err(Delay::Foreign);
    }
    match take_in(
        hall,
        Step::Invoke {
            client,
            key,
            action,
        },
    ) {
        Ok(Effect::Invoked(op)) => Ok(Begun { op, place }),
        Ok(_) => unreachable!(),
        Err(refusal) => Err(Delay::Refused(refusal)),
    }
}

/// The place of the row that comes next.
fn next_place(hall: &Hall) -> usize
    ensures place { result ≡ length hall.now.world.history.rows }
    ensures few { result ≤ most_elements }
{
    hall.world().history().row_count()
}

/// Has the hall take the delivery, where the flight is for the client.
fn deliver_in(hall: &mut Hall, client: ClientId, flight: u32) -> Result<Taken, Refusal>
    ensures took { IfOk result (λ taken.
        TakesOrRefuses hall.old (event.Deliver flight) (Ok (effect.Taken taken)) hall.new
        × IsToClient client (message_of hall.old.world.pool.flights flight)) }
    ensures refused { OnErr result (hall.new ≡ hall.old) }
    ensures why { IfErr result (λ why.
        DeliversFlight (IsToClient client) hall.old flight (Err why) hall.new) }
    ensures adds { OnOk result (AddsOwnRows (Some client) hall.old.world hall.new.world) }
{
    if !is_for(hall.world().pool().look(flight), client) {
        return Err(Refusal::NotInFlight);
    }
    match take_in(hall, Step::Deliver { flight }) {
        Ok(Effect::Taken(taken)) => Ok(taken),
        Ok(_) => unreachable!(),
        Err(refusal) => Err(refusal),
    }
}

/// Whether the message is for the client.
fn is_for(message: Option<&Message>, client: ClientId) -> bool
    ensures { IsTrue result ↔ IsToClient client (option_copied message.entry) }
{
    match message {
        Some(Message::ToClient(name, _)) => *name == client,
        _ => false,
    }
}

/// Has the hall take the response, where the client is ready.
fn respond_in(hall: &mut Hall, client: ClientId) -> Result<Ended, Refusal>
    ensures took { IfOk result (λ ended. TakesOrRefuses hall.old (event.Respond client)
        (Ok (effect.Responded ended.op)) hall.new) }
    ensures why { IfErr result (λ why.
        TakesOrRefuses hall.old (event.Respond client) (Err why) hall.new) }
    ensures answer { IfOk result (λ ended. IsReady hall.old.world client ended.op ended.returned) }
    ensures place { IfOk result (λ ended. length hall.old.world.history.rows ≡ ended.place) }
    ensures copy { IfOk result (λ ended. ended.copy ≡ ended.returned) }
    ensures few { IfOk result (λ ended. ended.place ≤ most_elements) }
    ensures refused { OnErr result (hall.new ≡ hall.old) }
    ensures adds { OnOk result (AddsOwnRows (Some client) hall.old.world hall.new.world) }
{
    if let Some(refusal) = hall.world().refusal(&Step::Respond { client }) {
        return Err(refusal);
    }
    let place = next_place(hall);
    let copy = copy_in(hall.world(), client)?;
    let (op, returned) = answer_in(hall, client)?;
    Ok(Ended {
        op,
        place,
        returned,
        copy,
    })
}

/// A copy of the client's answer: the client is ready.
fn copy_in(world: &World, client: ClientId) -> Result<Returned, Memory>
    requires { refusal_of world.now (event.Respond client) ≡ None }
    ensures { IfOk result (λ copy. (op : OpId) (returned : Returned)
        → IsReady world.now client op returned → copy ≡ returned) }
{
    let Some(state) = world.client(client) else {
        unreachable!()
    };
    match state.answer()? {
        Some(copy) => Ok(copy),
        None => unreachable!(),
    }
}

/// Where the client stands.
fn standing_in(world: &World, client: ClientId) -> Standing
    ensures stands { StandsIn client result.phase result.counted world.now }
    ensures stopped { HasStopped world.now client → result.phase ≡ Phase.Stopped }
{
    match world.client(client) {
        Some(state) => Standing {
            phase: state.phase(),
            counted: state.counted(),
        },
        None => Standing {
            phase: Phase::Stopped,
            counted: ReplicaSet::empty(),
        },
    }
}
