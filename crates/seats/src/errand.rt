//! One call in progress: what its client sends, and what it hears.
ghost use Rattle.std.specs.Prelude.{◌≡◌, ◌≤◌, ℕ, true, Result, Ok, Err};
ghost use Rattle.std.specs.Prelude.{IfOk, IfErr, OnOk, OnErr, length};
ghost use Rattle.tag.specs.Limits.{replica_limit};
ghost use Rattle.client_phases.specs.declared.outcomes.Phase.{Phase};
ghost use Rattle.seats.specs.declared.errand.Stall.{Stall};
ghost use Rattle.hall_lock.specs.Halls.{most_elements};
ghost use Rattle.hall_lock.specs.Turns.{IsQuiet, IsStepOfClient, LooksAt, StandsIn, TakesTurn};
ghost use Rattle.world_steps.specs.declared.effect.Effect.TheVariants as effect;
ghost use Rattle.world_steps.specs.declared.refusal.Refusal.{Refusal};
ghost use Rattle.world_steps.specs.declared.step.Step.TheVariants as event;
ghost use Rattle.seats.specs.Calls.{EndsCall, KeepsLog};
ghost use Rattle.seats.specs.Outcomes.{CallComesTo, IsPlaced};
ghost use Rattle.seats.specs.Reasons.{IsUnmet, Stalls, delay_error, stall_error, stall_of};
ghost use Rattle.seats.specs.Parcels.{RequestMeetsGate, HearsReport, IsDelivery, SendsRequest};
ghost use Rattle.seats.specs.Rounds.{AsksReplica, AsksReplicas, Reach};

use crate::errors::CallError;
use crate::gate::{Gate, Pass, Place};
use crate::patience::next_message;
use crate::replicas::{Parcel, Report};
use crate::transport::Transport;
use client_phases::{Phase, Taken};
use crossbeam_channel::{SendError, Sender};
use hall_lock::{Begun, ClientPass, Delay, Ended};
use quorum::ReplicaSet;
use std::alloc::AllocError;
use std::sync::Wait;
use tag::{Action, Key, OpId, ReplicaId};
use world_steps::{Effect, Refusal, Step};

/// A call in progress.
#[derive(Drop)]
struct Errand<'a, G> {
    transport: &'a Transport<'a, G>,
    call: OpId,
}

/// What became of a call.
pub(crate) enum Outcome {
    /// It didn't begin.
    Refused(CallError),
    /// It began, and isn't answered.
    Pending(Begun, CallError),
    /// It was answered.
    Done(Begun, Ended),
}

/// Why a call that began isn't answered.
#[derive(Clone, Copy, Debug, PartialEq, Eq)]
pub(crate) enum Stall {
    /// The rounds of a phase ran out, or the world refused a step otherwise.
    Unavailable,
    /// The thread of a replica has ended.
    Gone,
    /// As many messages were sent as may be.
    Full,
    /// An allocation failed.
    Memory,
}

impl<'a, G: Gate> Transport<'a, G> {
    /// Makes a call of the pass's client, which has seen so many rows.
    pub(crate) fn make_call<R: Wait>(
        &self,
        rt: &R,
        pass: &mut ClientPass,
        key: Key,
        action: Action,
        seen: usize,
    ) -> Outcome
        ensures outcome { CallComesTo pass.old key action seen (record {
          replicas = length self.now.replicas.now;
          rounds = self.now.rounds;
        }) result pass.new }
        ensures placed { IsPlaced result }
    {
        let begun = match pass.invoke(rt, key, action, seen) {
            Ok(begun) => begun,
            Err(delay) => return Outcome::Refused(told_delay(delay)),
        };
        let errand = Errand {
            transport: self,
            call: begun.op,
        };
        match errand.finish(rt, pass) {
            Ok(ended) => Outcome::Done(begun, ended),
            Err(stall) => {
                stop(rt, pass);
                Outcome::Pending(begun, told_pending(stall))
            }
        }
    }
}

impl<'a, G: Gate> Errand<'a, G> {
    /// Carries the call to its end.
    fn finish<R: Wait>(&self, rt: &R, pass: &mut ClientPass) -> Result<Ended, Stall>
        ensures ended { IfOk result (λ ended.
            EndsCall pass.old ended.op ended.returned ended.place pass.new) }
        ensures placed { IfOk result (λ ended.
            (ended.place ≤ most_elements) × (ended.copy ≡ ended.returned)) }
        ensures failed { OnErr result (KeepsLog pass.old pass.new) }
        ensures stalled { IfErr result (λ stall. Stalls (record {
          replicas = length self.now.transport.now.replicas.now;
          rounds = self.now.transport.now.rounds;
        })
            pass.old stall pass.new) }
    {
        self.make_ready(rt, pass)?;
        let place = Place::Respond {
            hall: self.transport.hall,
            call: self.call,
        };
        let _ = self.transport.gate.at(&place);
        match pass.respond(rt) {
            Ok(ended) => Ok(ended),
            Err(refusal) => Err(stall_of(refusal)),
        }
    }

    /// Has the client ask, and then put where it has to.
    fn make_ready<R: Wait>(&self, rt: &R, pass: &mut ClientPass) -> Result<(), Stall>
        ensures kept { KeepsLog pass.old pass.new }
        ensures stalled { IfErr result (λ stall. Stalls (record {
          replicas = length self.now.transport.now.replicas.now;
          rounds = self.now.transport.now.rounds;
        })
            pass.old stall pass.new) }
    {
        let mut awaited = 0;
        match self.leave(rt, pass, &mut awaited)? {
            Phase::Put => match self.leave(rt, pass, &mut awaited) {
                Ok(_) => Ok(()),
                Err(error) => Err(error),
            },
            _ => Ok(()),
        }
    }

    /// Makes rounds until the phase is over, which has just begun. The phase that follows it.
    fn leave<R: Wait>(
        &self,
        rt: &R,
        pass: &mut ClientPass,
        awaited: &mut u64,
    ) -> Result<Phase, Stall>
        ensures kept { KeepsLog pass.old pass.new }
        ensures stalled { IfErr result (λ stall. Stalls (record {
          replicas = length self.now.transport.now.replicas.now;
          rounds = self.now.transport.now.rounds;
        })
            pass.old stall pass.new) }
    {
        let mut counted = ReplicaSet::empty();
        for _ in 0..self.transport.rounds {
            self.send_round(rt, pass, awaited, counted)?;
            if let Some(next) = self.hear_round(rt, pass, awaited)? {
                return Ok(next);
            }
            counted = counted_by(rt, pass);
        }
        Err(Stall::Unavailable)
    }

    /// Sends the client's request to each replica that it didn't count.
    fn send_round<R: Wait>(
        &self,
        rt: &R,
        pass: &mut ClientPass,
        awaited: &mut u64,
        counted: ReplicaSet,
    ) -> Result<(), Stall>
        ensures kept { KeepsLog pass.old pass.new }
        ensures asked { OnOk result (AsksReplicas (length self.now.transport.now.replicas.now)
            counted pass.old replica_limit pass.new) }
        ensures stalled { IfErr result (λ stall. Stalls (record {
          replicas = length self.now.transport.now.replicas.now;
          rounds = self.now.transport.now.rounds;
        })
            pass.old stall pass.new) }
    {
        for number in 0..15 {
            let Some(replica) = ReplicaId::new(number) else {
                unreachable!()
            };
            if !counted.contains(replica) {
                self.send(rt, pass, awaited, replica)?;
            }
        }
        Ok(())
    }

    /// Sends the client's request to a replica, where there is one of that number, as the gate says.
    fn send<R: Wait>(
        &self,
        rt: &R,
        pass: &mut ClientPass,
        awaited: &mut u64,
        replica: ReplicaId,
    ) -> Result<(), Stall>
        ensures kept { KeepsLog pass.old pass.new }
        ensures sent { SendsRequest (G.answers self.now.transport.now.gate.now)
            (length self.now.transport.now.replicas.now) self.now.transport.now.hall
            self.now.call pass.old replica pass.new }
        ensures asked { OnOk result (AsksReplica
            (length self.now.transport.now.replicas.now) pass.old replica pass.new) }
        ensures stalled { IfErr result (λ stall. Stalls (record {
          replicas = length self.now.transport.now.replicas.now;
          rounds = self.now.transport.now.rounds;
        })
            pass.old stall pass.new) }
    {
        let Some(channel) = self.transport.replicas.get(usize::from(replica.get())) else {
            return Ok(());
        };
        let flight = match send_flight(rt, pass, replica) {
            Ok(flight) => flight,
            Err(refusal) => return Err(stall_of(refusal)),
        };
        let place = Place::Request {
            hall: self.transport.hall,
            call: self.call,
            replica,
        };
        let parcels = parcels_of(rt, pass, self.transport.gate.at(&place), flight);
        self.post_all(rt, channel, awaited, flight, parcels)
    }

    /// Posts so many parcels of a flight.
    fn post_all<R: Wait>(
        &self,
        rt: &R,
        channel: &Sender<Parcel>,
        awaited: &mut u64,
        flight: u32,
        parcels: u64,
    ) -> Result<(), Stall>
        ensures { IfErr result IsUnmet }
    {
        for _ in 0..parcels {
            self.post(rt, channel, awaited, flight)?;
        }
        Ok(())
    }

    /// Posts a parcel of a flight.
    fn post<R: Wait>(
        &self,
        rt: &R,
        channel: &Sender<Parcel>,
        awaited: &mut u64,
        flight: u32,
    ) -> Result<(), Stall>
        ensures { IfErr result IsUnmet }
    {
        let parcel = Parcel {
            hall: self.transport.hall,
            call: self.call,
            flight,
            reports: self.transport.reports.clone()?,
        };
        match channel.send(rt, parcel) {
            Ok(()) => {
                *awaited = u64::saturating_add(*awaited, 1);
                Ok(())
            }
            Err(SendError::OutOfMemory(_)) => Err(Stall::Memory),
            Err(SendError::Disconnected(_)) => Err(Stall::Gone),
        }
    }

    /// Hears what the replicas report until the phase is over or each parcel was reported on. The phase that
    /// follows, where it is over.
    fn hear_round<R: Wait>(
        &self,
        rt: &R,
        pass: &mut ClientPass,
        awaited: &mut u64,
    ) -> Result<Option<Phase>, Stall>
        ensures kept { KeepsLog pass.old pass.new }
        ensures stalled { IfErr result (λ stall. Stalls (record {
          replicas = length self.now.transport.now.replicas.now;
          rounds = self.now.transport.now.rounds;
        })
            pass.old stall pass.new) }
    {
        for _ in 0..*awaited {
            let Some(report) = next_message(rt, &self.transport.inbox) else {
                return Err(Stall::Gone);
            };
            *awaited = u64::saturating_sub(*awaited, 1);
            let next = hear(rt, pass, report)?;
            if next.is_some() {
                return Ok(next);
            }
        }
        Ok(None)
    }
}

/// Loses a flight or has it come once more, as the gate says. How many parcels of it are sent.
fn parcels_of<R: Wait>(rt: &R, pass: &mut ClientPass, answer: Pass, flight: u32) -> u64
    ensures kept { KeepsLog pass.old pass.new }
    ensures passed { RequestMeetsGate answer pass.old flight result pass.new }
{
    match answer {
        Pass::Go => 1,
        Pass::Drop => {
            let _ = turn(rt, pass, Step::Lose { flight });
            0
        }
        Pass::Twice => match turn(rt, pass, Step::Repeat { flight }) {
            Ok(_) => 2,
            Err(_) => 1,
        },
    }
}

/// Delivers what was reported. The phase that follows, where the client's phase is over.
fn hear<R: Wait>(rt: &R, pass: &mut ClientPass, report: Report) -> Result<Option<Phase>, Stall>
    ensures kept { KeepsLog pass.old pass.new }
    ensures heard { OnOk result (HearsReport report pass.old pass.new) }
    ensures stalled { IfErr result (λ stall.
        (reach : Reach) → Stalls reach pass.old stall pass.new) }
{
    match report {
        Report::Blank => Ok(None),
        Report::Reply(flight) => deliver(rt, pass, flight),
        Report::Twice(flight) => {
            let first = deliver(rt, pass, flight)?;
            let second = deliver(rt, pass, flight)?;
            Ok(first.or(second))
        }
    }
}

/// Delivers a reply to the client. The phase that follows, where its phase is over.
fn deliver<R: Wait>(rt: &R, pass: &mut ClientPass, flight: u32) -> Result<Option<Phase>, Stall>
    ensures kept { KeepsLog pass.old pass.new }
    ensures delivered { IsDelivery pass.old flight pass.new }
    ensures stalled { IfErr result (λ stall.
        (reach : Reach) → Stalls reach pass.old stall pass.new) }
{
    let taken = pass.deliver(rt, flight);
    phase_after(taken)
}

/// The phase that a reply makes begin, if it does.
fn phase_after(taken: Result<Taken, Refusal>) -> Result<Option<Phase>, Stall>
    ensures { IfErr result (λ stall.
        (why : Refusal) × (taken ≡ Err why) × (stall ≡ stall_of why)) }
{
    match taken {
        Ok(Taken::Stale | Taken::Counted) => Ok(None),
        Ok(Taken::Noted(_)) => Ok(Some(Phase::Put)),
        Ok(Taken::Agreed(_) | Taken::Ready) => Ok(Some(Phase::Ready)),
        Err(Refusal::NotInFlight) => Ok(None),
        Err(refusal) => Err(stall_of(refusal)),
    }
}

/// The replicas that the client counted in its phase.
fn counted_by<R: Wait>(rt: &R, pass: &mut ClientPass) -> ReplicaSet
    ensures kept { KeepsLog pass.old pass.new }
    ensures told { (phase : Phase)
        × LooksAt pass.old (StandsIn pass.old.client phase result) pass.new }
{
    pass.standing(rt).counted
}

/// One turn with a step that adds no row.
fn turn<R: Wait>(rt: &R, pass: &mut ClientPass, step: Step) -> Result<Effect, Refusal>
    requires may { IsStepOfClient pass.old.client step }
    requires quiet { IsQuiet step }
    ensures kept { KeepsLog pass.old pass.new }
    ensures turned { TakesTurn pass.old step result pass.new }
{
    pass.take(rt, step)
}

/// One turn: the client's request to the replica is sent. The number of its flight.
fn send_flight<R: Wait>(rt: &R, pass: &mut ClientPass, replica: ReplicaId) -> Result<u32, Refusal>
    ensures kept { KeepsLog pass.old pass.new }
    ensures sent { IfOk result (λ flight. TakesTurn pass.old
        (event.Send pass.old.client replica) (Ok (effect.Sent flight)) pass.new) }
    ensures refused { IfErr result (λ why. TakesTurn pass.old
        (event.Send pass.old.client replica) (Err why) pass.new) }
{
    let client = pass.client();
    match turn(rt, pass, Step::Send { client, replica }) {
        Ok(Effect::Sent(flight)) => Ok(flight),
        Ok(_) => unreachable!(),
        Err(refusal) => Err(refusal),
    }
}

/// Stops the client in the pass's hall.
fn stop<R: Wait>(rt: &R, pass: &mut ClientPass)
    ensures kept { KeepsLog pass.old pass.new }
    ensures stopped { pass.new.is_stopped ≡ true }
{
    pass.stop(rt);
}

/// What a call answers that didn't begin.
fn told_delay(delay: Delay) -> CallError
    ensures { result ≡ delay_error delay }
{
    match delay {
        Delay::Refused(Refusal::OpsFull | Refusal::FlightsFull) => CallError::Full,
        Delay::Refused(Refusal::Memory) => CallError::Memory,
        Delay::Refused(_) | Delay::Foreign => CallError::Foreign,
    }
}

impl From<AllocError> for Stall {
    ghost from_gives = { λ _ e. e ≡ Stall.Memory };

    fn from(_: AllocError) -> Stall {
        Stall::Memory
    }
}

/// Why a call isn't answered where a later step of it was refused.
fn stall_of(refusal: Refusal) -> Stall
    ensures { result ≡ stall_of refusal }
{
    match refusal {
        Refusal::OpsFull | Refusal::FlightsFull => Stall::Full,
        Refusal::Memory => Stall::Memory,
        _ => Stall::Unavailable,
    }
}

/// What a call answers that began and isn't answered.
fn told_pending(stall: Stall) -> CallError
    ensures { result ≡ stall_error stall }
{
    match stall {
        Stall::Unavailable | Stall::Gone => CallError::Unavailable,
        Stall::Full => CallError::Full,
        Stall::Memory => CallError::Memory,
    }
}
