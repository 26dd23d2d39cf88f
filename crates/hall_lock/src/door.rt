//! How a thread comes to a hall: the ends of the hall's channel, and a pass of the rule.
ghost use Rattle.std.specs.Prelude.{◌≡◌, ℕ, None, Ok, OnErr, OnOk, Some, IfOk, IfSome, IsNone};
ghost use Rattle.crossbeam_channel.specs.Fifo.{Learns, Pushes};
ghost use Rattle.hall_lock.specs.Turns.{AddsOwnRows, AreRecorded, HasEntered, HasOneHall, IsAtRest};
ghost use Rattle.hall_lock.specs.Turns.{IsStepOfPass, KeepsStopped, MayReturn, Receives, Returns, Turns};
ghost use Rattle.hall_lock.specs.Turns.{guest, maker, seat_in};
ghost use Rattle.recorder.specs.Histories.{IsWellFormed};
ghost use Rattle.hall_journal.specs.Halls.{IsReplay, TakesOrRefuses};
ghost use Rattle.world_steps.specs.Lasting.{client_in};
ghost use Rattle.world_steps.specs.Moves.{IsReady};
ghost use Rattle.world_steps.specs.Refusals.{refusal_of};
ghost use Rattle.world_steps.specs.SoundSystems.{IsSound};

use crate::rule::{Enter, Guest, OneHall, Receive, Return, View};
use crossbeam_channel::protocol::{Lesson, Outcome};
use crossbeam_channel::{Pass, RuledReceiver, RuledSender, bounded_with};
use hall_journal::Hall;
use std::alloc::Global;
use std::hint::spin_loop;
use std::marker::Model;
use std::sync::Wait;
use std::thread;
use tag::{ClientId, Memory, OpId, Returned};
use world_steps::{Effect, Refusal, Step, laws};

/// How often a thread tries to receive the hall before it sleeps.
const TRIES: u32 = 12;

/// After how many of these tries it only pauses, and keeps its processor.
const PAUSED: u32 = 4;

/// How long such a pause is, in the processor's pauses.
const PAUSES: u32 = 4;

/// The door to one hall. A contract sees what its pass knows.
#[derive(Drop)]
pub struct Door {
    sender: RuledSender<Hall, View, OneHall>,
    receiver: RuledReceiver<Hall, View, OneHall>,
    pass: Pass<Hall, View>,
}

impl Model for Door {
    ghost use Rattle.std.specs.Prelude.{◌≡◌, ℕ, Bool, List, Option, refl};
    ghost use Rattle.std.specs.Coded.{code_by, coded×, coded_bool, coded_list, coded_option, coded_ℕ};
    ghost use Rattle.crossbeam_channel.specs.Claims.{view as pass_view, IsSeatAt};
    ghost use Rattle.crossbeam_channel.specs.Ends.{sends_on, receives_on};
    ghost use denote.Signature.{static_lft};
    ghost use Rattle.recorder.specs.contracts.row.Row as entry;
    ghost use Rattle.recorder.specs.declared.row.Row.{Row};
    ghost use Rattle.world_steps.specs.contracts.world.World as whole;
    ghost use Rattle.world_steps.specs.declared.system.System.{System};
    ghost use Rattle.hall_lock.specs.declared.rule.View.{View};

    ghost Value = { View };

    ghost coded = { code_by (Option ℕ × (List Row × (Bool × Option System))) (coded× (coded_option
        coded_ℕ) (coded× (coded_list (entry.the_row static_lft).coded)
        (coded× coded_bool (coded_option whole.the_row.coded))))
        (λ v. (v.client, (v.rows, (v.is_stopped, v.held)))) (λ p. record {
          client = p.0;
          rows = p.1.0;
          is_stopped = p.1.1.0;
          held = p.1.1.1;
        }) (λ _. refl) };

    ghost view = { λ d. pass_view d.pass };

    ghost invariant = { λ d. IsSeatAt (sends_on d.sender) d.pass × (receives_on d.receiver ≡ sends_on d.sender) };
}

impl Door {
    /// The first door to a hall that nobody has had yet: it is out with this door.
    pub(crate) fn new(alloc: Global) -> Result<Door, Memory>
        ensures { IfOk result (λ door. door ≡ maker) }
    {
        let (sender, receiver, pass) = bounded_with::<Hall, View, OneHall, Global>(alloc, 1)?;
        Ok(Door {
            sender,
            receiver,
            pass,
        })
    }

    /// Another door to the same hall, without a client. `Memory` comes only if an allocation failed.
    pub(crate) fn guest(&mut self) -> Result<Door, Memory>
        ensures same { self.new ≡ self.old }
        ensures ok { IfOk result (λ door. door ≡ guest self.old.rows) }
    {
        let sender = self.sender.try_clone()?;
        let receiver = self.receiver.try_clone()?;
        let pass = self.sender.another::<Guest>(&mut self.pass);
        Ok(Door {
            sender,
            receiver,
            pass,
        })
    }

    /// Receives the hall.
    pub(crate) fn receive(&mut self, rt: &impl Wait) -> Hall
        ensures received { Receives self.old result self.new }
        ensures replay { IsReplay result }
        ensures sound { IsSound result.world }
    {
        let hall = self.fetch(rt);
        attest(&hall);
        hall
    }

    /// Fetches the hall from its channel.
    ///
    /// It tries a few times, and lets other threads run in between, before it sleeps: a turn is short, and a thread
    /// that doesn't sleep needn't be woken.
    fn fetch(&mut self, rt: &impl Wait) -> Hall
        ensures { Receives self.old result self.new }
    {
        for tries in 0..TRIES {
            if let Some(hall) = self.try_receive(rt) {
                return hall;
            }
            if tries < PAUSED {
                pause();
            } else {
                thread::yield_now();
            }
        }
        self.wait(rt)
    }

    /// Receives the hall, if it lies in its channel.
    fn try_receive(&mut self, rt: &impl Wait) -> Option<Hall>
        ensures received { IfSome result (λ hall. Receives self.old hall self.new) }
        ensures out { IsNone result → self.new ≡ self.old }
    {
        match self.receiver.try_recv_as::<Receive, _>(rt, &mut self.pass) {
            Ok(hall) => Some(hall),
            Err(_) => None,
        }
    }

    /// Receives the hall, and sleeps until it lies in its channel.
    fn wait(&mut self, rt: &impl Wait) -> Hall
        ensures { Receives self.old result self.new }
    {
        for _ in rt.forever() {
            if let Ok(hall) = self.receiver.recv_as::<Receive, _>(rt, &mut self.pass) {
                return hall;
            }
        }
        unreachable!()
    }

    /// Gives the hall back, in which the client has just joined: it is this pass's from now on.
    pub(crate) fn give_named(&mut self, rt: &impl Wait, hall: Hall, client: ClientId)
        requires free { self.old.client ≡ None }
        requires joined { HasEntered self.old client hall.world }
        ensures seat { self.new ≡ seat_in client hall.world }
        ensures recorded { AreRecorded hall.world.history.rows }
    {
        attest(&hall);
        self.send::<Enter, _>(rt, hall);
    }

    /// Gives the hall back.
    pub(crate) fn give_back(&mut self, rt: &impl Wait, hall: Hall)
        requires { MayReturn self.old hall.world }
        ensures back { Returns self.old hall self.new }
        ensures stays { KeepsStopped self.old hall.world }
        ensures recorded { AreRecorded hall.world.history.rows }
    {
        attest(&hall);
        self.send::<Return, _>(rt, hall);
    }

    /// Puts the hall into its channel by a move that the rule allows.
    fn send<M: Outcome<Hall, View> + Lesson<Hall, View>, R: Wait>(&mut self, rt: &R, hall: Hall)
        requires may { (size : ℕ) (pass : ℕ) → Pushes HasOneHall size pass self.old hall (M.then self.old hall) }
        requires learns { (pass : ℕ) → Learns HasOneHall pass self.old (M.fact self.old) }
        ensures { M.then self.old hall self.new }
    {
        let mut back = hall;
        for _ in rt.forever() {
            match self.sender.send_as::<M, _>(rt, &mut self.pass, back) {
                Ok(()) => return,
                Err(error) => back = error.into_inner(),
            }
        }
        unreachable!()
    }
}

impl Door {
    /// One turn: the hall takes the step, or refuses it.
    pub(crate) fn take(&mut self, rt: &impl Wait, step: Step) -> Result<Effect, Refusal>
        requires rest { IsAtRest self.old }
        requires may { IsStepOfPass self.old.client step }
        ensures { Turns self.old step result self.new }
    {
        let mut hall = self.receive(rt);
        let taken = take_in(&mut hall, step);
        self.give_back(rt, hall);
        taken
    }
}

/// Lets a moment pass, about as long as a turn.
fn pause() {
    for _ in 0..PAUSES {
        spin_loop();
    }
}

/// Has the hall take a step, which adds rows of its own client's calls alone.
pub(crate) fn take_in(hall: &mut Hall, step: Step) -> Result<Effect, Refusal>
    ensures takes { TakesOrRefuses hall.old step result hall.new }
    ensures adds { AddsOwnRows (client_in hall.old.world step) hall.old.world hall.new.world }
{
    laws::a_step_adds_a_row_of_its_client();
    laws::further_steps_take_nothing_away();
    laws::a_stop_is_for_good();
    attest(hall);
    hall.take(step)
}

/// Has a client of the hall answer its call, which adds a row of this call alone.
pub(crate) fn answer_in(hall: &mut Hall, client: ClientId) -> Result<(OpId, Returned), Memory>
    requires { refusal_of hall.old.world (Step.Respond client) ≡ None }
    ensures takes { IfOk result (λ answer. TakesOrRefuses hall.old (Step.Respond client)
        (Ok (Effect.Responded answer.0)) hall.new) }
    ensures ready { IfOk result (λ answer. IsReady hall.old.world client answer.0 answer.1) }
    ensures err { OnErr result (hall.new ≡ hall.old) }
    ensures adds { OnOk result (AddsOwnRows (Some client) hall.old.world hall.new.world) }
{
    laws::a_step_adds_a_row_of_its_client();
    laws::further_steps_take_nothing_away();
    laws::a_stop_is_for_good();
    attest(hall);
    hall.respond(client)
}

/// What holds of every hall.
fn attest(hall: &Hall)
    ensures replay { IsReplay hall.now }
    ensures sound { IsSound hall.now.world }
    ensures formed { IsWellFormed hall.now.world.history.rows }
{
    let world = hall.world();
    let _ = world.config();
    let _ = world.history().row_count();
}
