//! A source of random steps.
ghost use Rattle.std.specs.Prelude.{ℕ, ◌≡◌, ◌++◌, true, IfOk, IsSome, MatchOption, codes, decimal};
ghost use Rattle.random_steps.specs.Choices.{action_of, client_at, draw, flight_at, generator_of};
ghost use Rattle.random_steps.specs.Choices.{key_of, kind_of, replica_at, step_by, step_of};
ghost use Rattle.world_steps.specs.Refusals.{is_idle, phase_at, refusal_of};

use client_phases::Phase;
use itoa::Buffer;
use rand_core::utils::NextWord;
use rand_pcg::Lcg64Xsh32;
use std::alloc::Global;
use std::marker::Model;
use tag::{Action, ClientId, Key, Memory, NameError, ReplicaId, Value};
use world_steps::{Step, World};

/// A source of random steps, of a generator.
#[derive(Drop)]
pub struct RandomSteps {
    generator: Lcg64Xsh32,
}

impl Model for RandomSteps {
    ghost use Rattle.rand_pcg.specs.Lcg.{Lcg};

    ghost Value = { Lcg };

    ghost view = { λ steps. steps.generator };
}

/// What kind of step comes.
#[derive(Clone, Copy, Debug)]
pub enum Kind {
    Lose,
    Repeat,
    Respond,
    Invoke,
    Send,
    Deliver,
}

fn kind_of(word: u32) -> Kind
    ensures { result ≡ kind_of word }
{
    let chance = word % 16;
    if chance == 0 {
        return Kind::Lose;
    }
    if chance == 1 {
        return Kind::Repeat;
    }
    if chance < 4 {
        return Kind::Respond;
    }
    if chance < 6 {
        return Kind::Invoke;
    }
    if chance < 10 {
        return Kind::Send;
    }
    Kind::Deliver
}

/// The client of that number among those that joined, modulo their count; name 1 if nobody
/// joined.
fn client_at(world: &World, word: u32) -> ClientId
    ensures { result ≡ client_at world.now word }
{
    let joined = world.joined();
    if joined.is_empty() {
        return ClientId::new(1).unwrap();
    }
    joined[word as usize % joined.len()]
}

/// One of the last 32 flights that were sent; 0 if none was.
fn flight_at(world: &World, word: u32) -> u32
    ensures { result ≡ flight_at world.now word }
{
    let sent = world.pool().sent();
    if sent == 0 {
        return 0;
    }
    sent - 1 - word % sent.min(32)
}

/// A replica.
fn replica_at(world: &World, word: u32) -> ReplicaId
    ensures { result ≡ replica_at world.now word }
{
    let replicas = world.config().replicas();
    ReplicaId::new((word % u32::from(replicas)) as u8).unwrap()
}

/// One of the keys k0 to k3.
fn key_of(alloc: Global, word: u32) -> Result<Key, Memory>
    ensures { IfOk result (λ key. key ≡ key_of word) }
{
    let text = match word % 4 {
        0 => "k0",
        1 => "k1",
        2 => "k2",
        _ => "k3",
    };
    match Key::new(alloc, text) {
        Ok(key) => Ok(key),
        Err(NameError::Memory) => Err(Memory),
        Err(_) => unreachable!(),
    }
}

/// The word's digits after an r.
fn value_of(alloc: Global, word: u32) -> Result<Value, Memory>
    ensures { IfOk result (λ value. value ≡ codes "r" ++ decimal word) }
{
    let mut digits = Buffer::new();
    let mut text = String::from_str(alloc, "r")?;
    text.push_str(digits.format(word))?;
    match Value::new(alloc, text.as_str()) {
        Ok(value) => Ok(value),
        Err(NameError::Memory) => Err(Memory),
        Err(_) => unreachable!(),
    }
}

/// A read, or a write of the word's digits.
fn action_of(alloc: Global, word: u32) -> Result<Action, Memory>
    ensures { IfOk result (λ action. action ≡ action_of word) }
{
    if word / 4 % 2 == 0 {
        return Ok(Action::Read);
    }
    Ok(Action::Write(value_of(alloc, word)?))
}

/// The step of that kind that two words choose.
fn step_by(
    alloc: Global,
    world: &World,
    kind: Kind,
    second: u32,
    third: u32,
) -> Result<Step, Memory>
    ensures { IfOk result (λ step. step ≡ step_by world.now kind second third) }
{
    match kind {
        Kind::Lose => Ok(Step::Lose {
            flight: flight_at(world, second),
        }),
        Kind::Repeat => Ok(Step::Repeat {
            flight: flight_at(world, second),
        }),
        Kind::Respond => Ok(Step::Respond {
            client: client_at(world, second),
        }),
        Kind::Invoke => Ok(Step::Invoke {
            client: client_at(world, second),
            key: key_of(alloc, third)?,
            action: action_of(alloc, third)?,
        }),
        Kind::Send => Ok(Step::Send {
            client: client_at(world, second),
            replica: replica_at(world, third),
        }),
        Kind::Deliver => Ok(Step::Deliver {
            flight: flight_at(world, second),
        }),
    }
}

/// Whether a client of that name joined and is idle.
fn is_idle(world: &World, client: ClientId) -> bool
    ensures { result ≡ is_idle (phase_at world.now client) }
{
    match world.client(client) {
        Some(client) => client.phase() == Phase::Idle,
        None => false,
    }
}

/// Whether two words choose the invocation of a client that isn't idle.
fn is_busy(world: &World, kind: Kind, second: u32) -> bool
    ensures { (third : ℕ) → result ≡ true
        → IsSome (refusal_of world.now (step_by world.now kind second third)) }
{
    match kind {
        Kind::Invoke => !is_idle(world, client_at(world, second)),
        _ => false,
    }
}

impl RandomSteps {
    /// The steps of a seed.
    pub fn new(seed: u64) -> RandomSteps
        ensures { result ≡ generator_of seed }
    {
        RandomSteps {
            generator: Lcg64Xsh32::new(seed, 54),
        }
    }

    /// Draws three words.
    fn draw(&mut self) -> (u32, u32, u32)
        ensures first { result.0 ≡ (draw self.old).first }
        ensures second { result.1 ≡ (draw self.old).second }
        ensures third { result.2 ≡ (draw self.old).third }
        ensures rest { self.new ≡ (draw self.old).rest }
    {
        let first: u32 = self.generator.next_word();
        let second: u32 = self.generator.next_word();
        let third: u32 = self.generator.next_word();
        (first, second, third)
    }

    /// The next step for the world as it stands. The three words are drawn whatever comes of it;
    /// `Memory` comes only if room for a text was refused.
    pub fn next(&mut self, alloc: Global, world: &World) -> Result<Step, Memory>
        ensures step { IfOk result (λ step. step ≡ step_of world.now (draw self.old)) }
        ensures drawn { self.new ≡ (draw self.old).rest }
    {
        let (first, second, third) = self.draw();
        step_by(alloc, world, kind_of(first), second, third)
    }

    /// The next step as `next` answers it, but none if it is the invocation of a client that isn't
    /// idle. Such a step is refused, and its texts aren't made.
    pub fn next_unless_busy(&mut self, alloc: Global, world: &World) -> Result<Option<Step>, Memory>
        ensures step { IfOk result (λ next. MatchOption next
            (IsSome (refusal_of world.now (step_of world.now (draw self.old))))
            (λ step. step ≡ step_of world.now (draw self.old))) }
        ensures drawn { self.new ≡ (draw self.old).rest }
    {
        let (first, second, third) = self.draw();
        let kind = kind_of(first);
        if is_busy(world, kind, second) {
            return Ok(None);
        }
        Ok(Some(step_by(alloc, world, kind, second, third)?))
    }
}
