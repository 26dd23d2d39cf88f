//! Both worlds take the same random steps, and some that random steps never are.
mod further;

use crate::twin::answers::Answers;
use crate::twin::slow::{Rules, SlowRow, SlowWorld};
use crate::twin::stop::Stop;
use client_phases::ReadMode;
use further::{client, further_step, query, read, with_same_value};
use quorum::Quorums;
use random_steps::RandomSteps;
use recorder::History;
use std::alloc::Global;
use world_steps::{Config, Effect, Refusal, Step, World};

/// A run: the seed of its random steps and how many they are, the votes and those of an ask quorum and
/// of a put quorum, how clients read, how many calls and messages there may be, and whether all writes
/// write the same.
#[derive(Clone, Copy)]
pub struct Run<'a> {
    seed: u64,
    steps: u32,
    votes: &'a [u8],
    ask: u8,
    put: u8,
    reads: ReadMode,
    calls: u32,
    flights: u32,
    same_value: bool,
}

/// The real world and the slow one, and what the slow one answered last.
#[derive(Drop)]
struct Twins {
    real: World,
    slow: SlowWorld,
    expected: Result<Effect, Refusal>,
}

fn real_world(alloc: Global, run: &Run) -> Result<World, Stop> {
    let quorums = Quorums::new(run.votes, run.ask, run.put).ok_or(Stop::Quorums)?;
    let config = Config::new(quorums.replicas(), run.calls, run.flights).ok_or(Stop::Limits)?;
    let config = config.with_quorums(quorums).ok_or(Stop::Replica)?;
    Ok(World::new(alloc, config.with_reads(run.reads))?)
}

fn votes_of(alloc: Global, run: &Run) -> Result<Vec<u32>, Stop> {
    let mut votes = Vec::new(alloc);
    for vote in run.votes {
        votes.push(u32::from(*vote))?;
    }
    Ok(votes)
}

fn slow_world(alloc: Global, run: &Run) -> Result<SlowWorld, Stop> {
    let rules = Rules {
        votes: votes_of(alloc, run)?,
        ask: u32::from(run.ask),
        put: u32::from(run.put),
        reads: run.reads,
    };
    SlowWorld::new(alloc, rules, run.calls, run.flights)
}

fn both_of(alloc: Global, run: &Run) -> Result<Twins, Stop> {
    let real = real_world(alloc, run)?;
    match slow_world(alloc, run) {
        Ok(slow) => Ok(Twins {
            real,
            slow,
            expected: Err(Refusal::Memory),
        }),
        Err(stop) => Err(stop),
    }
}

/// Ends the run where the answer isn't the one that has to come, or memory was wanted.
fn compare_answers(
    answer: &Result<Effect, Refusal>,
    expected: &Result<Effect, Refusal>,
) -> Result<(), Stop> {
    if *answer == Err(Refusal::Memory) {
        return Err(Stop::Memory);
    }
    if *answer != *expected {
        return Err(Stop::Differs);
    }
    Ok(())
}

/// Both worlds take a step, and answer the same.
fn take(twins: &mut Twins, answers: &mut Answers, step: Step) -> Result<(), Stop> {
    twins.slow.take(&step, &mut twins.expected)?;
    let answer = twins.real.step(step);
    compare_answers(&answer, &twins.expected)?;
    answers.add(answer);
    Ok(())
}

/// Four clients join.
fn join(twins: &mut Twins, answers: &mut Answers) -> Result<(), Stop> {
    for name in 1..5 {
        let client = client(name)?;
        take(twins, answers, Step::Join { client })?;
    }
    Ok(())
}

/// One client reads, sends a query, and the query is repeated until it has as many copies as may be.
fn repeat(alloc: Global, twins: &mut Twins, answers: &mut Answers) -> Result<(), Stop> {
    take(twins, answers, read(alloc, 1)?)?;
    take(twins, answers, query(1)?)?;
    for _ in 0..1000 {
        take(twins, answers, Step::Repeat { flight: 0 })?;
    }
    Ok(())
}

/// Takes the further step before the random one of that number, if there is one.
fn take_further(
    alloc: Global,
    twins: &mut Twins,
    answers: &mut Answers,
    number: u32,
) -> Result<(), Stop> {
    let replicas = twins.real.config().replicas();
    match further_step(alloc, replicas, number)? {
        Some(step) => take(twins, answers, step),
        None => Ok(()),
    }
}

/// The next random step.
fn drawn(
    alloc: Global,
    random: &mut RandomSteps,
    real: &World,
    same_value: bool,
) -> Result<Step, Stop> {
    let step = random.next(alloc, real)?;
    if same_value {
        with_same_value(alloc, &step)
    } else {
        Ok(step)
    }
}

/// The random steps of a run, and the further ones between them.
fn walk(alloc: Global, run: &Run, twins: &mut Twins, answers: &mut Answers) -> Result<(), Stop> {
    let mut random = RandomSteps::new(run.seed);
    for number in 0..run.steps {
        take_further(alloc, twins, answers, number)?;
        let step = drawn(alloc, &mut random, &twins.real, run.same_value)?;
        take(twins, answers, step)?;
    }
    Ok(())
}

/// Whether these are the rows of the history.
fn has_rows(history: &History, rows: &[SlowRow]) -> bool {
    if history.row_count() != rows.len() {
        return false;
    }
    for place in 0..rows.len() {
        if history.row(place) != rows[place].lent() {
            return false;
        }
    }
    true
}

/// The steps of a run, after which the records are equal.
fn play(alloc: Global, run: &Run, twins: &mut Twins, answers: &mut Answers) -> Result<(), Stop> {
    join(twins, answers)?;
    repeat(alloc, twins, answers)?;
    walk(alloc, run, twins, answers)?;
    if !has_rows(twins.real.history(), twins.slow.rows()) {
        return Err(Stop::Differs);
    }
    Ok(())
}

/// Both worlds answer the same in a run, and record the same. Counts the answers.
pub fn compare(alloc: Global, run: &Run, answers: &mut Answers) -> Result<(), Stop> {
    match both_of(alloc, run) {
        Ok(mut twins) => play(alloc, run, &mut twins, answers),
        Err(stop) => Err(stop),
    }
}

/// Majorities of five replicas, and limits that aren't reached.
fn of_five(seed: u64, reads: ReadMode) -> Run<'static> {
    Run {
        seed,
        steps: 20_000,
        votes: &[1, 1, 1, 1, 1],
        ask: 3,
        put: 3,
        reads,
        calls: 100_000,
        flights: 100_000,
        same_value: false,
    }
}

/// Three replicas, of which the third has more votes than the others together.
fn of_three(seed: u64, reads: ReadMode) -> Run<'static> {
    Run {
        votes: &[1, 1, 3],
        ..of_five(seed, reads)
    }
}

/// The runs of a seed: five replicas and three, full reads and short ones, one value and many, quorums
/// of different votes, few calls, and few messages.
pub fn runs(seed: u64) -> [Run<'static>; 7] {
    [
        of_five(seed, ReadMode::Full),
        of_five(seed, ReadMode::Short),
        Run {
            same_value: true,
            ..of_five(seed, ReadMode::Short)
        },
        of_three(seed, ReadMode::Full),
        Run {
            ask: 2,
            put: 4,
            ..of_three(seed, ReadMode::Short)
        },
        Run {
            ask: 4,
            put: 2,
            calls: 40,
            ..of_three(seed, ReadMode::Short)
        },
        Run {
            flights: 500,
            ..of_three(seed, ReadMode::Full)
        },
    ]
}
