//! What a row's steps are taken by.
use crate::clients::client_answers;
use crate::messages::copied;
use crate::networks::{pool_answers, replica_answers};
use crate::sets::{
    compared, quorums_answer, say_generated, say_members, say_reasons, say_refusals,
};
use crate::settings::Settings;
use crate::twin::say_twins;
use crate::words::Words;
use crate::worlds::{step_of, world_answers};
use client_phases::Client;
use network::Pool;
use quorum::Quorums;
use random_steps::RandomSteps;
use replica::Replica;
use std::alloc::{AllocError, Global};
use tag::Memory;
use test_rows::Answer;
use world_steps::{Config, Step, World, run};

#[derive(Drop)]
pub enum Subject {
    None,
    World(World, RandomSteps),
    Steps(Config, Vec<Step>),
    Client(Client),
    Network(Pool),
    Replica(Replica),
    Quorums(Quorums),
}

/// A world that was made, and what draws its random steps.
fn begun(out: &mut Answer, world: Result<World, Memory>) -> Subject {
    match world {
        Ok(world) => Subject::World(world, RandomSteps::new(42)),
        Err(Memory) => {
            out.refuse();
            Subject::None
        }
    }
}

fn world_of(out: &mut Answer, config: Option<Config>) -> Subject {
    match config {
        Some(config) => begun(out, World::new(out.alloc(), config)),
        None => Subject::None,
    }
}

fn client_of(out: &mut Answer, mut words: Words<'_>) -> Subject {
    let Some(name) = words.client() else {
        return Subject::None;
    };
    match Settings::read(out, words).client(name) {
        Some(client) => Subject::Client(client),
        None => Subject::None,
    }
}

fn quorums_of(quorums: Option<Quorums>) -> Subject {
    match quorums {
        Some(quorums) => Subject::Quorums(quorums),
        None => Subject::None,
    }
}

fn replica_of(alloc: Global, mut words: Words<'_>) -> Subject {
    match words.replica() {
        Some(number) => Subject::Replica(Replica::new(alloc, number)),
        None => Subject::None,
    }
}

/// A list of steps, empty yet, for a run from that opening world.
fn steps_of(alloc: Global, config: Option<Config>) -> Subject {
    match config {
        Some(config) => Subject::Steps(config, Vec::new(alloc)),
        None => Subject::None,
    }
}

/// Lists a step.
fn list(out: &mut Answer, steps: &mut Vec<Step>, step: Step) {
    match steps.push(step) {
        Ok(()) => out.push("listed"),
        Err(_) => out.refuse(),
    }
}

/// Lists the step that a line writes.
fn list_line(out: &mut Answer, steps: &mut Vec<Step>, line: &str) {
    match step_of(out.alloc(), Words { rest: line }) {
        Some(step) => list(out, steps, step),
        None => out.push("NO SUCH STEP"),
    }
}

/// Whether a line of that kind makes a subject.
fn is_made(kind: &str) -> bool {
    matches!(
        kind,
        "world" | "steps" | "client" | "quorums" | "replica" | "network"
    )
}

/// The subject of that kind with those settings.
fn made_so(out: &mut Answer, kind: &str, settings: &Settings) -> Subject {
    match kind {
        "world" => world_of(out, settings.config()),
        "steps" => steps_of(out.alloc(), settings.config()),
        _ => quorums_of(settings.quorums()),
    }
}

/// The subject that a line makes.
fn made(out: &mut Answer, kind: &str, mut words: Words<'_>) -> Subject {
    match kind {
        "client" => client_of(out, words),
        "replica" => replica_of(out.alloc(), words),
        "network" => {
            let limit = words.number().unwrap_or(0);
            Subject::Network(Pool::new(out.alloc(), limit))
        }
        _ => {
            let settings = Settings::read(out, words);
            made_so(out, kind, &settings)
        }
    }
}

/// What comes of a line that needs no subject.
fn answer_alone(out: &mut Answer, line: &str) {
    let mut words = Words { rest: line };
    match words.word() {
        "copy" => out.push(copied(out.alloc(), words.rest)),
        "members" => say_members(out, words),
        "compare" => out.push(compared(words)),
        "refusals" => say_refusals(out),
        "reasons" => say_reasons(out),
        "generator" => say_generated(out, words),
        "twin" => say_twins(out, words),
        _ => out.push("NO SUCH STEP"),
    }
}

impl Subject {
    fn name(&self) -> &'static str {
        match self {
            Subject::None => "none",
            Subject::World(..) => "a world",
            Subject::Steps(..) => "steps",
            Subject::Client(_) => "a client",
            Subject::Network(_) => "a network",
            Subject::Replica(_) => "a replica",
            Subject::Quorums(_) => "quorums",
        }
    }

    /// Puts what was made in its place, and says what it is.
    fn replace(&mut self, out: &mut Answer, made: Subject) {
        *self = made;
        out.push(self.name());
    }

    /// The world that the listed steps leave.
    fn run(&self, out: &mut Answer) -> Subject {
        match self {
            Subject::Steps(config, steps) => {
                let world = run(out.alloc(), *config, steps.as_slice());
                begun(out, world)
            }
            _ => Subject::None,
        }
    }

    /// What comes of a step or a question.
    fn step(&mut self, out: &mut Answer, line: &str) {
        match self {
            Subject::None => answer_alone(out, line),
            Subject::World(world, steps) => world_answers(out, (world, steps), line),
            Subject::Steps(_, steps) => list_line(out, steps, line),
            Subject::Client(client) => client_answers(out, client, line),
            Subject::Network(pool) => pool_answers(out, pool, line),
            Subject::Replica(replica) => replica_answers(out, replica, line),
            Subject::Quorums(quorums) => quorums_answer(out, quorums, line),
        }
    }

    /// What comes of a step or a question, as a text of its own.
    fn said(&mut self, alloc: Global, line: &str) -> Result<String, AllocError> {
        let mut said = Answer::new(alloc);
        self.step(&mut said, line);
        said.text()
    }

    /// Takes a step so many times. It says how often the answer was the last one.
    fn repeat(&mut self, out: &mut Answer, times: u32, line: &str) {
        let mut last = String::new(out.alloc());
        let mut alike = 0u32;
        for _ in 0..times {
            match self.said(out.alloc(), line) {
                Ok(said) if said == last => alike = alike.saturating_add(1),
                Ok(said) => {
                    alike = 1;
                    last = said;
                }
                Err(_) => out.refuse(),
            }
        }
        let last = last.as_str();
        write!(out, "{alike} times {last}");
    }

    /// What comes of a step or a question, or of one that is taken so many times.
    fn answer_step(&mut self, out: &mut Answer, line: &str) {
        let (times, rest) = line.split_once(" times ").unwrap_or(("", ""));
        match times.parse::<u32>() {
            Ok(times) => self.repeat(out, times, rest),
            Err(_) => self.step(out, line),
        }
    }

    /// What comes of a line.
    pub fn answer(&mut self, out: &mut Answer, line: &str) {
        let mut words = Words { rest: line };
        let kind = words.word();
        if is_made(kind) {
            let made = made(out, kind, words);
            self.replace(out, made);
        } else if kind == "run" {
            let left = self.run(out);
            self.replace(out, left);
        } else {
            self.answer_step(out, line);
        }
    }
}
