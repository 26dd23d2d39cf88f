//! What a subject is made of.
use crate::words::Words;
use client_phases::{Client, ReadMode};
use quorum::Quorums;
use tag::ClientId;
use test_rows::Answer;
use world_steps::Config;

/// The words `replicas 3`, `calls 10`, `flights 10`, `reads short`, `votes 1,1,3`, `ask 3` and `put 3`
/// of a step, in any order. Where no votes are written the quorums are majorities.
#[derive(Drop)]
pub struct Settings {
    replicas: u8,
    calls: u32,
    flights: u32,
    reads: ReadMode,
    votes: Option<Vec<u8>>,
    ask: u8,
    put: u8,
}

impl Settings {
    pub fn read(out: &mut Answer, mut words: Words<'_>) -> Settings {
        let mut settings = Settings {
            replicas: 0,
            calls: 1000,
            flights: 1000,
            reads: ReadMode::Full,
            votes: None,
            ask: 0,
            put: 0,
        };
        for _ in 0..7 {
            settings.take(out, &mut words);
        }
        settings
    }

    fn take(&mut self, out: &mut Answer, words: &mut Words<'_>) {
        match words.word() {
            "replicas" => self.replicas = words.small().unwrap_or(0),
            "calls" => self.calls = words.number().unwrap_or(0),
            "flights" => self.flights = words.number().unwrap_or(0),
            "reads" => self.reads = words.reads(),
            "votes" => self.votes = Some(words.votes(out)),
            "ask" => self.ask = words.small().unwrap_or(0),
            "put" => self.put = words.small().unwrap_or(0),
            _ => {}
        }
    }

    pub fn quorums(&self) -> Option<Quorums> {
        match &self.votes {
            Some(votes) => Quorums::new(votes.as_slice(), self.ask, self.put),
            None if self.replicas >= 1 && self.replicas <= 15 => {
                Some(Quorums::majority(self.replicas))
            }
            None => None,
        }
    }

    pub fn config(&self) -> Option<Config> {
        let config = Config::new(self.replicas, self.calls, self.flights)?;
        config.with_reads(self.reads).with_quorums(self.quorums()?)
    }

    pub fn client(&self, name: ClientId) -> Option<Client> {
        Some(Client::new(name, self.quorums()?, self.reads))
    }
}
