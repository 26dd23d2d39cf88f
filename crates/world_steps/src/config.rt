//! What is fixed of a world before its first step.
ghost use Rattle.std.specs.Prelude.{◌≡◌, ◌≤◌, ◌↔◌, IsSome, IfSome, length};
ghost use Rattle.tag.specs.Limits.{call_limit};
ghost use Rattle.quorum.specs.Quorums.{IsLawful, majority_of};
ghost use Rattle.world_steps.specs.Configs.{AreAllowedSizes, config_of, message_limit};

use client_phases::ReadMode;
use quorum::Quorums;
use std::marker::Model;

/// The replicas with their quorums, how clients read, and how many calls may be invoked and messages
/// sent: 1 to 15 replicas, 1 to 1,000,000 calls, 1 to 16,000,000 messages.
#[derive(Clone, Copy, Debug, PartialEq, Eq)]
pub struct Config {
    quorums: Quorums,
    reads: ReadMode,
    calls: u32,
    flights: u32,
}

impl Model for Config {
    ghost use Rattle.std.specs.Prelude.{◌≤◌};
    ghost use Rattle.tag.specs.Limits.{call_limit};
    ghost use Rattle.world_steps.specs.Configs.{Config, message_limit};

    ghost Value = { Config };

    ghost view = { λ c. record { quorums = c.quorums; reads = c.reads; calls = c.calls; flights = c.flights } };

    ghost invariant = { λ c. (c.calls ≤ call_limit) × (c.flights ≤ message_limit) };

    ghost inverse = { λ v. record { quorums = v.quorums; reads = v.reads; calls = v.calls; flights = v.flights } };
}

impl Config {
    /// So many replicas, calls and messages, with majorities as quorums and full reads. `None` comes
    /// exactly outside the ranges.
    pub fn new(replicas: u8, calls: u32, flights: u32) -> Option<Config>
        ensures some { IsSome result ↔ AreAllowedSizes replicas calls flights }
        ensures value { IfSome result (λ config. config ≡ config_of replicas calls flights) }
    {
        let in_range = replicas >= 1
            && replicas <= 15
            && calls >= 1
            && calls <= 1_000_000
            && flights >= 1
            && flights <= 16_000_000;
        if !in_range {
            return None;
        }
        Some(Config {
            quorums: Quorums::majority(replicas),
            reads: ReadMode::Full,
            calls,
            flights,
        })
    }

    /// The same with these reads.
    pub fn with_reads(self, reads: ReadMode) -> Config
        ensures { result ≡ record self { reads = reads } }
    {
        Config { reads, ..self }
    }

    /// The same with those quorums; `None` comes exactly if their count of replicas is another.
    pub fn with_quorums(self, quorums: Quorums) -> Option<Config>
        ensures some { IsSome result ↔ (length quorums.votes ≡ length self.quorums.votes) }
        ensures value { IfSome result (λ config. config ≡ record self { quorums = quorums }) }
    {
        if quorums.replicas() == self.quorums.replicas() {
            Some(Config { quorums, ..self })
        } else {
            None
        }
    }

    /// How many replicas there are.
    pub fn replicas(self) -> u8
        ensures count { result ≡ length self.quorums.votes }
        ensures lawful { IsLawful self.quorums }
    {
        self.quorums.replicas()
    }

    /// The quorums.
    pub fn quorums(self) -> Quorums
        ensures { result ≡ self.quorums }
    {
        self.quorums
    }

    /// How clients read.
    pub fn reads(self) -> ReadMode
        ensures { result ≡ self.reads }
    {
        self.reads
    }

    /// How many calls may be invoked.
    pub fn calls(self) -> u32
        ensures calls { result ≡ self.calls }
        ensures most { result ≤ call_limit }
    {
        self.calls
    }

    /// How many messages may be sent.
    pub fn flights(self) -> u32
        ensures flights { result ≡ self.flights }
        ensures most { result ≤ message_limit }
    {
        self.flights
    }
}
