//! How large a load is.
ghost use Rattle.std.specs.Prelude.{◌≡◌, ◌↔◌, IsSome, IfSome};
ghost use Rattle.load.specs.Loads.{IsWithinLimits};

use crate::ranges::{CALLERS, CALLS, FAULTS, KEYS, ROUNDS};
use client_phases::ReadMode;
use quorum::Quorums;
use recorder::Halls;
use std::marker::Model;

/// What is fixed of a load before it starts.
#[derive(Clone, Copy, Debug, PartialEq, Eq)]
pub struct LoadOptions {
    /// The replicas, with their quorums.
    pub quorums: Quorums,
    /// How clients read.
    pub reads: ReadMode,
    /// How many halls the store has.
    pub halls: Halls,
    /// How many rounds of messages a phase of a call makes, 1 to 10,000.
    pub rounds: u16,
    /// How many callers there are, 1 to 16; their names are 1 and so on.
    pub callers: u8,
    /// How many calls each caller makes, 1 to 10,000.
    pub calls: u16,
    /// How many keys there are, 1 to 8: `k0`, `k1` and so on.
    pub keys: u8,
    /// Every so many-th parcel is lost, and none where it is 0; at most 1,000.
    pub drop: u16,
    /// Of the others every so many-th is doubled, and none where it is 0; at most 1,000.
    pub double: u16,
}

/// A load within the ranges.
#[derive(Clone, Copy, Debug, PartialEq, Eq)]
pub struct Load {
    options: LoadOptions,
}

impl Model for Load {
    ghost use Rattle.load.specs.declared.load.LoadOptions.{LoadOptions};

    ghost Value = { LoadOptions };

    ghost use Rattle.load.specs.Loads.{IsWithinLimits};

    ghost view = { λ l. l.options };

    ghost invariant = { λ l. IsWithinLimits l.options };

    ghost inverse = { λ o. record { options = o } };
}

impl Load {
    /// The load of these options. `None` comes exactly outside the ranges.
    pub fn new(options: LoadOptions) -> Option<Load>
        ensures some { IsSome result ↔ IsWithinLimits options }
        ensures value { IfSome result (λ load. load ≡ options) }
    {
        let are_calls = CALLERS.has(u32::from(options.callers))
            && CALLS.has(u32::from(options.calls))
            && KEYS.has(u32::from(options.keys));
        let are_rounds = ROUNDS.has(u32::from(options.rounds))
            && FAULTS.has(u32::from(options.drop))
            && FAULTS.has(u32::from(options.double));
        if are_calls && are_rounds {
            Some(Load { options })
        } else {
            None
        }
    }

    /// What is fixed of it.
    pub fn options(self) -> LoadOptions
        ensures options { result ≡ self }
        ensures within { IsWithinLimits result }
    {
        self.options
    }
}
