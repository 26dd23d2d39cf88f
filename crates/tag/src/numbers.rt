//! Names that are numbers.
ghost use Rattle.std.specs.Prelude.{◌≡◌, ◌<◌, ◌≤◌, ◌↔◌, IsSome, IfSome, IfOk, MatchResult, ◌⊎◌};
ghost use Rattle.tag.specs.Limits.{client_limit};

use crate::NameError;
use std::marker::Model;

/// A client's name, 1 to 65,535.
#[derive(Clone, Copy, Debug, PartialEq, Eq, PartialOrd, Ord, Hash)]
pub struct ClientId {
    number: u32,
}

impl Model for ClientId {
    ghost use Rattle.std.specs.Prelude.{ℕ, ◌≤◌};
    ghost use Rattle.tag.specs.Limits.{client_limit};

    ghost Value = { ℕ };

    ghost view = { λ c. c.number };

    ghost invariant = { λ c. (1 ≤ c.number) × (c.number ≤ client_limit) };

    ghost inverse = { λ n. record { number = n } };
}

impl ClientId {
    /// The client of that name; `BadClient` comes exactly outside 1 to 65,535.
    pub fn new(number: u32) -> Result<ClientId, NameError>
        ensures { MatchResult result
            (λ client. (client ≡ number) × (1 ≤ number) × (number ≤ client_limit))
            (λ error. (error ≡ NameError.BadClient) × ((number ≡ 0) ⊎ (client_limit < number))) }
    {
        if number >= 1 && number <= 65535 {
            Ok(ClientId { number })
        } else {
            Err(NameError::BadClient)
        }
    }

    /// The name as a number.
    pub fn get(self) -> u32
        ensures name { result ≡ self }
        ensures least { 1 ≤ result }
        ensures most { result ≤ client_limit }
    {
        self.number
    }
}

/// A replica's number, 0 to 14.
#[derive(Clone, Copy, Debug, PartialEq, Eq, PartialOrd, Ord, Hash)]
pub struct ReplicaId {
    index: u8,
}

impl Model for ReplicaId {
    ghost use Rattle.std.specs.Prelude.{ℕ, ◌≤◌};

    ghost Value = { ℕ };

    ghost view = { λ r. r.index };

    ghost invariant = { λ r. r.index ≤ 14 };

    ghost inverse = { λ n. record { index = n } };
}

impl ReplicaId {
    /// The replica of that number; `None` comes exactly above 14.
    pub fn new(number: u8) -> Option<ReplicaId>
        ensures some { IsSome result ↔ (number ≤ 14) }
        ensures value { IfSome result (λ replica. replica ≡ number) }
    {
        if number <= 14 {
            Some(ReplicaId { index: number })
        } else {
            None
        }
    }

    /// The number.
    pub fn get(self) -> u8
        ensures number { result ≡ self }
        ensures most { result ≤ 14 }
    {
        self.index
    }
}

/// A call's number: how many calls its history had before it.
#[derive(Clone, Copy, Debug, PartialEq, Eq, PartialOrd, Ord, Hash)]
pub struct OpId(pub u32);
