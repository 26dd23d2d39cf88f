//! Why a step is refused.
ghost use Rattle.std.specs.Prelude.{◌≡◌};
ghost use Rattle.world_steps.specs.declared.refusal.Refusal.{Refusal};
ghost use Rattle.world_steps.specs.Numbers.{refusal_name, refusal_number};

use tag::Memory;
use thiserror::Error;

/// Why a step was refused, with its number. Of all reasons that apply it is the one with the lowest
/// number. The world then equals what it was.
#[derive(Clone, Copy, Debug, PartialEq, Eq, Error)]
pub enum Refusal {
    #[error("no replica has that number")]
    NoSuchReplica = 1,
    #[error("no client of that name joined")]
    NoSuchClient = 2,
    #[error("a client of that name joined before")]
    ClientTaken = 3,
    #[error("the client is stopped")]
    ClientStopped = 4,
    #[error("the client has a pending call")]
    ClientBusy = 5,
    #[error("the client neither asks nor puts")]
    NothingToSend = 6,
    #[error("the flight isn't under way")]
    NotInFlight = 7,
    #[error("the client has no answer yet")]
    NotReady = 8,
    #[error("the replica is down")]
    ReplicaDown = 9,
    #[error("the replica is up")]
    ReplicaUp = 10,
    #[error("the flight has 1000 copies")]
    CopiesFull = 11,
    #[error("the record has all the calls that it may have")]
    OpsFull = 12,
    #[error("as many flights were sent as may be")]
    FlightsFull = 13,
    #[error("no memory")]
    Memory = 15,
}

impl Refusal {
    /// Its number, 1 to 15.
    pub fn number(self) -> u8
        ensures { result ≡ refusal_number self }
    {
        self as u8
    }

    /// Its name, as it stands here.
    pub fn name(self) -> &'static str
        ensures { result.now ≡ refusal_name self }
    {
        match self {
            Refusal::NoSuchReplica => "NoSuchReplica",
            Refusal::NoSuchClient => "NoSuchClient",
            Refusal::ClientTaken => "ClientTaken",
            Refusal::ClientStopped => "ClientStopped",
            Refusal::ClientBusy => "ClientBusy",
            Refusal::NothingToSend => "NothingToSend",
            Refusal::NotInFlight => "NotInFlight",
            Refusal::NotReady => "NotReady",
            Refusal::ReplicaDown => "ReplicaDown",
            Refusal::ReplicaUp => "ReplicaUp",
            Refusal::CopiesFull => "CopiesFull",
            Refusal::OpsFull => "OpsFull",
            Refusal::FlightsFull => "FlightsFull",
            Refusal::Memory => "Memory",
        }
    }
}

impl From<Memory> for Refusal {
    ghost from_gives = { λ _ refusal. refusal ≡ Refusal.Memory };

    fn from(_: Memory) -> Refusal {
        Refusal::Memory
    }
}
