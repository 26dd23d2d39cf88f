//! Why the network refuses.
ghost use Rattle.std.specs.Prelude.{◌≡◌};
ghost use Rattle.network.specs.declared.refusals.NetRefusal.{NetRefusal};
ghost use Rattle.network.specs.Numbers.{net_refusal_number};

use tag::Memory;
use thiserror::Error;

/// Why a call of the pool was refused, with its number in the table of refusals. The pool then
/// equals what it was.
#[derive(Clone, Copy, Debug, PartialEq, Eq, Error)]
pub enum NetRefusal {
    #[error("the flight isn't under way")]
    NotInFlight = 7,
    #[error("the flight has 1000 copies")]
    CopiesFull = 11,
    #[error("as many flights were sent as may be")]
    FlightsFull = 13,
    #[error("no memory")]
    Memory = 15,
}

impl NetRefusal {
    /// Its number in the table of refusals: 7, 11, 13 or 15.
    pub fn number(self) -> u8
        ensures { result ≡ net_refusal_number self }
    {
        self as u8
    }
}

impl From<Memory> for NetRefusal {
    ghost from_gives = { λ _ refusal. refusal ≡ NetRefusal.Memory };

    fn from(_: Memory) -> NetRefusal {
        NetRefusal::Memory
    }
}
