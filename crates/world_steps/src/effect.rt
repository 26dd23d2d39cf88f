//! What a step answers.
use client_phases::Taken;
use tag::OpId;

/// What a step did.
#[derive(Clone, Copy, Debug, PartialEq, Eq)]
pub enum Effect {
    /// The client joined.
    Joined,
    /// The call of this number was invoked.
    Invoked(OpId),
    /// The client's request was sent, as the flight of this number.
    Sent(u32),
    /// A replica handled the request, and its reply was sent as the flight of this number.
    Answered(u32),
    /// A client took the reply, and this came of it.
    Taken(Taken),
    /// A copy was lost.
    Lost,
    /// A copy came to the flight.
    Repeated,
    /// The call of this number has its response.
    Responded(OpId),
    /// The client or the replica stopped.
    Stopped,
    /// The replica started.
    Started,
}
