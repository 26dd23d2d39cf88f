//! What a caller sees of a client.
use tag::Tag;

/// Where a client stands with its call.
#[derive(Clone, Copy, Debug, PartialEq, Eq)]
pub enum Phase {
    /// No call is pending.
    Idle,
    /// It asks replicas what they hold.
    Ask,
    /// It puts a pair.
    Put,
    /// The answer is there.
    Ready,
    /// It takes no further step.
    Stopped,
}

/// What a client made of a reply.
#[derive(Clone, Copy, Debug, PartialEq, Eq)]
pub enum Taken {
    /// Nothing: the reply doesn't count.
    Stale,
    /// It counts, and the phase goes on.
    Counted,
    /// The asking is over, and the pair of this tag is put.
    Noted(Tag),
    /// The asking is over, and the read answers the pair of this tag at once.
    Agreed(Tag),
    /// The putting is over, and the answer is there.
    Ready,
}
