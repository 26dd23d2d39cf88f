//! What is done in a row, step by step.
use node_threads::CallError;
use world_steps::Refusal;

/// What has to come of a call.
#[derive(Clone, Copy)]
pub enum Wanted<'a> {
    /// It is answered.
    Answered,
    /// It reads that text.
    Gives(&'a str),
    /// It ends in that error.
    Fails(CallError),
    /// It is answered, or unavailable.
    MayBeUnavailable,
}

/// What a seat is shown of a hall's record.
#[derive(Clone, Copy, PartialEq, Eq)]
pub enum Shown {
    /// The store lacks the hall.
    NoHall,
    /// The seat is foreign there.
    Foreign,
    /// There was no memory.
    Nothing,
    /// So many calls of the seat's client.
    Calls(usize),
}

/// What is done with a seat, or holds of it.
#[derive(Clone, Copy)]
pub enum Deed {
    /// Writes `a` to the key of that name.
    Writes(&'static str, Wanted<'static>),
    /// Reads the key of that name.
    Reads(&'static str, Wanted<'static>),
    /// Meets the receipt of the last call, and has seen its response then.
    Meets,
    /// Meets no receipt of the last call, since the seat is foreign to it.
    FailsToMeet,
    /// Is spent, or isn't.
    IsSpent(bool),
    /// Has so many calls in its log.
    HasLogged(usize),
    /// Has seen so many rows of hall 0.
    HasSeen(usize),
    /// Is shown that of the hall.
    IsShown(u8, Shown),
    /// Is shown so many rows of the hall.
    SeesRows(u8, usize),
    /// Makes the 50 calls of a caller.
    Calls,
    /// Is shown its 50 calls, in so many halls together.
    SeesItsCalls(u8),
}

/// A step: what is done, and has to come out so.
#[derive(Clone, Copy)]
pub enum Step {
    /// The next steps are on the row's store, as those before the first of these two are.
    Here,
    /// The next steps are on the other store.
    There,
    /// With the seat of that place.
    By(usize, Deed),
    /// The replica goes down in all halls, or isn't stopped for that reason.
    Stops(u8, Option<Refusal>),
    /// The replica goes up in all halls, or isn't started for that reason.
    Starts(u8, Option<Refusal>),
    /// Replica 1 goes down in each of so many halls, once, and up again in each, once; replicas 0 and 2 are up.
    GoesDownAndUp(u8),
    /// Hall 0 has no row, and no message was sent there.
    IsUntouched,
    /// Somebody looks on in hall 1 from when the first has come so far until the second has; and there is no hall 2.
    LooksOn,
    /// The first comes so far.
    First,
    /// The second comes so far.
    Second,
    /// Waits until the first has come so far.
    AwaitsFirst,
    /// Both have come so far.
    HaveMet,
}
