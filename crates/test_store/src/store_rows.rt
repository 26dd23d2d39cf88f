//! Rows of hostile gates, seats and stores.
use crate::gates::Manner;
use crate::rows::{Client, End, ONE, OTHER_ONE, QUIET, Row, TWO};
use crate::shape::{PLAIN, Shape, Votes};
use crate::steps::{Deed, Shown, Step, Wanted};
use node_threads::{CallError, JoinError};
use world_steps::Refusal;

/// A store for a few calls.
const SMALL: Shape = Shape {
    flights: 1000,
    ..PLAIN
};

/// A second call finds the record full, its seat isn't spent, and a third finds the same.
const FILLS_RECORD: [Step; 4] = [
    Step::By(0, Deed::Writes("x", Wanted::Answered)),
    Step::By(0, Deed::Reads("x", Wanted::Fails(CallError::Full))),
    Step::By(0, Deed::Reads("x", Wanted::Fails(CallError::Full))),
    Step::By(0, Deed::IsSpent(false)),
];

/// A call that runs out of messages leaves its seat spent, with one pending entry, and the record has the one pending
/// call.
const RUNS_OUT: [Step; 4] = [
    Step::By(0, Deed::Reads("x", Wanted::Fails(CallError::Full))),
    Step::By(0, Deed::Reads("x", Wanted::Fails(CallError::SeatSpent))),
    Step::By(0, Deed::IsSpent(true)),
    Step::By(0, Deed::HasLogged(1)),
];

/// A receipt of another store isn't met, a seat makes no call in another store and is shown no record of it,
/// and a store isn't closed with a seat of another.
const IS_FOREIGN: [Step; 9] = [
    Step::There,
    Step::By(1, Deed::Writes("x", Wanted::Answered)),
    Step::By(0, Deed::FailsToMeet),
    Step::By(0, Deed::Reads("x", Wanted::Fails(CallError::Foreign))),
    Step::By(0, Deed::HasSeen(0)),
    Step::By(0, Deed::HasLogged(0)),
    Step::By(0, Deed::IsShown(0, Shown::Foreign)),
    Step::Here,
    Step::By(0, Deed::IsShown(1, Shown::NoHall)),
];

/// Without a reply a call is unavailable, and its seat is spent.
const IS_UNAVAILABLE: [Step; 2] = [
    Step::By(0, Deed::Reads("x", Wanted::Fails(CallError::Unavailable))),
    Step::By(0, Deed::IsSpent(true)),
];

/// What is doubled does no harm.
const IS_DOUBLED: [Step; 3] = [
    Step::By(0, Deed::Writes("x", Wanted::Answered)),
    Step::By(1, Deed::Meets),
    Step::By(1, Deed::Reads("x", Wanted::Gives("a"))),
];

/// Two of three replicas go down, once, and a call is unavailable; they come back, once, and a call is answered.
const STOPS_TWO: [Step; 9] = [
    Step::Stops(0, None),
    Step::Stops(1, None),
    Step::Stops(0, Some(Refusal::ReplicaDown)),
    Step::Stops(3, Some(Refusal::NoSuchReplica)),
    Step::By(0, Deed::Reads("x", Wanted::Fails(CallError::Unavailable))),
    Step::Starts(0, None),
    Step::Starts(1, None),
    Step::Starts(0, Some(Refusal::ReplicaUp)),
    Step::By(1, Deed::Reads("x", Wanted::Answered)),
];

/// A replica goes down in each of two halls and of 64, once, and up again in each, once.
const STOPS_IN_HALLS: [Step; 3] = [Step::GoesDownAndUp(2), Step::There, Step::GoesDownAndUp(64)];

/// Each of fifteen replicas has to answer: with the last of them down a call is unavailable.
const NEEDS_ALL_REPLICAS: [Step; 6] = [
    Step::By(0, Deed::Writes("x", Wanted::Answered)),
    Step::By(1, Deed::Reads("x", Wanted::Gives("a"))),
    Step::Stops(14, None),
    Step::By(0, Deed::Reads("x", Wanted::Fails(CallError::Unavailable))),
    Step::Starts(14, None),
    Step::By(1, Deed::Reads("x", Wanted::Gives("a"))),
];

/// Of 64 halls `xG` is in the last, `wG` in the one before it, `H` in hall 8 and `x` in hall 56.
const CALLS_IN_HALLS: [Step; 9] = [
    Step::By(0, Deed::Writes("xG", Wanted::Answered)),
    Step::By(0, Deed::Writes("wG", Wanted::Answered)),
    Step::By(0, Deed::Writes("H", Wanted::Answered)),
    Step::By(1, Deed::Reads("xG", Wanted::Gives("a"))),
    Step::By(1, Deed::Reads("wG", Wanted::Gives("a"))),
    Step::By(1, Deed::Reads("H", Wanted::Gives("a"))),
    Step::By(0, Deed::IsShown(63, Shown::Calls(1))),
    Step::By(0, Deed::IsShown(56, Shown::Calls(0))),
    Step::By(0, Deed::IsShown(64, Shown::NoHall)),
];

/// A seat that has made no call is shown the rows of the hall that it asks for: of two halls `k0` is in the second.
const SEES_HALLS: [Step; 5] = [
    Step::By(0, Deed::Writes("k0", Wanted::Answered)),
    Step::By(1, Deed::SeesRows(0, 0)),
    Step::By(1, Deed::SeesRows(1, 3)),
    Step::By(0, Deed::SeesRows(0, 0)),
    Step::By(1, Deed::HasSeen(0)),
];

/// A seat of a store of one hall makes no call in a store of that number with two halls, is shown no record of it, and
/// doesn't close it.
const IS_OF_OTHER_HALLS: [Step; 5] = [
    Step::By(0, Deed::Reads("x", Wanted::Fails(CallError::Foreign))),
    Step::By(0, Deed::HasSeen(0)),
    Step::By(0, Deed::HasLogged(0)),
    Step::By(0, Deed::IsShown(0, Shown::Foreign)),
    Step::By(0, Deed::IsShown(1, Shown::Foreign)),
];

/// A seat that has seen more than its store's record has makes no call, is shown no record, and isn't spent. It met a
/// receipt of another store of that number.
const HAS_SEEN_TOO_MUCH: [Step; 10] = [
    Step::There,
    Step::By(0, Deed::Writes("x", Wanted::Answered)),
    Step::By(1, Deed::Meets),
    Step::Here,
    Step::By(1, Deed::Reads("x", Wanted::Fails(CallError::Foreign))),
    Step::By(1, Deed::IsShown(0, Shown::Foreign)),
    Step::By(1, Deed::IsSpent(false)),
    Step::By(1, Deed::HasLogged(0)),
    Step::By(1, Deed::HasSeen(3)),
    Step::IsUntouched,
];

/// A name joins once.
const JOINS_ONCE: [Client; 2] = [
    Client { name: 7, ..ONE },
    Client {
        name: 7,
        error: Some(JoinError::ClientTaken),
        ..ONE
    },
];

/// The one that joined has made no call.
const HAS_NO_CALL: [Step; 1] = [Step::By(0, Deed::HasLogged(0))];

/// A row of one client in a store for a few calls.
const OF_ONE: Row = Row {
    shape: SMALL,
    ..QUIET
};

/// A row of two clients in it.
const OF_TWO: Row = Row {
    clients: &[ONE, TWO],
    ..OF_ONE
};

/// A row of two such stores, of which the first isn't closed with a seat of the second.
const OF_TWO_STORES: Row = Row {
    other: Some(SMALL),
    end: End::Mismatches,
    ..OF_ONE
};

/// The rows.
pub static STORE_ROWS: [Row; 13] = [
    Row {
        name: "a limit of one call",
        shape: Shape { calls: 1, ..SMALL },
        opening: &FILLS_RECORD,
        ..OF_ONE
    },
    Row {
        name: "a limit of four flights",
        shape: Shape {
            flights: 4,
            ..SMALL
        },
        opening: &RUNS_OUT,
        end: End::LeavesCall,
        ..OF_ONE
    },
    Row {
        name: "two stores",
        other: Some(Shape { store: 2, ..SMALL }),
        clients: &[ONE, OTHER_ONE],
        opening: &IS_FOREIGN,
        ..OF_TWO_STORES
    },
    Row {
        name: "every reply lost",
        shape: Shape { rounds: 2, ..SMALL },
        manner: Manner::LosesReplies,
        opening: &IS_UNAVAILABLE,
        ..OF_ONE
    },
    Row {
        name: "every parcel twice",
        manner: Manner::Doubles,
        opening: &IS_DOUBLED,
        ..OF_TWO
    },
    Row {
        name: "two of three replicas stopped",
        shape: Shape { rounds: 2, ..SMALL },
        opening: &STOPS_TWO,
        ..OF_TWO
    },
    Row {
        name: "a replica stopped in all halls",
        shape: Shape { halls: 2, ..PLAIN },
        other: Some(Shape { halls: 64, ..PLAIN }),
        clients: &[],
        opening: &STOPS_IN_HALLS,
        ..QUIET
    },
    Row {
        name: "fifteen replicas that all have to answer",
        shape: Shape {
            replicas: 15,
            rounds: 2,
            votes: Votes::All,
            ..SMALL
        },
        opening: &NEEDS_ALL_REPLICAS,
        ..OF_TWO
    },
    Row {
        name: "calls in 64 halls",
        shape: Shape { halls: 64, ..SMALL },
        opening: &CALLS_IN_HALLS,
        ..OF_TWO
    },
    Row {
        name: "snapshots of two halls by a seat without a call",
        shape: Shape { halls: 2, ..SMALL },
        opening: &SEES_HALLS,
        ..OF_TWO
    },
    Row {
        name: "a seat of a store with other halls",
        shape: Shape { halls: 2, ..PLAIN },
        clients: &[OTHER_ONE],
        opening: &IS_OF_OTHER_HALLS,
        ..OF_TWO_STORES
    },
    Row {
        name: "a seat that has seen more than there is",
        clients: &[OTHER_ONE, ONE],
        opening: &HAS_SEEN_TOO_MUCH,
        ..OF_TWO_STORES
    },
    Row {
        name: "a name that joined",
        clients: &JOINS_ONCE,
        opening: &HAS_NO_CALL,
        ..OF_ONE
    },
];
