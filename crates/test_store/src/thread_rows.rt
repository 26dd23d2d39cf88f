//! Rows of several threads: of four callers, and of two that wait for each other.
use crate::gates::Manner;
use crate::rows::{Client, End, ONE, QUIET, Row, TWO};
use crate::shape::{PLAIN, Shape, Votes};
use crate::steps::{Deed, Step, Wanted};
use client_phases::ReadMode;

const THREE: Client = Client { name: 3, ..ONE };

const FOUR: Client = Client { name: 4, ..ONE };

/// A caller's calls.
const CALLS: [Step; 1] = [Step::By(0, Deed::Calls)];

/// Each of four callers is shown its calls, in one hall.
const SEE_CALLS: [Step; 4] = [
    Step::By(0, Deed::SeesItsCalls(1)),
    Step::By(1, Deed::SeesItsCalls(1)),
    Step::By(2, Deed::SeesItsCalls(1)),
    Step::By(3, Deed::SeesItsCalls(1)),
];

/// Each of four callers is shown its calls, in four halls.
const SEE_CALLS_IN_HALLS: [Step; 4] = [
    Step::By(0, Deed::SeesItsCalls(4)),
    Step::By(1, Deed::SeesItsCalls(4)),
    Step::By(2, Deed::SeesItsCalls(4)),
    Step::By(3, Deed::SeesItsCalls(4)),
];

/// Four callers at once, of 50 calls each, over two keys.
const FOUR_CALLERS: Row = Row {
    name: "four callers",
    manner: Manner::FifthAndSeventh,
    clients: &[ONE, TWO, THREE, FOUR],
    threads: &[&CALLS, &CALLS, &CALLS, &CALLS],
    each: 1,
    closing: &SEE_CALLS,
    ..QUIET
};

/// Each of four callers is shown its calls, in 64 halls.
const SEE_CALLS_IN_ALL_HALLS: [Step; 4] = [
    Step::By(0, Deed::SeesItsCalls(64)),
    Step::By(1, Deed::SeesItsCalls(64)),
    Step::By(2, Deed::SeesItsCalls(64)),
    Step::By(3, Deed::SeesItsCalls(64)),
];

/// A call that is held at its answer.
const WRITES: [Step; 1] = [Step::By(0, Deed::Writes("x", Wanted::Answered))];

/// Another call, which has that one go on.
const READS_THEN_LETS_GO: [Step; 3] = [
    Step::AwaitsFirst,
    Step::By(0, Deed::Reads("x", Wanted::Gives("a"))),
    Step::Second,
];

/// A call during which two replicas wait for each other.
const WRITES_WHILE_THEY_MEET: [Step; 2] = [
    Step::By(0, Deed::Writes("x", Wanted::Answered)),
    Step::HaveMet,
];

/// A call that is answered while one replica is at the gate.
const WRITES_BESIDE_ONE: [Step; 1] = [Step::By(0, Deed::Writes("x", Wanted::Answered))];

/// A call in hall 0 while somebody looks on in hall 1.
const WRITES_THEN_LETS_GO: [Step; 3] = [
    Step::AwaitsFirst,
    Step::By(0, Deed::Writes("x", Wanted::Answered)),
    Step::Second,
];

/// Somebody who looks on.
const LOOKS_ON: [Step; 1] = [Step::LooksOn];

/// A write and a read of another caller. The gate counts as come to then, whether it was or not.
const WRITES_THEN_READS: [Step; 3] = [
    Step::By(0, Deed::Writes("x", Wanted::Answered)),
    Step::By(1, Deed::Reads("x", Wanted::Gives("a"))),
    Step::First,
];

/// The same, where a call is answered or isn't.
const TRIES_BOTH: [Step; 3] = [
    Step::By(0, Deed::Writes("x", Wanted::MayBeUnavailable)),
    Step::By(1, Deed::Reads("x", Wanted::MayBeUnavailable)),
    Step::First,
];

/// Stops a replica, once the gate was come to, and has it go on.
const STOPS_ONE: [Step; 3] = [Step::AwaitsFirst, Step::Stops(0, None), Step::Second];

/// Stops two replicas, once the gate was come to, and has it go on.
const STOPS_TWO: [Step; 4] = [
    Step::AwaitsFirst,
    Step::Stops(0, None),
    Step::Stops(1, None),
    Step::Second,
];

/// A row of a write and a read during which replicas are stopped at each of the first 26 places. Client 3
/// makes no call: its thread is the one that stops them.
const STOPPED_AT_PLACES: Row = Row {
    name: "a replica of three stopped at each place",
    manner: Manner::HoldsPlace,
    places: 26,
    clients: &[ONE, TWO, THREE],
    threads: &[&WRITES_THEN_READS, &STOPS_ONE],
    each: 2,
    ..QUIET
};

/// The rows.
pub static THREAD_ROWS: [Row; 12] = [
    FOUR_CALLERS,
    Row {
        name: "four callers in four halls",
        shape: Shape { halls: 4, ..PLAIN },
        closing: &SEE_CALLS_IN_HALLS,
        ..FOUR_CALLERS
    },
    Row {
        name: "four callers whose reads are short",
        shape: Shape {
            reads: ReadMode::Short,
            ..PLAIN
        },
        ..FOUR_CALLERS
    },
    Row {
        name: "four callers of replicas with votes",
        shape: Shape {
            votes: Votes::Uneven,
            ..PLAIN
        },
        ..FOUR_CALLERS
    },
    Row {
        name: "four callers whose parcels go twice",
        manner: Manner::Doubles,
        ..FOUR_CALLERS
    },
    Row {
        name: "four callers of fifteen replicas in 64 halls",
        shape: Shape {
            replicas: 15,
            halls: 64,
            votes: Votes::All,
            ..PLAIN
        },
        closing: &SEE_CALLS_IN_ALL_HALLS,
        ..FOUR_CALLERS
    },
    Row {
        name: "an answer that is held until another caller has his",
        manner: Manner::HoldsAnswer,
        clients: &[ONE, TWO],
        threads: &[&WRITES, &READS_THEN_LETS_GO],
        each: 1,
        ..QUIET
    },
    Row {
        name: "two replicas at once",
        shape: Shape {
            replicas: 2,
            ..PLAIN
        },
        manner: Manner::HoldsReplicas,
        threads: &[&WRITES_WHILE_THEY_MEET],
        each: 1,
        ..QUIET
    },
    // Client 2 makes no call: its thread is the one that looks on.
    Row {
        name: "a call in one hall beside a looker in another",
        shape: Shape { halls: 2, ..PLAIN },
        clients: &[ONE, TWO],
        threads: &[&WRITES_THEN_LETS_GO, &LOOKS_ON],
        each: 1,
        ..QUIET
    },
    Row {
        name: "a store that is closed while a replica is at the gate",
        manner: Manner::KeepsReplica,
        opening: &WRITES_BESIDE_ONE,
        end: End::ClosesAfter(12),
        ..QUIET
    },
    STOPPED_AT_PLACES,
    Row {
        name: "two replicas of three stopped at each place",
        shape: Shape { rounds: 3, ..PLAIN },
        threads: &[&TRIES_BOTH, &STOPS_TWO],
        ..STOPPED_AT_PLACES
    },
];
