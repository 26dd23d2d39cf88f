//! Rows of calls of one client on `k0`: the journal that they leave, and what their gate was asked.
use crate::gates::Manner;
use crate::rows::{QUIET, Row};
use crate::shape::{PLAIN, Shape};
use crate::steps::{Deed, Shown, Step, Wanted};
use client_phases::ReadMode;
use node_threads::{CallError, Pass};

/// A row, and which of the texts that its calls leave it is about.
#[derive(Clone, Copy)]
pub struct JournalRow {
    pub row: Row,
    pub about: About,
}

/// What a row is about.
#[derive(Clone, Copy)]
pub enum About {
    /// The steps of the hall of `k0`.
    Journal,
    /// The places that the gate was asked at.
    Places,
    /// The replicas that requests went to, in order, and how many replies came of replicas 0, 1 and 2.
    Parcels,
    /// How many steps sent, repeated, delivered and lost a message.
    Counts,
}

const WRITES: [Step; 1] = [Step::By(0, Deed::Writes("k0", Wanted::Answered))];

const WRITES_TWICE: [Step; 2] = [
    Step::By(0, Deed::Writes("k0", Wanted::Answered)),
    Step::By(0, Deed::Writes("k0", Wanted::Answered)),
];

const WRITES_AND_LOOKS: [Step; 4] = [
    Step::By(0, Deed::IsShown(0, Shown::Calls(0))),
    Step::By(0, Deed::Writes("k0", Wanted::Answered)),
    Step::By(0, Deed::IsShown(0, Shown::Calls(1))),
    Step::By(0, Deed::SeesRows(0, 3)),
];

const WRITES_IN_VAIN: [Step; 1] = [Step::By(
    0,
    Deed::Writes("k0", Wanted::Fails(CallError::Unavailable)),
)];

const READS: [Step; 1] = [Step::By(0, Deed::Reads("k0", Wanted::Answered))];

/// A store of one replica.
const ALONE: Shape = Shape {
    replicas: 1,
    rounds: 10,
    ..PLAIN
};

/// A write in a store of one replica and one hall, all of whose parcels are let through.
const WRITE: Row = Row {
    name: "a quiet write",
    shape: ALONE,
    manner: Manner::WritesDown(0, Pass::Go),
    opening: &WRITES,
    ..QUIET
};

/// The rows. With one replica and one client each journal but one is the same whatever the schedule.
pub static JOURNAL_ROWS: [JournalRow; 14] = [
    JournalRow {
        row: WRITE,
        about: About::Journal,
    },
    JournalRow {
        row: Row {
            name: "a quiet read",
            opening: &READS,
            ..WRITE
        },
        about: About::Journal,
    },
    JournalRow {
        row: Row {
            name: "a quiet read, short",
            shape: Shape {
                reads: ReadMode::Short,
                ..ALONE
            },
            opening: &READS,
            ..WRITE
        },
        about: About::Journal,
    },
    JournalRow {
        row: Row {
            name: "the first request is lost",
            manner: Manner::WritesDown(1, Pass::Drop),
            ..WRITE
        },
        about: About::Journal,
    },
    JournalRow {
        row: Row {
            name: "the first reply is lost",
            manner: Manner::WritesDown(2, Pass::Drop),
            ..WRITE
        },
        about: About::Journal,
    },
    JournalRow {
        row: Row {
            name: "the first reply goes twice",
            manner: Manner::WritesDown(2, Pass::Twice),
            ..WRITE
        },
        about: About::Journal,
    },
    JournalRow {
        row: Row {
            name: "the second reply is lost",
            manner: Manner::WritesDown(4, Pass::Drop),
            ..WRITE
        },
        about: About::Journal,
    },
    JournalRow {
        row: Row {
            name: "the first request goes twice",
            manner: Manner::WritesDown(1, Pass::Twice),
            ..WRITE
        },
        about: About::Counts,
    },
    JournalRow {
        row: Row {
            name: "snapshots before a quiet write and after it",
            opening: &WRITES_AND_LOOKS,
            ..WRITE
        },
        about: About::Journal,
    },
    JournalRow {
        row: Row {
            name: "every reply lost in each of 20 rounds",
            shape: Shape {
                rounds: 20,
                ..ALONE
            },
            manner: Manner::LosesReplies,
            opening: &WRITES_IN_VAIN,
            ..WRITE
        },
        about: About::Counts,
    },
    JournalRow {
        row: Row {
            name: "every reply but the first lost, 20 rounds of the second phase",
            shape: Shape {
                rounds: 20,
                ..ALONE
            },
            manner: Manner::LosesLaterReplies,
            opening: &WRITES_IN_VAIN,
            ..WRITE
        },
        about: About::Counts,
    },
    JournalRow {
        row: Row {
            name: "the places of two quiet writes",
            opening: &WRITES_TWICE,
            ..WRITE
        },
        about: About::Places,
    },
    JournalRow {
        row: Row {
            name: "the places of a quiet write in the second of two halls",
            shape: Shape { halls: 2, ..ALONE },
            ..WRITE
        },
        about: About::Places,
    },
    JournalRow {
        row: Row {
            name: "the parcels of a quiet write to three replicas",
            shape: Shape {
                replicas: 3,
                ..ALONE
            },
            ..WRITE
        },
        about: About::Parcels,
    },
];
