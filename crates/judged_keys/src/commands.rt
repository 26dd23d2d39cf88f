//! Commands that judge the keys of a history.
ghost use Rattle.std.specs.Prelude.{MatchOption};
ghost use Rattle.counted_devices.specs.DeviceStates.{states};
ghost use Rattle.cli.specs.Devices.{file_states, writer_states};
ghost use Rattle.cli.specs.Readings.{IsHistoryRead};
ghost use Rattle.judged_keys.specs.Files.{AreRead, EndsOnBoth, EndsOnHistory, StopsAt, StopsAtHistory};

use crate::files::{FaultyFile, files_in, history_in};
use crate::presentation::{Presentation, made_of};
use cli::{Source, Status, conclude};
use counted_devices::{CountedRead, CountedWrite};
use std::alloc::Global;
use std::thread::Threads;

/// How a command ended that judges keys.
#[derive(Clone, Copy, Debug, PartialEq, Eq)]
pub struct Ended {
    pub status: Status,
    /// The file that couldn't be read, if there is one.
    pub faulty: Option<FaultyFile>,
}

/// Reads the history, of version 1 or 2, and then the orders, and writes how their keys are presented,
/// the keys in the order in which `check_command` has them.
///
/// What goes to `out` is that text, once the whole of it is made, or after a failure of `out` a
/// beginning of it; nothing where either file has a fault. `Good` if no key is refused or undecided, and
/// each name that was given is a key's; `Undecided` if no key is refused, but one is undecided; else
/// `Refused`. Files and failures are those of `check_command`. A fault is also answered, so that it can be
/// explained.
pub fn judge_orders_command<'a, P, H, O, W, E>(
    rt: &(impl Threads + Sync),
    alloc: Global,
    history: &mut Source<'a, H>,
    orders: &mut Source<'a, O>,
    shown: &P,
    out: &mut W,
    errors: &mut E,
) -> Ended
where
    P: Presentation,
    H: CountedRead,
    O: CountedRead,
    W: CountedWrite,
    E: CountedWrite,
    ensures ends { EndsOnBoth (P.Presents shown.now)
        (file_states H.remaining H.failures history.old history.new)
        (file_states O.remaining O.failures orders.old orders.new)
        (writer_states W.contents W.failures out.old out.new)
        (writer_states E.contents E.failures errors.old errors.new)
        result.status }
    ensures faulty { let first = states H.remaining H.failures history.old.reader history.new.reader in
        let second = states O.remaining O.failures orders.old.reader orders.new.reader in
        MatchOption result.faulty (AreRead first second) (StopsAt first second) }
{
    match files_in(rt, alloc, &mut history.reader, &mut orders.reader) {
        Ok(files) => Ended {
            status: conclude(made_of(alloc, shown, &files), out, errors),
            faulty: None,
        },
        Err(FaultyFile::History(fault)) => Ended {
            status: history.faulty(fault).report(errors),
            faulty: Some(FaultyFile::History(fault)),
        },
        Err(FaultyFile::Orders(fault)) => Ended {
            status: orders.faulty(fault).report(errors),
            faulty: Some(FaultyFile::Orders(fault)),
        },
    }
}

/// Reads the history, of version 1 or 2, and writes how its keys are presented, the keys hall by hall, in
/// each in the order in which its rows first see them. No key has an order.
///
/// What goes to `out`, and what is answered, are those of `judge_orders_command`. A failure is said on
/// `errors`.
pub fn judge_history_command<'a, P, H, W, E>(
    rt: &(impl Threads + Sync),
    alloc: Global,
    history: &mut Source<'a, H>,
    shown: &P,
    out: &mut W,
    errors: &mut E,
) -> Ended
where
    P: Presentation,
    H: CountedRead,
    W: CountedWrite,
    E: CountedWrite,
    ensures ends { EndsOnHistory (P.Presents shown.now)
        (file_states H.remaining H.failures history.old history.new)
        (writer_states W.contents W.failures out.old out.new)
        (writer_states E.contents E.failures errors.old errors.new)
        result.status }
    ensures faulty { let first = states H.remaining H.failures history.old.reader history.new.reader in
        MatchOption result.faulty (IsHistoryRead first) (StopsAtHistory first) }
{
    match history_in(rt, alloc, &mut history.reader) {
        Ok(files) => Ended {
            status: conclude(made_of(alloc, shown, &files), out, errors),
            faulty: None,
        },
        Err(fault) => Ended {
            status: history.faulty(fault).report(errors),
            faulty: Some(FaultyFile::History(fault)),
        },
    }
}
