//! The command: it reads the file, block by block.
ghost use Rattle.std.specs.Prelude.{◌≡◌, ◌<◌, [], IfOk, length};
ghost use Rattle.counted_devices.specs.DeviceStates.{states};
ghost use Rattle.cli.specs.Devices.{file_states};
ghost use Rattle.cli.specs.declared.status.Status.TheVariants.{Format, Good, Refused as Is_refused};
ghost use Rattle.cli.specs.declared.status.Status.TheVariants.{Undecided as Is_undecided};
ghost use Rattle.monitor_command.specs.Endings.{EndsIn, IsAtomicIn, IsFaultSaid, IsJudgedTo, IsRefutedIn, IsUndecidedIn, Stands};

use crate::monitoring::{Monitoring, Watch};
use crate::session::{Session, Stopped};
use cli::{Failure, Found, Source, Status};
use counted_devices::{CountedRead, CountedWrite};
use file_format::{FaultKind, FileFault};
use std::alloc::{AllocError, Global};
use std::thread::Threads;

/// The most bytes that the file is asked for at once: as many as a full pipe gives.
const BLOCK: usize = 65_536;

/// Room for a block.
fn room(alloc: Global) -> Result<Vec<u8>, AllocError>
    ensures { IfOk result (λ room. length room.items ≡ 65536) }
{
    vec![in alloc; 0u8; BLOCK]
}

/// Judges what the reader gives, block by block, to its end or to the first refusal. Whether a key is refused, so that
/// the command ends.
fn judge_blocks<R, W, L>(
    rt: &(impl Threads + Sync),
    alloc: Global,
    reader: &mut R,
    block: &mut [u8],
    session: &mut Session,
    asked: Monitoring,
    watch: &L,
    out: &mut W,
) -> Result<bool, Stopped>
where
    R: CountedRead,
    W: CountedWrite,
    L: Watch,
    requires some { length block.old ≡ 65536 }
    requires begun { Stands [] session.old.feed }
    ensures { IsJudgedTo (states R.remaining R.failures reader.old reader.new)
        (states W.contents W.failures out.old out.new) asked result session.new.feed }
{
    'reads: loop {
        match reader.read_counted(block) {
            Ok(0) => return Ok(false),
            Ok(count) => {
                if session.judge(rt, alloc, &block[..count], asked, watch, out)? {
                    return Ok(true);
                }
            }
            Err(_) => {
                return Err(Stopped::Fault(FileFault {
                    line: session.line(),
                    kind: FaultKind::Device,
                }));
            }
        }
    }
}

/// Judges what the reader gives, to its end or to the first refusal.
fn monitor<R, W, L>(
    rt: &(impl Threads + Sync),
    alloc: Global,
    reader: &mut R,
    asked: Monitoring,
    watch: &L,
    out: &mut W,
) -> Result<Found, Stopped>
where
    R: CountedRead,
    W: CountedWrite,
    L: Watch,
    ensures { EndsIn (states R.remaining R.failures reader.old reader.new)
        (states W.contents W.failures out.old out.new) asked result }
{
    let Ok(mut bytes) = room(alloc) else {
        return Err(Stopped::Memory);
    };
    let block = bytes.as_mut_slice();
    let mut session = Session::new(alloc, asked);
    match judge_blocks(rt, alloc, reader, block, &mut session, asked, watch, out) {
        Ok(false) => session.end(rt, alloc, asked, watch, out),
        Ok(true) => {
            drop(session);
            Ok(Found::Refused)
        }
        Err(stopped) => {
            drop(session);
            Err(stopped)
        }
    }
}

/// Reads the history, of version 1 and of any length, judges each line when it has come, and writes what is found: of
/// the first key that is refused why no order of its calls is possible, or with `all` of each; and at the end how many
/// calls on how many keys there were.
///
/// `Good` only if the calls of each key have an order; `Refused` only if the calls of a key have none, up to a row that
/// was read; without `all` no more is read then. `Undecided` if no key is refused, but one has an undecided read or one
/// that was answered after it was given up. A fault of the file is said on `errors`, as by `check_command`.
pub fn monitor_command<'a, R, W, E, L>(
    rt: &(impl Threads + Sync),
    alloc: Global,
    history: &mut Source<'a, R>,
    asked: Monitoring,
    watch: &L,
    out: &mut W,
    errors: &mut E,
) -> Status
where
    R: CountedRead,
    W: CountedWrite,
    E: CountedWrite,
    L: Watch,
    ensures atomic { result ≡ Good
        → IsAtomicIn (states R.remaining R.failures history.old.reader history.new.reader)
        (states W.contents W.failures out.old out.new) asked }
    ensures refused { result ≡ Is_refused
        → IsRefutedIn (states R.remaining R.failures history.old.reader history.new.reader)
        (states W.contents W.failures out.old out.new) asked }
    ensures undecided { result ≡ Is_undecided
        → IsUndecidedIn (states R.remaining R.failures history.old.reader history.new.reader)
        (states W.contents W.failures out.old out.new) asked }
    ensures fault { result ≡ Format
        → IsFaultSaid (file_states R.remaining R.failures history.old history.new)
        (states E.contents E.failures errors.old errors.new) }
{
    let ended = monitor(rt, alloc, &mut history.reader, asked, watch, out);
    watch.makes_way();
    match ended {
        Ok(Found::Good) => Status::Good,
        Ok(Found::Refused) => Status::Refused,
        Ok(Found::Undecided) => Status::Undecided,
        Err(Stopped::Fault(fault)) => history.faulty(fault).report(errors),
        Err(Stopped::Memory) => Failure::Memory.report(errors),
        Err(Stopped::Output) => Failure::Output.report(errors),
    }
}
