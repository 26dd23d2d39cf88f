//! The command: it reads the history, block by block, and writes its pieces.
ghost use Rattle.std.specs.Prelude.{◌≡◌, ◌≤◌, ◌<◌, ◌+◌, ◌++◌, ◌^◌, ℕ, [], List, length, IfErr, IfOk};
ghost use Rattle.counted_devices.specs.DeviceStates.{states};
ghost use Rattle.cli.specs.Devices.{file_states};
ghost use Rattle.cli.specs.declared.status.Status.TheVariants.{Format};
ghost use Rattle.split_command.specs.Endings.{EndsAs, EndsIn, GoesOn, IsFaultSaid, IsFedBy, IsSplitIn, Stands};
ghost use Rattle.split_command.specs.PieceTexts.{AreFresh};

use crate::pieces::Pieces;
use cli::{Failure, Source, Status};
use counted_devices::{CountedRead, CountedWrite};
use file_format::{FaultKind, FileFault};
use history_file::laws::a_feed_has_taken_the_rows_of_its_lines;
use history_file::{LongHistory, RowsFeed};
use std::alloc::{AllocError, Global};
use std::thread::Threads;
use tag::Memory;

/// The most bytes that the history is asked for at once.
const BLOCK: usize = 1_048_576;

/// Why a history isn't split.
#[derive(Clone, Copy, Debug, Drop, PartialEq, Eq)]
pub(crate) enum Stopped {
    /// It has that fault.
    Fault(FileFault),
    /// A piece couldn't be written.
    Output,
    /// Out of memory.
    Memory,
}

impl From<Memory> for Stopped {
    ghost use Rattle.std.specs.Prelude.{◌≡◌};
    ghost use Rattle.split_command.specs.declared.splitting.Stopped.TheVariants.{Memory};

    ghost from_gives = { λ _ stopped. stopped ≡ Memory };

    fn from(_: Memory) -> Stopped {
        Stopped::Memory
    }
}

/// A history that was split.
#[derive(Drop)]
pub struct Split<W> {
    /// The files of its pieces, by number.
    pub files: Vec<W>,
    /// How many calls it has.
    pub calls: u64,
    /// On how many keys.
    pub keys: usize,
}

/// Who is told how far a split is.
pub trait Watch {
    /// So many calls on so many keys were read.
    fn split(&self, calls: u64, keys: usize);

    /// The end is said next.
    fn makes_way(&self);
}

/// Nobody.
#[derive(Clone, Copy, Debug)]
pub struct NoWatch;

impl Watch for NoWatch {
    fn split(&self, _calls: u64, _keys: usize) {}

    fn makes_way(&self) {}
}

/// Room for a block.
fn room(alloc: Global) -> Result<Vec<u8>, AllocError>
    ensures { IfOk result (λ room. length room.items ≡ 1048576) }
{
    vec![in alloc; 0u8; BLOCK]
}

/// Splits the next block of the history. Once a file has failed no more is read.
fn split_block<W: CountedWrite + Drop + Send>(
    rt: &(impl Threads + Sync),
    feed: &mut RowsFeed<Pieces<W>>,
    block: &[u8],
    watch: &impl Watch,
) -> Result<(), Stopped>
    requires { feed.old.fed + length block.now ≤ 2 ^ 62 }
    ensures goes { (bytes : List ℕ) → Stands W.contents bytes feed.old
        → GoesOn W.contents (bytes ++ block.now) result feed.new }
    ensures count { IfOk result (λ done. feed.new.fed ≤ feed.old.fed + length block.now) }
{
    if let Err(fault) = feed.feed(rt, block) {
        return Err(Stopped::Fault(fault));
    }
    let pieces = feed.contents().taker();
    if pieces.has_failed() {
        return Err(Stopped::Output);
    }
    watch.split(pieces.begun(), pieces.key_count());
    Ok(())
}

/// Splits what is left at the end of the history, which has so many pieces.
fn end<W: CountedWrite + Drop + Send>(
    rt: &(impl Threads + Sync),
    feed: RowsFeed<Pieces<W>>,
    parts: usize,
) -> Result<Split<W>, Stopped>
    ensures { (bytes : List ℕ) → Stands W.contents bytes feed
        → EndsAs W.contents parts bytes result }
{
    a_feed_has_taken_the_rows_of_its_lines::<Pieces<W>>();
    // A history has at most 2^62 bytes, so that the number of each line has 64 bits.
    let _bytes = feed.fed();
    match feed.finish(rt) {
        Ok(pieces) => pieces.finish(parts),
        Err(fault) => Err(Stopped::Fault(fault)),
    }
}

/// Splits what the reader gives, block by block, to its end.
fn split_blocks<R, W, L>(
    rt: &(impl Threads + Sync),
    reader: &mut R,
    block: &mut [u8],
    feed: &mut RowsFeed<Pieces<W>>,
    watch: &L,
) -> Result<(), Stopped>
where
    R: CountedRead,
    W: CountedWrite + Drop + Send,
    L: Watch,
    requires some { length block.old ≡ 1048576 }
    requires begun { Stands W.contents [] feed.old }
    ensures { IsFedBy W.contents (states R.remaining R.failures reader.old reader.new) result feed.new }
{
    'reads: loop {
        match reader.read_counted(block) {
            Ok(0) => return Ok(()),
            Ok(count) => split_block(rt, feed, &block[..count], watch)?,
            Err(_) => {
                return Err(Stopped::Fault(FileFault {
                    line: feed.line(),
                    kind: FaultKind::Device,
                }));
            }
        }
    }
}

/// Splits what the reader gives, to its end, and ends the pieces.
fn split_reader<R, W, L>(
    rt: &(impl Threads + Sync),
    alloc: Global,
    reader: &mut R,
    writers: Vec<W>,
    watch: &L,
) -> Result<Split<W>, Stopped>
where
    R: CountedRead,
    W: CountedWrite + Drop + Send,
    L: Watch,
    requires some { 0 < length writers.items }
    requires fresh { AreFresh W.contents writers.items }
    ensures { EndsIn W.contents (length writers.items)
        (states R.remaining R.failures reader.old reader.new) result }
{
    let Ok(mut bytes) = room(alloc) else {
        return Err(Stopped::Memory);
    };
    let parts = writers.len();
    let mut feed = RowsFeed::of(alloc, LongHistory::new(Pieces::new(alloc, writers)?));
    match split_blocks(rt, reader, bytes.as_mut_slice(), &mut feed, watch) {
        Ok(()) => end(rt, feed, parts),
        Err(stopped) => {
            drop(feed);
            Err(stopped)
        }
    }
}

/// Reads the history, of version 1 and of any length, and writes its pieces, one to each of the writers, to which
/// nothing went out yet.
///
/// `Ok` only if the history was read to its end and has no fault, and all pieces went out: the writers, by number, and
/// how many calls on how many keys there are. Else the status, after it was said on `errors` why: a fault of the
/// history as by `check_command`, or that a piece couldn't be written. Then no more is read after the block, in which a
/// fault comes first.
pub fn split_command<'a, R, W, E, L>(
    rt: &(impl Threads + Sync),
    alloc: Global,
    history: &mut Source<'a, R>,
    writers: Vec<W>,
    watch: &L,
    errors: &mut E,
) -> Result<Split<W>, Status>
where
    R: CountedRead,
    W: CountedWrite + Drop + Send,
    E: CountedWrite,
    L: Watch,
    requires some { 0 < length writers.items }
    requires fresh { AreFresh W.contents writers.items }
    ensures split { IfOk result (IsSplitIn W.contents (length writers.items)
        (states R.remaining R.failures history.old.reader history.new.reader)) }
    ensures fault { IfErr result (λ status. status ≡ Format
        → IsFaultSaid (file_states R.remaining R.failures history.old history.new)
        (states E.contents E.failures errors.old errors.new)) }
{
    let ended = split_reader(rt, alloc, &mut history.reader, writers, watch);
    watch.makes_way();
    match ended {
        Ok(split) => Ok(split),
        Err(Stopped::Fault(fault)) => Err(history.faulty(fault).report(errors)),
        Err(Stopped::Memory) => Err(Failure::Memory.report(errors)),
        Err(Stopped::Output) => Err(Failure::Output.report(errors)),
    }
}
