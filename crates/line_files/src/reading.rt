//! Files from readers.
ghost use Rattle.std.specs.Prelude.{ℕ, ◌≡◌, ◌<◌, ◌≤◌, ◌+◌, ◌++◌, List, Option, length, true, false, IfOk};
ghost use Rattle.std.specs.Prelude.{IfErr, OnOk, MatchResult, take};
ghost use Rattle.std.specs.Io.KnownBytes.{IsAtEnd};
ghost use Rattle.counted_devices.specs.DeviceStates.{states, states_since};
ghost use Rattle.counted_devices.specs.Deliveries.{Holds, HoldsAll, ReadsFrom};
ghost use Rattle.counted_devices.specs.FirstFaults.{ReadsOn, StopsFrom, faults_by};
ghost use Rattle.counted_devices.specs.ReadFaults.{FailsFrom};
ghost use Rattle.line_files.specs.Ahead.{StandsAhead, GoesAhead};
ghost use Rattle.line_files.specs.Batches.{IsBatch};
ghost use Rattle.line_files.specs.Feeds.{StandsForLines};

use crate::ahead::{Ahead, LEAST};
use crate::batches::{BLOCK, Batch, Behind, read_batch};
use crate::contents::{Contents, Opens};
use crate::feed::Feed;
use counted_devices::{CountedRead, FaultKind, ReadFault};
use std::alloc::{AllocError, Global};
use std::thread::Threads;

/// How many bytes are judged together: two blocks where threads share them. A single thread judges
/// less than is worth one, so that it starts none, and what it has under way stays at hand.
fn batch_size(threads: usize) -> usize
    ensures { 0 < result }
{
    if threads > 1 { 2 * BLOCK } else { LEAST - 1 }
}

/// Room for batches of that size.
fn room_for(alloc: Global, size: usize) -> Result<Vec<u8>, AllocError>
    ensures { IfOk result (λ room. length room.items ≡ size) }
{
    vec![in alloc; 0u8; size]
}

/// Judges the next batch of the reader: where threads share it, while the lines that wait are read.
fn read_on<C: Contents, R: CountedRead, T: Threads + Sync>(
    rt: &T,
    tools: &C::Tools,
    ahead: Ahead<C, C::Item, C::Fault>,
    reader: &mut R,
    room: &mut [u8],
) -> (
    Result<Ahead<C, C::Item, C::Fault>, ReadFault<C::Fault>>,
    Batch,
)
    requires some { 0 < length room.old }
    requires fed { ahead.fed ≤ R.given reader.old }
    ensures batch { IsBatch R.remaining R.given R.failures reader.old reader.new room.new result.1 }
    ensures goes { (bytes : List ℕ) → StandsAhead C.Reads C.context C.Shows bytes ahead
        → GoesAhead C.Reads C.context C.Shows C.rules (bytes ++ take result.1.count room.new)
        result.0 }
    ensures count { IfOk result.0 (λ new. new.fed ≡ ahead.fed + result.1.count) }
{
    match ahead.progress.contents.context() {
        Some(under) if room.len() >= LEAST && ahead.waits() => {
            ahead.read_on(rt, under, tools, reader, room)
        }
        _ => {
            let batch = read_batch(reader, room);
            (ahead.advance(rt, tools, &room[..batch.count]), batch)
        }
    }
}

/// Judges the next bytes of the reader, and says whether there were some.
fn read_next<C: Contents, R: CountedRead, T: Threads + Sync>(
    rt: &T,
    tools: &C::Tools,
    ahead: Ahead<C, C::Item, C::Fault>,
    reader: &mut R,
    room: &mut [u8],
) -> Result<(Ahead<C, C::Item, C::Fault>, bool), ReadFault<C::Fault>>
    requires some { 0 < length room.old }
    requires fed { ahead.fed ≤ R.given reader.old }
    ensures goes { (start : Option (List ℕ))
        → Holds (StandsAhead C.Reads C.context C.Shows) start (R.remaining reader.old) ahead
        → ReadsOn (faults_by C.rules)
        (λ bytes next. StandsAhead C.Reads C.context C.Shows bytes next.0)
        (states_since start R.remaining R.failures reader.old reader.new) result }
    ensures fed { IfOk result (λ next. next.0.fed ≤ R.given reader.new) }
    ensures end { IfOk result (λ next. next.1 ≡ false → IsAtEnd (R.remaining reader.new)) }
    ensures more { IfOk result (λ next. next.1 ≡ true → R.given reader.old < R.given reader.new) }
    ensures counted { OnOk result (R.failures reader.new ≡ R.failures reader.old) }
{
    let (next, batch) = read_on(rt, tools, ahead, reader, room);
    let next = next?;
    match batch.behind {
        Behind::More => Ok((next, true)),
        Behind::End => Ok((next, false)),
        Behind::Failure => {
            let feed = next.into_feed()?;
            Err(ReadFault {
                line: feed.line(),
                kind: FaultKind::Device,
            })
        }
    }
}

/// Feeds the bytes of the reader, to its end, in batches.
fn feed_in_blocks<C: Opens, R: CountedRead, T: Threads + Sync>(
    rt: &T,
    alloc: Global,
    tools: &C::Tools,
    reader: &mut R,
) -> Result<Feed<C, C::Fault>, ReadFault<C::Fault>>
    ensures holds { IfOk result (HoldsAll (StandsForLines C.Reads)
        (states R.remaining R.failures reader.old reader.new)) }
    ensures counted { OnOk result (R.failures reader.new ≡ R.failures reader.old) }
    ensures fault { IfErr result (λ fault.
        StopsFrom (faults_by C.rules) (states R.remaining R.failures reader.old reader.new) fault
        × FailsFrom (states R.remaining R.failures reader.old reader.new) fault) }
{
    let size = batch_size(rayon::current_num_threads(rt));
    let Ok(mut bytes) = room_for(alloc, size) else {
        return Err(ReadFault {
            line: 1,
            kind: FaultKind::Memory,
        });
    };
    let room = bytes.as_mut_slice();
    let mut ahead = Ahead::of(Feed::of(alloc, C::opening(alloc)));
    'reads: loop {
        let (next, more) = read_next(rt, tools, ahead, reader, room)?;
        if !more {
            return next.into_feed();
        }
        ahead = next;
    }
}

/// What the reader's bytes are, all of them up to its end.
///
/// A file with a fault is refused with its first one: of lines that came whole the first that has
/// a fault, then `Device` at the line under way where the reader failed. `Memory` comes only where
/// an allocation was refused. The reader keeps what follows the bytes that were read.
pub fn read_file<C: Opens, R: CountedRead>(
    rt: &(impl Threads + Sync),
    alloc: Global,
    reader: &mut R,
) -> Result<C::Whole, ReadFault<C::Fault>>
    ensures read { IfOk result (ReadsFrom C.ReadsWhole
        (states R.remaining R.failures reader.old reader.new)) }
    ensures counted { OnOk result (R.failures reader.new ≡ R.failures reader.old) }
    ensures fault { IfErr result (StopsFrom (faults_by C.rules)
        (states R.remaining R.failures reader.old reader.new)) }
    ensures device { IfErr result (FailsFrom (states R.remaining R.failures reader.old reader.new)) }
{
    let tools = C::tools();
    let feed = feed_in_blocks::<C, R, _>(rt, alloc, &tools, reader)?;
    feed.finish(rt, &tools)
}
