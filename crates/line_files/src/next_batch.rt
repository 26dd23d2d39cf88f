//! Batches of a reader, and what their lines show.
ghost use Rattle.std.specs.Prelude.{◌<◌, ◌≤◌, ◌+◌, ◌++◌, Some, length, take, IfOk};
ghost use Rattle.counted_devices.specs.Cuts.{HasNoEnd};
ghost use Rattle.line_files.specs.Ahead.{IsJudged};
ghost use Rattle.line_files.specs.Batches.{IsBatch};

use crate::batches::{Batch, read_batch};
use crate::contents::Contents;
use crate::judge_blocks::judge_block;
use crate::judged_lines::JudgedLines;
use counted_devices::CountedRead;
use std::mem;
use std::thread::Threads;
use tag::Memory;

/// Reads the next batch, and judges its lines under that context.
pub(crate) fn read_and_judge<C: Contents, R: Threads + Sync, S: CountedRead>(
    rt: &R,
    under: C::Context,
    tools: &C::Tools,
    rest: &mut Vec<u8>,
    reader: &mut S,
    room: &mut [u8],
) -> (Batch, Result<JudgedLines<C::Item, C::Fault>, Memory>)
    requires { 0 < length room.old }
    ensures batch { IsBatch S.remaining S.given S.failures reader.old reader.new room.new result.0 }
    ensures judged { IfOk result.1 (λ judged. HasNoEnd rest.old.items
        → IsJudged C.Shows (Some under) (rest.old.items ++ take result.0.count room.new) judged) }
    ensures room { IfOk result.1 (λ judged. length judged.judgements + length judged.rest.items
        ≤ length rest.old.items + result.0.count) }
{
    let batch = read_batch(reader, room);
    let alloc = *rest.allocator();
    let begun = mem::replace(rest, Vec::new(alloc));
    let judged = judge_block::<C, R>(rt, Some(under), tools, 1, begun, &room[..batch.count]);
    (batch, judged)
}
