//! Blocks of a file, cut into lines that are judged.
ghost use Rattle.std.specs.Prelude.{◌≡◌, ◌≤◌, ◌+◌, ◌++◌, None, length, IfOk};
ghost use Rattle.line_files.specs.Ahead.{IsJudged};
ghost use Rattle.counted_devices.specs.Cuts.{HasNoEnd};

use crate::contents::Contents;
use crate::judged_lines::JudgedLines;
use crate::side_by_side::judge_chunks;
use counted_devices::{cut_chunks, first_end};
use std::thread::Threads;
use tag::Memory;

/// Judges, under that context, the whole lines of the rest and the block after it. Without a context
/// the block ends no line.
///
/// The block's first line is put after the rest; the others are judged where they lie, by as many threads
/// as there are processors beside those that are busy.
pub(crate) fn judge_block<C: Contents, R: Threads + Sync>(
    rt: &R,
    context: Option<C::Context>,
    tools: &C::Tools,
    busy: usize,
    rest: Vec<u8>,
    block: &[u8],
) -> Result<JudgedLines<C::Item, C::Fault>, Memory>
    ensures judged { IfOk result (λ judged. HasNoEnd rest.items
        → (context ≡ None → HasNoEnd block.now)
        → IsJudged C.Shows context (rest.items ++ block.now) judged) }
    ensures room { IfOk result (λ judged. length judged.judgements + length judged.rest.items
        ≤ length rest.items + length block.now) }
{
    let Some(under) = context else {
        return JudgedLines::of_no_line(rest, block);
    };
    let Some(end) = first_end(block) else {
        return JudgedLines::of_no_line(rest, block);
    };
    let alloc = *rest.allocator();
    let mut first = rest;
    first.extend_from_slice(&block[..end])?;
    let mut found = cut_chunks(alloc, &block[end + 1..])?;
    found.chunks.insert(0, first.as_slice())?;
    let judgements = judge_chunks::<C, R>(rt, alloc, under, tools, busy, found.chunks.as_slice())?;
    Ok(JudgedLines {
        judgements,
        rest: Vec::from_slice(alloc, found.rest)?,
    })
}
