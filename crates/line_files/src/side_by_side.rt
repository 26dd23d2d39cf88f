//! Chunks of a file that are judged side by side.
ghost use Rattle.std.specs.Prelude.{◌∷◌, ◌<◌, [], IfOk, map};
ghost use Rattle.std.specs.List.{AllZip};
ghost use Rattle.std.specs.Thread.{IsSync};
ghost use Rattle.counted_devices.specs.Judgements.{ShowChunks};

use crate::contents::Contents;
use crate::judgements::Judgements;
use counted_devices::Judgement;
use rayon::prelude::*;
use std::alloc::Global;
use std::thread::{Threads, join};
use tag::Memory;

/// So few processors are shared with a busy thread, since the others would have more to do than it.
const FEW: usize = 3;

/// What the lines of each chunk show under that context, in order. The chunks are one piece of work, for
/// which no thread is started.
fn judge_in_turn<C: Contents, R: Threads + Sync>(
    rt: &R,
    alloc: Global,
    under: C::Context,
    tools: &C::Tools,
    chunks: &[&[u8]],
) -> Result<Vec<Vec<Judgement<C::Item, C::Fault>>>, Memory>
    requires { IsSync R.row }
    ensures { IfOk result (λ runs. AllZip
        (λ chunk run. ShowChunks (C.Shows under) (chunk.now ∷ []) run.items)
        chunks.now runs.items) }
{
    let runs: Result<Vec<Vec<Judgement<C::Item, C::Fault>>>, Memory> = chunks
        .par_iter()
        .with_min_len(chunks.len())
        .map(
            |chunk: &&[u8]| -> Result<Vec<Judgement<C::Item, C::Fault>>, Memory>
                ensures { IfOk result (λ run. ShowChunks (C.Shows under)
                    (chunk.now.now ∷ []) run.items) }
            { C::judge_chunk(alloc, under, tools, chunk) },
        )
        .collect(rt, alloc)?;
    runs
}

/// The same, by so many threads, of which this is one and has the last of the chunks. Each has about as
/// many chunks as another.
#[cycle(shares)]
fn judge_shares<C: Contents, R: Threads + Sync>(
    rt: &R,
    alloc: Global,
    under: C::Context,
    tools: &C::Tools,
    threads: usize,
    chunks: &[&[u8]],
) -> Result<Vec<Vec<Judgement<C::Item, C::Fault>>>, Memory>
    requires { IsSync R.row }
    ensures { IfOk result (λ runs. AllZip
        (λ chunk run. ShowChunks (C.Shows under) (chunk.now ∷ []) run.items)
        chunks.now runs.items) }
{
    if threads < 2 {
        return judge_in_turn::<C, R>(rt, alloc, under, tools, chunks);
    }
    let (share, others) = chunks.split_at(chunks.len() / threads);
    let front = move || -> Result<Vec<Vec<Judgement<C::Item, C::Fault>>>, Memory>
        requires { IsSync R.row }
        ensures { IfOk result (λ runs. AllZip
            (λ chunk run. ShowChunks (C.Shows under) (chunk.now ∷ []) run.items)
            share.entry.now runs.items) }
    { judge_in_turn::<C, R>(rt, alloc, under, tools, share) };
    let back = move || -> Result<Vec<Vec<Judgement<C::Item, C::Fault>>>, Memory>
        requires { IsSync R.row × (1 < threads) }
        ensures { IfOk result (λ runs. AllZip
            (λ chunk run. ShowChunks (C.Shows under) (chunk.now ∷ []) run.items)
            others.entry.now runs.items) }
    { judge_shares::<C, R>(rt, alloc, under, tools, threads - 1, others) };
    let (first, later) = join(rt, front, back);
    let mut runs = first?;
    runs.append(&mut later?)?;
    Ok(runs)
}

/// What the lines of the chunks show under that context, in order. Chunks are judged side by side by as
/// many threads as there are processors, without the busy ones if they are more than a few; two or three
/// chunks, all that a single thread judges at once, by this one.
pub(crate) fn judge_chunks<C: Contents, R: Threads + Sync>(
    rt: &R,
    alloc: Global,
    under: C::Context,
    tools: &C::Tools,
    busy: usize,
    chunks: &[&[u8]],
) -> Result<Judgements<C::Item, C::Fault>, Memory>
    requires { IsSync R.row }
    ensures { IfOk result (λ judgements. ShowChunks (C.Shows under)
        (map (λ chunk. chunk.now) chunks.now) judgements) }
{
    let threads = if chunks.len() < 4 {
        1
    } else {
        let all = rayon::current_num_threads(rt);
        let free = if all > FEW {
            all.saturating_sub(busy)
        } else {
            all
        };
        free.min(chunks.len() / 2)
    };
    let runs = judge_shares::<C, R>(rt, alloc, under, tools, threads, chunks)?;
    Ok(Judgements::of(runs))
}
