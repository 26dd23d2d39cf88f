//! A file whose lines are judged ahead of where they are read.
ghost use Rattle.std.specs.Prelude.{ℕ, ◌≡◌, ◌≤◌, ◌<◌, ◌+◌, ◌^◌, ◌++◌, List, Some, None, length};
ghost use Rattle.std.specs.Prelude.{IfOk, IfErr, MatchResult, OnOk, take};
ghost use Rattle.std.specs.Thread.{IsSync};
ghost use Rattle.counted_devices.specs.Cuts.{HasNoEnd};

use crate::batches::Batch;
use crate::contents::Contents;
use crate::feed::Feed;
use crate::judge_blocks::judge_block;
use crate::judged_lines::JudgedLines;
use crate::judgements::Judgements;
use crate::next_batch::read_and_judge;
use crate::progress::Progress;
use counted_devices::{CountedRead, LONGEST, ReadFault, Stop};
use std::thread::{Threads, join, join_mut};
use tag::Memory;

/// The least bytes of a batch that is worth a thread.
pub const LEAST: usize = 65_536;

/// What the lines so far made but for the last block's, which were judged and are read while the
/// next block is judged.
#[derive(Drop)]
pub struct Ahead<C, T, L> {
    pub progress: Progress<C>,
    pub judged: JudgedLines<T, L>,
    pub fed: u64,
    ghost few: { fed ≤ 2 ^ 62 },
    ghost room: { progress.lines + length judged.judgements + length judged.rest.items ≤ fed },
}

impl<C: Contents> Ahead<C, C::Item, C::Fault> {
    ghost use Rattle.line_files.specs.Ahead.{IsJudged, IsAhead, StandsAhead, GoesAhead};
    ghost use Rattle.line_files.specs.Ahead.{BecomesFeed, FaultStays};
    ghost use Rattle.line_files.specs.Batches.{IsBatch};
    ghost use Rattle.line_files.specs.Feeds.{StandsForLines};
    ghost use Rattle.line_files.specs.LinesRead.{ReadsShown};

    /// What the feed stands for: no line waits.
    pub(crate) fn of(feed: Feed<C, C::Fault>) -> Ahead<C, C::Item, C::Fault>
        requires { feed.fault ≡ None }
        ensures stands { (bytes : List ℕ) → StandsForLines C.Reads bytes feed
            → StandsAhead C.Reads C.context C.Shows bytes result }
        ensures fed { result.fed ≡ feed.fed }
    {
        let Feed {
            progress,
            rest,
            fed,
            ..
        } = feed;
        let judgements = Judgements::new(*rest.allocator());
        Ahead {
            progress,
            judged: JudgedLines { judgements, rest },
            fed,
        }
    }

    /// The feed that stands for all bytes so far: the lines that waited are read.
    pub(crate) fn into_feed(self) -> Result<Feed<C, C::Fault>, ReadFault<C::Fault>>
        ensures becomes { (bytes : List ℕ) → IsAhead C.Reads C.context C.Shows bytes self
            → BecomesFeed C.rules C.Reads bytes result }
        ensures stays { (bytes : List ℕ) → StandsAhead C.Reads C.context C.Shows bytes self
            → IfErr result (λ fault. FaultStays C.rules bytes fault) }
        ensures fed { IfOk result (λ feed. (feed.fed ≡ self.fed) × (feed.fault ≡ None)) }
    {
        let Ahead {
            mut progress,
            judged,
            fed,
        } = self;
        let rest = progress.catch_up(judged)?;
        Ok(Feed {
            progress,
            rest,
            fed,
            fault: None,
        })
    }

    /// Whether lines wait that were judged.
    pub(crate) fn waits(&self) -> bool {
        !self.judged.judgements.is_empty()
    }

    /// Reads the lines that wait at once where that is asked for, or where the line under way is too long,
    /// which is refused after them.
    fn settle(self, at_once: bool) -> Result<Ahead<C, C::Item, C::Fault>, ReadFault<C::Fault>>
        ensures goes { (bytes : List ℕ) → IsAhead C.Reads C.context C.Shows bytes self
            → GoesAhead C.Reads C.context C.Shows C.rules bytes result }
        ensures count { IfOk result (λ new. new.fed ≡ self.fed) }
    {
        if self.judged.rest.len() <= LONGEST && !at_once {
            return Ok(self);
        }
        Ok(Ahead::of(self.into_feed()?))
    }

    /// Judges the next block while the lines before it are read. A block that isn't worth a
    /// thread, or before which no context came, is read at once.
    pub(crate) fn advance<R: Threads + Sync>(
        self,
        rt: &R,
        tools: &C::Tools,
        block: &[u8],
    ) -> Result<Ahead<C, C::Item, C::Fault>, ReadFault<C::Fault>>
        requires { self.fed + length block.now ≤ 2 ^ 62 }
        ensures goes { (bytes : List ℕ) → StandsAhead C.Reads C.context C.Shows bytes self
            → GoesAhead C.Reads C.context C.Shows C.rules (bytes ++ block.now) result }
        ensures count { IfOk result (λ new. new.fed ≡ self.fed + length block.now) }
    {
        let context = match self.progress.contents.context() {
            Some(context) if block.len() >= LEAST => context,
            _ => {
                let mut feed = self.into_feed()?;
                feed.feed(rt, tools, block)?;
                return Ok(Ahead::of(feed));
            }
        };
        let Ahead {
            progress,
            judged: JudgedLines { judgements, rest },
            fed,
        } = self;
        let (read, next) = join(
            rt,
            || -> Result<Progress<C>, ReadFault<C::Fault>>
                requires { progress.lines + length judgements < 2 ^ 63 }
                ensures read { ReadsShown C.Reads C.rules C.context C.Shows progress judgements result
                    (λ new. new) }
                ensures lines { IfOk result (λ new. new.lines
                    ≡ progress.lines + length judgements) }
            { progress.record_owned(judgements) },
            || -> Result<JudgedLines<C::Item, C::Fault>, Memory>
                requires { IsSync R.row }
                ensures judged { IfOk result (λ judged. HasNoEnd rest.items
                    → IsJudged C.Shows (Some context) (rest.items ++ block.entry.now) judged) }
                ensures room { IfOk result (λ judged. length judged.judgements
                    + length judged.rest.items ≤ length rest.items + length block.entry.now) }
            { judge_block::<C, R>(rt, Some(context), tools, 1, rest, block) },
        );
        let progress = read?;
        let Ok(judged) = next else {
            return Err(ReadFault::at(progress.lines + 1, Stop::Memory));
        };
        let fed = fed + block.len() as u64;
        Ahead {
            progress,
            judged,
            fed,
        }
        .settle(false)
    }

    /// Reads and judges the next batch, under the context that there is, while the lines before it are
    /// read. The lines of a batch that isn't worth a thread are read at once after them.
    pub(crate) fn read_on<R: Threads + Sync, S: CountedRead>(
        self,
        rt: &R,
        under: C::Context,
        tools: &C::Tools,
        reader: &mut S,
        room: &mut [u8],
    ) -> (
        Result<Ahead<C, C::Item, C::Fault>, ReadFault<C::Fault>>,
        Batch,
    )
        requires known { C.context self.progress.contents ≡ Some under }
        requires some { 0 < length room.old }
        requires fed { self.fed ≤ S.given reader.old }
        ensures batch { IsBatch S.remaining S.given S.failures reader.old reader.new room.new
            result.1 }
        ensures goes { (bytes : List ℕ) → StandsAhead C.Reads C.context C.Shows bytes self
            → GoesAhead C.Reads C.context C.Shows C.rules (bytes ++ take result.1.count room.new)
            result.0 }
        ensures count { IfOk result.0 (λ new. new.fed ≡ self.fed + result.1.count) }
    {
        let Ahead {
            mut progress,
            judged: JudgedLines {
                mut judgements,
                mut rest,
            },
            fed,
        } = self;
        let (read, (batch, next)) = join_mut(
            rt,
            &mut || -> Result<(), ReadFault<C::Fault>>
                requires { progress.lines + length judgements < 2 ^ 63 }
                ensures read { ReadsShown C.Reads C.rules C.context C.Shows progress.entry
                    judgements.entry result (λ _. progress.exit) }
                ensures lines { OnOk result (progress.exit.lines
                    ≡ progress.entry.lines + length judgements.entry) }
            { progress.record_waiting(&mut judgements) },
            &mut || -> (Batch, Result<JudgedLines<C::Item, C::Fault>, Memory>)
                requires { IsSync R.row × (0 < length room.now) }
                ensures batch { IsBatch S.remaining S.given S.failures reader.entry.now
                    reader.exit.now room.exit.now result.0 }
                ensures judged { IfOk result.1 (λ judged. HasNoEnd rest.entry.items
                    → IsJudged C.Shows (Some under)
                    (rest.entry.items ++ take result.0.count room.exit.now) judged) }
                ensures room { IfOk result.1 (λ judged. length judged.judgements
                    + length judged.rest.items ≤ length rest.entry.items + result.0.count) }
            { read_and_judge::<C, R, S>(rt, under, tools, &mut rest, reader, room) },
        );
        if let Err(fault) = read {
            return (Err(fault), batch);
        }
        let Ok(judged) = next else {
            return (Err(ReadFault::at(progress.lines + 1, Stop::Memory)), batch);
        };
        let fed = fed + batch.count as u64;
        let next = Ahead {
            progress,
            judged,
            fed,
        };
        (next.settle(batch.count < LEAST), batch)
    }
}
