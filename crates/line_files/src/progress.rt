//! How far the lines of a file were read.
ghost use Rattle.std.specs.Prelude.{ℕ, ◌≡◌, ◌<◌, ◌≤◌, ◌+◌, ◌^◌, ◌∷◌, ◌++◌, List, [], None, length};
ghost use Rattle.std.specs.Prelude.{IfOk, IfErr, IsSome, OnOk, MatchResult};
ghost use Rattle.counted_devices.specs.Cuts.{HasNoEnd, longest_line};
ghost use Rattle.counted_devices.specs.FirstFaults.{FaultSoFar, faults_by};
ghost use Rattle.line_files.specs.Ahead.{AreReadOrJudged, FaultStays};
ghost use Rattle.line_files.specs.LinesRead.{ReadsJudged, ReadsNext, ReadsShown};
ghost use Rattle.line_files.specs.LinesRead.{AreRead, HasRead, HasReadFront, ReadsBytes};
ghost use Rattle.line_files.specs.LinesRead.{LeavesRead, LeavesReadIn, LeavesJudged, LeavesShown};

use crate::contents::Contents;
use crate::judge_blocks::judge_block;
use crate::judged_lines::JudgedLines;
use crate::judgements::Judgements;
use counted_devices::{Judgement, LONGEST, ReadFault, Stop, first_end};
use std::alloc::Global;
use std::thread::Threads;

/// What the lines so far made, and how many they were.
#[derive(Drop)]
pub struct Progress<C> {
    pub contents: C,
    pub lines: u64,
}

impl<C: Contents> Progress<C> {
    /// Reads a line by itself, as the next.
    fn read_alone(&mut self, alloc: Global, line: &[u8]) -> Result<(), ReadFault<C::Fault>>
        requires few { self.old.lines < 2 ^ 63 }
        requires none { C.context self.old.contents ≡ None }
        ensures read { ReadsNext C.Reads C.rules self.old line.now result (λ _. self.new) }
        ensures before { (before : List (List ℕ)) → HasRead C.Reads before self.old
            → LeavesRead C.Reads (before ++ line.now ∷ []) result self.new.contents }
        ensures begun { OnOk result (IsSome (C.context self.new.contents)) }
        ensures lines { OnOk result (self.new.lines ≡ self.old.lines + 1) }
    {
        let number = self.lines + 1;
        match self.contents.begin(alloc, line) {
            Ok(()) => {
                self.lines = number;
                Ok(())
            }
            Err(stop) => Err(ReadFault::at(number, stop)),
        }
    }

    /// Adds what the next line shows.
    fn add_judgement(
        &mut self,
        judgement: Judgement<C::Item, C::Fault>,
    ) -> Result<(), ReadFault<C::Fault>>
        requires { self.old.lines < 2 ^ 63 }
        ensures read { ReadsJudged C.Reads C.rules C.context C.Shows self.old judgement result
            (λ _. self.new) }
        ensures before { LeavesJudged C.Reads C.context C.Shows self.old judgement result self.new }
        ensures lines { OnOk result (self.new.lines ≡ self.old.lines + 1) }
    {
        let line = self.lines + 1;
        match judgement {
            Judgement::Fault(fault) => Err(ReadFault::at(line, Stop::Fault(fault))),
            Judgement::Item(item) => match self.contents.follow(line, item) {
                Ok(()) => {
                    self.lines = line;
                    Ok(())
                }
                Err(stop) => Err(ReadFault::at(line, stop)),
            },
        }
    }

    /// Adds what a run of lines shows.
    fn record_run(
        &mut self,
        run: Vec<Judgement<C::Item, C::Fault>>,
    ) -> Result<(), ReadFault<C::Fault>>
        requires { self.old.lines + length run.items < 2 ^ 63 }
        ensures read { ReadsShown C.Reads C.rules C.context C.Shows self.old run.items result
            (λ _. self.new) }
        ensures before { LeavesShown C.Reads C.context C.Shows self.old run.items result self.new }
        ensures lines { OnOk result (self.new.lines ≡ self.old.lines + length run.items) }
    {
        for judgement in run {
            self.add_judgement(judgement)?;
        }
        Ok(())
    }

    /// Adds what lines show.
    pub(crate) fn record(
        &mut self,
        judgements: Judgements<C::Item, C::Fault>,
    ) -> Result<(), ReadFault<C::Fault>>
        requires { self.old.lines + length judgements < 2 ^ 63 }
        ensures read { ReadsShown C.Reads C.rules C.context C.Shows self.old judgements result
            (λ _. self.new) }
        ensures before { LeavesShown C.Reads C.context C.Shows self.old judgements result self.new }
        ensures lines { OnOk result (self.new.lines ≡ self.old.lines + length judgements) }
    {
        for run in judgements.into_runs() {
            self.record_run(run)?;
        }
        Ok(())
    }

    /// The same of judgements that are taken from where they wait.
    pub(crate) fn record_waiting(
        &mut self,
        waiting: &mut Judgements<C::Item, C::Fault>,
    ) -> Result<(), ReadFault<C::Fault>>
        requires { self.old.lines + length waiting.old < 2 ^ 63 }
        ensures read { ReadsShown C.Reads C.rules C.context C.Shows self.old waiting.old result
            (λ _. self.new) }
        ensures lines { OnOk result (self.new.lines ≡ self.old.lines + length waiting.old) }
    {
        self.record(waiting.take())
    }

    /// The same of a progress that is handed over.
    pub(crate) fn record_owned(
        mut self,
        judgements: Judgements<C::Item, C::Fault>,
    ) -> Result<Progress<C>, ReadFault<C::Fault>>
        requires { self.lines + length judgements < 2 ^ 63 }
        ensures read { ReadsShown C.Reads C.rules C.context C.Shows self judgements result
            (λ new. new) }
        ensures lines { IfOk result (λ new. new.lines ≡ self.lines + length judgements) }
    {
        self.record(judgements)?;
        Ok(self)
    }

    /// Adds what judged lines show, and gives the line under way after them, which must not be too
    /// long.
    pub(crate) fn catch_up(
        &mut self,
        judged: JudgedLines<C::Item, C::Fault>,
    ) -> Result<Vec<u8>, ReadFault<C::Fault>>
        requires { self.old.lines + length judged.judgements < 2 ^ 63 }
        ensures reads { (bytes : List ℕ)
            → AreReadOrJudged C.Reads C.context C.Shows bytes self.old judged
            → ReadsBytes C.Reads C.rules bytes result self.new }
        ensures stays { (bytes : List ℕ)
            → AreReadOrJudged C.Reads C.context C.Shows bytes self.old judged
            → length judged.rest.items ≤ longest_line
            → IfErr result (λ fault. FaultStays C.rules bytes fault) }
        ensures before { (bytes : List ℕ)
            → AreReadOrJudged C.Reads C.context C.Shows bytes self.old judged
            → LeavesReadIn C.Reads bytes result self.new.contents }
        ensures lines { IfOk result (λ rest. self.new.lines + length rest.items
            ≡ self.old.lines + length judged.judgements + length judged.rest.items) }
    {
        self.record(judged.judgements)?;
        if judged.rest.len() > LONGEST {
            return Err(ReadFault::at(self.lines + 1, Stop::Fault(C::too_long())));
        }
        Ok(judged.rest)
    }

    /// Reads the next line by itself where there is no context yet and the block ends that line, and
    /// gives what of the block stands after it.
    fn take_first<'a>(
        &mut self,
        rest: &mut Vec<u8>,
        block: &'a [u8],
    ) -> Result<&'a [u8], ReadFault<C::Fault>>
        requires { self.old.lines + length rest.old.items + length block.now < 2 ^ 63 }
        ensures reads { (bytes : List ℕ) → AreRead C.Reads bytes self.old rest.old.items
            → MatchResult result (λ left. HasReadFront C.Reads (bytes ++ block.now)
            left.now self.new rest.new.items)
            (λ fault. FaultSoFar (faults_by C.rules) (bytes ++ block.now)
            fault.line fault.kind) }
        ensures before { (bytes : List ℕ) → AreRead C.Reads bytes self.old rest.old.items
            → LeavesReadIn C.Reads (bytes ++ block.now) result self.new.contents }
        ensures begun { IfOk result (λ left. C.context self.new.contents ≡ None → HasNoEnd left.now) }
        ensures room { IfOk result (λ left. self.new.lines + length rest.new.items + length left.now
            ≤ self.old.lines + length rest.old.items + length block.now) }
    {
        if self.contents.context().is_some() {
            return Ok(block);
        }
        let Some(end) = first_end(block) else {
            return Ok(block);
        };
        let Ok(()) = rest.extend_from_slice(&block[..end]) else {
            return Err(ReadFault::at(self.lines + 1, Stop::Memory));
        };
        self.read_alone(*rest.allocator(), rest.as_slice())?;
        rest.clear();
        Ok(&block[end + 1..])
    }

    /// Reads the whole lines of the rest and the block after it, and gives what is left.
    pub(crate) fn read_block(
        &mut self,
        rt: &(impl Threads + Sync),
        tools: &C::Tools,
        mut rest: Vec<u8>,
        block: &[u8],
    ) -> Result<Vec<u8>, ReadFault<C::Fault>>
        requires { self.old.lines + length rest.items + length block.now < 2 ^ 63 }
        ensures reads { (bytes : List ℕ) → AreRead C.Reads bytes self.old rest.items
            → ReadsBytes C.Reads C.rules (bytes ++ block.now) result self.new }
        ensures before { (bytes : List ℕ) → AreRead C.Reads bytes self.old rest.items
            → LeavesReadIn C.Reads (bytes ++ block.now) result self.new.contents }
        ensures lines { IfOk result (λ left. self.new.lines + length left.items
            ≤ self.old.lines + length rest.items + length block.now) }
    {
        let block = self.take_first(&mut rest, block)?;
        match judge_block::<C, _>(rt, self.contents.context(), tools, 0, rest, block) {
            Ok(judged) => self.catch_up(judged),
            Err(_) => Err(ReadFault::at(self.lines + 1, Stop::Memory)),
        }
    }
}
