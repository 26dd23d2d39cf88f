//! A file that comes in blocks.
ghost use Rattle.std.specs.Prelude.{ℕ, ◌≡◌, ◌≤◌, ◌+◌, ◌^◌, ◌++◌, List, [], Some, None, length};
ghost use Rattle.std.specs.Prelude.{IfOk, IfErr, MatchResult};

use crate::contents::Contents;
use crate::progress::Progress;
use counted_devices::ReadFault;
use std::alloc::Global;
use std::mem;
use std::thread::Threads;

/// What the whole lines so far made, and what came of the next line.
#[derive(Drop)]
pub struct Feed<C, L> {
    pub progress: Progress<C>,
    pub rest: Vec<u8>,
    pub fed: u64,
    pub fault: Option<ReadFault<L>>,
    ghost few: { fed ≤ 2 ^ 62 },
    ghost room: { fault ≡ None → progress.lines + length rest.items ≤ fed },
}

impl<C: Contents> Feed<C, C::Fault> {
    ghost use Rattle.counted_devices.specs.FirstFaults.{FileAnswers, faults_by};
    ghost use Rattle.line_files.specs.Feeds.{FeedsOn, StandsForLines};
    ghost use Rattle.line_files.specs.LinesRead.{LeavesReadIn};

    /// No byte yet, and contents that no line has made.
    pub(crate) fn of(alloc: Global, contents: C) -> Feed<C, C::Fault>
        requires { C.Reads [] contents }
        ensures { StandsForLines C.Reads [] result }
    {
        Feed {
            progress: Progress { contents, lines: 0 },
            rest: Vec::new(alloc),
            fed: 0,
            fault: None,
        }
    }

    /// The number of the line that is under way.
    pub(crate) fn line(&self) -> u64
        ensures { self.now.fault ≡ None → result ≡ self.now.progress.lines + 1 }
    {
        self.progress.lines.saturating_add(1)
    }

    /// Reads the next block.
    pub(crate) fn feed(
        &mut self,
        rt: &(impl Threads + Sync),
        tools: &C::Tools,
        block: &[u8],
    ) -> Result<(), ReadFault<C::Fault>>
        requires { self.old.fed + length block.now ≤ 2 ^ 62 }
        ensures fed { FeedsOn C.Reads C.rules self.old block.now result self.new }
        ensures before { (bytes : List ℕ) → StandsForLines C.Reads bytes self.old
            → LeavesReadIn C.Reads (bytes ++ block.now) result self.new.progress.contents }
        ensures count { MatchResult result (λ _. self.new.fed ≡ self.old.fed + length block.now)
            (λ _. self.new.fed ≡ self.old.fed) }
        ensures sound { IfOk result (λ _. self.new.fault ≡ None) }
        ensures kept { IfErr result (λ fault. self.new.fault ≡ Some fault) }
        ensures stays { (fault : _) → self.old.fault ≡ Some fault
            → (result ≡ Err fault) × (self.new ≡ self.old) }
    {
        if let Some(fault) = self.fault {
            return Err(fault);
        }
        let alloc = *self.rest.allocator();
        let rest = mem::replace(&mut self.rest, Vec::new(alloc));
        match self.progress.read_block(rt, tools, rest, block) {
            Ok(rest) => {
                self.rest = rest;
                self.fed += block.len() as u64;
                Ok(())
            }
            Err(fault) => {
                self.fault = Some(fault);
                Err(fault)
            }
        }
    }

    /// Ends the file, and its last line if that has no end: what the whole file is.
    pub(crate) fn finish(
        self,
        rt: &(impl Threads + Sync),
        tools: &C::Tools,
    ) -> Result<C::Whole, ReadFault<C::Fault>>
        ensures ends { (bytes : List ℕ) → StandsForLines C.Reads bytes self
            → FileAnswers (faults_by C.rules) C.ReadsWhole bytes result }
        ensures kept { (fault : _) → self.fault ≡ Some fault → result ≡ Err fault }
    {
        let Feed {
            mut progress,
            rest,
            fault,
            ..
        } = self;
        if let Some(fault) = fault {
            return Err(fault);
        }
        if !rest.is_empty() {
            progress.read_block(rt, tools, rest, b"\n")?;
        }
        progress.contents.whole()
    }
}
