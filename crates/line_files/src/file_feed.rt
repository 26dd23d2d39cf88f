//! Files that come in blocks, as their callers see them.
ghost use Rattle.std.specs.Prelude.{ℕ, ◌≡◌, ◌≤◌, ◌+◌, ◌^◌, ◌++◌, List, [], None, Some, length, IfErr, MatchResult};
ghost use Rattle.counted_devices.specs.FirstFaults.{FileAnswers, faults_by};
ghost use Rattle.line_files.specs.Feeds.{FeedsOn, StandsForLines};
ghost use Rattle.line_files.specs.LinesRead.{LeavesReadIn};

use crate::contents::{Contents, Opens};
use crate::feed::Feed;
use counted_devices::ReadFault;
use std::alloc::Global;
use std::marker::Model;
use std::thread::Threads;

/// A file that comes in blocks of any size: what its lines so far make.
#[derive(Drop)]
pub struct FileFeed<C: Contents> {
    feed: Feed<C, C::Fault>,
    tools: C::Tools,
}

impl<C: Contents> Model for FileFeed<C> {
    ghost use Rattle.line_files.specs.declared.feed.Feed.{Feed};

    ghost Value = { Feed C C.Fault };

    ghost view = { λ whole. whole.feed };
}

impl<C: Opens> FileFeed<C> {
    /// No byte yet.
    pub fn new(alloc: Global) -> FileFeed<C>
        ensures { StandsForLines C.Reads [] result }
    {
        FileFeed::of(alloc, C::opening(alloc))
    }
}

impl<C: Contents> FileFeed<C> {
    /// No byte yet, and contents that no line has made.
    pub fn of(alloc: Global, contents: C) -> FileFeed<C>
        requires { C.Reads [] contents }
        ensures { StandsForLines C.Reads [] result }
    {
        FileFeed {
            feed: Feed::of(alloc, contents),
            tools: C::tools(),
        }
    }

    /// How many bytes the blocks had that were read.
    pub fn fed(&self) -> u64
        ensures fed { result ≡ self.now.fed }
        ensures most { result ≤ 2 ^ 62 }
    {
        self.feed.fed
    }

    /// The number of the line that is under way.
    pub fn line(&self) -> u64
        ensures { self.now.fault ≡ None → result ≡ self.now.progress.lines + 1 }
    {
        self.feed.line()
    }

    /// What the whole lines so far made, or the lines before the one with a fault.
    pub fn contents(&self) -> &C
        ensures { result.now ≡ self.now.progress.contents }
    {
        &self.feed.progress.contents
    }

    /// Reads the next block, however the file was cut. The first fault of the bytes so far is
    /// answered, and then by each later call; `Memory` comes only where an allocation was refused. Where
    /// a line has a fault, the contents are what the lines before it made.
    pub fn feed(
        &mut self,
        rt: &(impl Threads + Sync),
        block: &[u8],
    ) -> Result<(), ReadFault<C::Fault>>
        requires { self.old.fed + length block.now ≤ 2 ^ 62 }
        ensures fed { FeedsOn C.Reads C.rules self.old block.now result self.new }
        ensures before { (bytes : List ℕ) → StandsForLines C.Reads bytes self.old
            → LeavesReadIn C.Reads (bytes ++ block.now) result self.new.progress.contents }
        ensures count { MatchResult result (λ _. self.new.fed ≡ self.old.fed + length block.now)
            (λ _. self.new.fed ≡ self.old.fed) }
        ensures kept { IfErr result (λ fault. self.new.fault ≡ Some fault) }
        ensures stays { (fault : _) → self.old.fault ≡ Some fault
            → (result ≡ Err fault) × (self.new ≡ self.old) }
    {
        self.feed.feed(rt, &self.tools, block)
    }

    /// What the whole file is, at its end; or the first fault of the file, or the one that an earlier
    /// call answered.
    pub fn finish(self, rt: &(impl Threads + Sync)) -> Result<C::Whole, ReadFault<C::Fault>>
        ensures ends { (bytes : List ℕ) → StandsForLines C.Reads bytes self
            → FileAnswers (faults_by C.rules) C.ReadsWhole bytes result }
        ensures kept { (fault : _) → self.fault ≡ Some fault → result ≡ Err fault }
    {
        let FileFeed { feed, tools } = self;
        feed.finish(rt, &tools)
    }
}
