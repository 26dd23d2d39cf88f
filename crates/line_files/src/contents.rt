//! What the lines of a file make.
ghost use Rattle.std.specs.Prelude.{ℕ, ◌≡◌, ◌<◌, ◌+◌, ◌∷◌, List, [], length, Option, Some, None};
ghost use Rattle.std.specs.Prelude.{Result, Ok, Err, IfOk, IsSome, OnOk};
ghost use Rattle.counted_devices.specs.Cuts.{Splits, last_lines, longest_line};
ghost use Rattle.counted_devices.specs.FirstFaults.{LineRules, FileAnswers, faults_by};
ghost use Rattle.counted_devices.specs.Judgements.{ShowChunks};
ghost use Rattle.line_files.specs.Steps.{ReadsBy, ReadsUnder, StaysAtFault};

use counted_devices::{Judgement, ReadFault, Stop};
use std::alloc::Global;
use tag::Memory;

/// What the lines of a file make, one after another.
pub trait Contents: Drop + Send {
    /// What is wrong with a line.
    type Fault: Copy + Send;

    /// What a line shows by itself.
    type Item: Drop + Send;

    /// What lines are judged by, beside themselves, as a header.
    type Context: Copy + Send + Sync;

    /// What is kept from line to line while lines are judged.
    type Tools: Drop + Send + Sync;

    /// What the lines of a whole file are to those who read it.
    type Whole;

    ghost rules: { LineRules Self.Fault };

    ghost Reads: { List (List ℕ) → Self → Type 0 };

    ghost context: { Self → Option Self.Context };

    ghost Shows: { Self.Context → List ℕ → Result Self.Item Self.Fault → Type 0 };

    ghost ReadsWhole: { List ℕ → Self.Whole → Type 0 };

    ghost too_long: { Self.Fault };

    /// Nothing is kept yet.
    fn tools() -> Self::Tools;

    /// What the next lines are judged by. Without it the next line is read by itself.
    fn context(&self) -> Option<Self::Context>
        ensures { result ≡ context self.now };

    /// What is wrong with a line that is too long.
    fn too_long() -> Self::Fault
        ensures { result ≡ too_long };

    /// Reads the next line, without its end, where there is no context yet. It gives one.
    fn begin(&mut self, alloc: Global, line: &[u8]) -> Result<(), Stop<Self::Fault>>
        ensures read { context self.old ≡ None → (before : List (List ℕ)) → Reads before self.old
            → ReadsBy rules Reads before line.now result self.new }
        ensures kept { (before : List (List ℕ)) → Reads before self.old
            → StaysAtFault (Reads before) result self.new }
        ensures begun { OnOk result (IsSome (context self.new)) };

    /// What the lines of a chunk, the last of them without its end, show under that context.
    fn judge_chunk(
        alloc: Global,
        under: Self::Context,
        tools: &Self::Tools,
        chunk: &[u8],
    ) -> Result<Vec<Judgement<Self::Item, Self::Fault>>, Memory>
        ensures { IfOk result (λ run. ShowChunks (Shows under) (chunk.now ∷ []) run.items) };

    /// Adds the next line's item, or says which fault the line has after the others. The context stays
    /// the same. A line with a fault adds nothing.
    fn follow(&mut self, line: u64, item: Self::Item) -> Result<(), Stop<Self::Fault>>
        ensures read { (before : List (List ℕ)) (text : List ℕ) (under : Self.Context)
            → Reads before self.old → context self.old ≡ Some under → Shows under text (Ok item)
            → line ≡ length before + 1
            → ReadsUnder rules Reads context under before text result self.new }
        ensures kept { (before : List (List ℕ)) → Reads before self.old
            → StaysAtFault (Reads before) result self.new };

    /// What the contents of a whole file are.
    fn whole(self) -> Result<Self::Whole, ReadFault<Self::Fault>>
    where
        Self: Sized,
        ensures { (bytes : List ℕ) (lines : List (List ℕ)) (rest : List ℕ) → Splits bytes lines rest
            → Reads (last_lines lines rest) self
            → FileAnswers (faults_by rules) ReadsWhole bytes result };

    ghost sound: { (lines : List (List ℕ)) (contents : Self) → Reads lines contents
        → rules.AreSound lines };

    ghost faulty: { (lines : List (List ℕ)) (contents : Self) (under : Self.Context) (line : List ℕ)
        (fault : Self.Fault) → Reads lines contents → context contents ≡ Some under
        → Shows under line (Err fault) → rules.HasFault lines line fault };

    ghost long: { (lines : List (List ℕ)) (contents : Self) (line : List ℕ) → Reads lines contents
        → longest_line < length line → rules.HasFault lines line too_long };
}

/// Contents that no line has made, of which a file may have any.
pub trait Opens: Contents {
    /// What stands here before the first line.
    fn opening(alloc: Global) -> Self
    where
        Self: Sized,
        ensures { Self.Reads [] result };
}
