//! What the lines of a file make behind its header.
ghost use Rattle.std.specs.Prelude.{◌≡◌, ◌+◌, List, ℕ, length};
ghost use Rattle.file_format.specs.Formats.{Format, Follows};
ghost use Rattle.file_format.specs.Readings.{Reads};
ghost use Rattle.line_files.specs.Steps.{StaysAtFault};
ghost use Rattle.history_file.specs.Beginnings.{BeginsFile, CanBegin, TellsHeader};

use file_format::{LineItem, Stop};
use std::alloc::Global;

/// What a file's header begins, and its other lines add to.
pub trait Body: Drop + Send {
    /// What the first line says of the others.
    type Header: Copy + Send + Sync;

    type Item: LineItem<Header = Self::Header> + Send;

    /// What the lines of a whole file are to those who read it.
    type Whole;

    ghost format: { Format Self.Header Self.Item };

    ghost Makes: { Self.Header → List Self.Item → Self → Type 0 };

    ghost told: { Self → Self.Header };

    ghost ReadsWhole: { List ℕ → Self.Whole → Type 0 };

    /// What the first line makes.
    fn begin(alloc: Global, line: &[u8]) -> Result<Self, Stop>
    where
        Self: Sized,
        ensures { BeginsFile format Makes line.now result };

    /// What the first line said.
    fn header(&self) -> Self::Header
        ensures { result ≡ told self.now };

    /// Adds the next item, which stands on that line, or says which fault it has after the others. An
    /// item with a fault isn't added.
    fn follow(&mut self, line: u64, item: Self::Item) -> Result<(), Stop>
        ensures follows { (header : Self.Header) (items : List Self.Item)
            → Makes header items self.old
            → format.Admits header items → line ≡ length items + 2
            → Follows format Makes header items item result self.new }
        ensures kept { (header : Self.Header) (items : List Self.Item)
            → Makes header items self.old → format.Admits header items
            → StaysAtFault (Makes header items) result self.new };

    /// What the body of a whole file is.
    fn whole(self) -> Self::Whole
    where
        Self: Sized,
        ensures { (bytes : List ℕ) → Reads format Makes bytes self → ReadsWhole bytes result };

    ghost says: { (header : Self.Header) → format.meaning header ≡ Self.Item.meaning header };

    ghost opens: { CanBegin format };

    ghost tells: { TellsHeader Makes told };
}
