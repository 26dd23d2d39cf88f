//! The format of history files.
ghost use Rattle.std.specs.Prelude.{◌≡◌, [], refl};
ghost use Rattle.file_format.specs.HistoryFormat.{history_format, MakesHistory};
ghost use Rattle.file_format.specs.Readings.{Reads};
ghost use Rattle.history_file.specs.Openings.{history_opens};

use crate::body::Body;
use file_format::{LineRow, MOST_CALLS, Stop, follow, judge_header};
use recorder::History;
use std::alloc::Global;
use std::marker::Model;

/// The history that the rows so far are. It may have as many calls as a file.
#[derive(Drop)]
pub struct FileHistory {
    history: History,
}

impl Model for FileHistory {
    ghost use Rattle.std.specs.Prelude.{◌≡◌};
    ghost use Rattle.recorder.specs.Histories.{Recorded};

    ghost Value = { Recorded };

    ghost view = { λ file. file.history };

    ghost invariant = { λ file. file.history.limit ≡ 1000000 };
}

impl FileHistory {
    /// No row yet.
    fn new(alloc: Global) -> FileHistory
        ensures { result ≡ record { rows = []; limit = 1000000 } }
    {
        FileHistory {
            history: History::new(alloc, MOST_CALLS),
        }
    }

    /// The history.
    fn into_history(self) -> History
        ensures { result ≡ self }
    {
        self.history
    }
}

impl Body for FileHistory {
    type Header = ();

    type Item = LineRow;

    type Whole = History;

    ghost format = { history_format };

    ghost Makes = { MakesHistory };

    ghost told = { λ history. tt };

    ghost ReadsWhole = { Reads history_format MakesHistory };

    fn begin(alloc: Global, line: &[u8]) -> Result<FileHistory, Stop> {
        judge_header(alloc, "history", line)?;
        Ok(FileHistory::new(alloc))
    }

    fn header(&self) {}

    fn follow(&mut self, _line: u64, row: LineRow) -> Result<(), Stop> {
        follow(&mut self.history, row)
    }

    fn whole(self) -> History {
        self.into_history()
    }

    ghost says = { λ header. refl };

    ghost opens = { history_opens };

    ghost tells = { λ header rows history made. refl };
}
