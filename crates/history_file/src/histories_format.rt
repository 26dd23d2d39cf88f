//! The format of history files of either version.
ghost use Rattle.std.specs.Prelude.{length, refl};
ghost use Rattle.file_format.specs.FileHeaders.{header_with};
ghost use Rattle.file_format.specs.HistoriesFormat.{histories_format, MakesHistories};
ghost use Rattle.file_format.specs.Readings.{Reads};
ghost use Rattle.history_file.specs.Openings.{histories_open, halls_tell};

use crate::body::Body;
use file_format::{FileHeader, HallHistories, HallRow, Stop, judge_file_header};
use recorder::Histories;
use std::alloc::Global;

impl Body for HallHistories {
    type Header = FileHeader;

    type Item = HallRow;

    type Whole = Histories;

    ghost format = { histories_format };

    ghost Makes = { MakesHistories };

    ghost told = { λ histories. header_with (length histories.halls) histories.quorums };

    ghost ReadsWhole = { Reads histories_format MakesHistories };

    fn begin(alloc: Global, line: &[u8]) -> Result<HallHistories, Stop> {
        let header = judge_file_header(alloc, line)?;
        Ok(HallHistories::new(alloc, header)?)
    }

    fn header(&self) -> FileHeader {
        self.header()
    }

    fn follow(&mut self, _line: u64, item: HallRow) -> Result<(), Stop> {
        self.follow(item)
    }

    fn whole(self) -> Histories {
        self.into_histories()
    }

    ghost says = { λ header. refl };

    ghost opens = { histories_open };

    ghost tells = { halls_tell };
}
