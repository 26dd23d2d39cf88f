//! The format of history files of either version, of which the line of each row is kept.
ghost use Rattle.std.specs.Prelude.{◌≡◌, [], length, refl, All, IfOk};
ghost use Rattle.file_format.specs.FileHeaders.{header_with};
ghost use Rattle.file_format.specs.HistoriesFormat.{histories_format};
ghost use Rattle.file_format.specs.Readings.{Reads};
ghost use Rattle.history_file.specs.Openings.{histories_open, halls_tell};

use crate::body::Body;
use file_format::{FileHeader, HallHistories, HallRow, LineFault, Stop};
use recorder::Histories;
use row_lines::RowLines;
use std::alloc::Global;
use tag::Memory;

/// The histories of a file's halls, and the lines of the file on which their rows stand: `lines[h]` has
/// at place `k` the line of row `k` of hall `h`. The header is line 1.
#[derive(Debug, Drop)]
pub struct NumberedHistories {
    pub histories: Histories,
    pub lines: Vec<RowLines>,
}

/// The same while the lines come.
#[derive(Drop)]
pub struct NumberedHalls {
    halls: HallHistories,
    lines: Vec<RowLines>,
}

/// So many lists without a line.
fn empty_lists(alloc: Global, count: u8) -> Result<Vec<RowLines>, Memory>
    ensures count { IfOk result (λ lists. length lists.items ≡ count) }
    ensures empty { IfOk result (λ lists. All (λ lines. lines ≡ []) lists.items) }
{
    let mut lists = Vec::new(alloc);
    for _ in 0..count {
        lists.push(RowLines::new(alloc))?;
    }
    Ok(lists)
}

impl Body for NumberedHalls {
    ghost use Rattle.history_file.specs.Making.{MakesNumberedHalls};
    ghost use Rattle.history_file.specs.NumberedRows.{MakesNumbered};

    type Header = FileHeader;

    type Item = HallRow;

    type Whole = NumberedHistories;

    ghost format = { histories_format };

    ghost Makes = { MakesNumberedHalls };

    ghost told = { λ numbered. header_with (length numbered.halls.halls) numbered.halls.quorums };

    ghost ReadsWhole = { Reads histories_format MakesNumbered };

    fn begin(alloc: Global, line: &[u8]) -> Result<NumberedHalls, Stop> {
        let histories = <HallHistories as Body>::begin(alloc, line)?;
        let lines = empty_lists(alloc, histories.header().halls())?;
        Ok(NumberedHalls {
            halls: histories,
            lines,
        })
    }

    fn header(&self) -> FileHeader {
        self.halls.header()
    }

    fn follow(&mut self, line: u64, item: HallRow) -> Result<(), Stop> {
        let hall = usize::from(item.hall);
        if hall >= self.lines.len() {
            return Err(Stop::Fault(LineFault::Range));
        }
        self.halls.follow(item)?;
        self.lines[hall].push(line)?;
        Ok(())
    }

    fn whole(self) -> NumberedHistories {
        let NumberedHalls { halls, lines } = self;
        NumberedHistories {
            histories: halls.into_histories(),
            lines,
        }
    }

    ghost says = { λ header. refl };

    ghost opens = { histories_open };

    ghost tells = { λ header items numbered made. halls_tell header items numbered.halls made.made };
}
