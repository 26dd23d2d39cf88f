//! Rows of several halls that follow one another.
ghost use Rattle.std.specs.Prelude.{◌≡◌, ◌<◌, ◌↔◌, Err, List, [], length, IfOk, OnErr, IsTrue};
ghost use Rattle.recorder.specs.Halls.{FallsTo};
ghost use Rattle.counted_devices.specs.declared.read_fault.Stop.TheVariants as stop;
ghost use Rattle.file_format.specs.FileHeaders.{halls_in, header_with};
ghost use Rattle.file_format.specs.Formats.{Follows};
ghost use Rattle.file_format.specs.HallStates.{IsPlacedInHall};
ghost use Rattle.file_format.specs.HistoriesFormat.{histories_format, MakesHistories, AreHistories};
ghost use Rattle.file_format.specs.declared.file_header.FileHeader.{FileHeader};
ghost use Rattle.file_format.specs.declared.hall_row.HallRow.{HallRow};

use crate::LineFault;
use crate::fault::Stop;
use crate::file_header::FileHeader;
use crate::following::{MOST_CALLS, follow_in_hall};
use crate::hall_row::HallRow;
use crate::line_row::{LineRow, RowKind};
use recorder::{Histories, History};
use std::alloc::Global;
use std::marker::Model;
use tag::Memory;

/// The histories of a file's halls, while its rows come in one after another.
#[derive(Drop)]
pub struct HallHistories {
    header: FileHeader,
    halls: Vec<History>,
    /// How many calls began in all halls.
    calls: usize,
}

impl Model for HallHistories {
    ghost use Rattle.recorder.specs.Halls.{RecordedHalls};

    ghost Value = { RecordedHalls };

    ghost use Rattle.file_format.specs.HallStates.{histories_in, AreHistoriesSoFar};

    ghost view = { histories_in };

    ghost invariant = { AreHistoriesSoFar };
}

impl HallHistories {
    /// Halls without a row, as many as the header tells, with its quorums.
    pub fn new(alloc: Global, header: FileHeader) -> Result<HallHistories, Memory>
        ensures made { IfOk result (MakesHistories header []) }
        ensures fits { AreHistories header [] }
    {
        let mut halls = Vec::new(alloc);
        for _ in 0..header.halls() {
            halls.push(History::new(alloc, MOST_CALLS))?;
        }
        Ok(HallHistories {
            header,
            halls,
            calls: 0,
        })
    }

    /// What the first line said.
    pub fn header(&self) -> FileHeader
        ensures { result ≡ header_with (length self.now.halls) self.now.quorums }
    {
        self.header
    }

    /// Adds the row at the end of its hall's rows, or says which fault it has there. `Memory` comes only if
    /// it has none.
    #[inline(always)]
    pub fn follow(&mut self, item: HallRow) -> Result<(), Stop>
        ensures follows { (header : FileHeader) (items : List HallRow)
            → MakesHistories header items self.old → AreHistories header items
            → Follows histories_format MakesHistories header items item result self.new }
        ensures unchanged { OnErr result (self.new ≡ self.old) }
        ensures memory { result ≡ Err stop.Memory → IsPlacedInHall self.old.halls item }
    {
        let HallRow { hall, row } = item;
        if hall >= self.header.halls() {
            return Err(Stop::Fault(LineFault::Range));
        }
        if !falls_to(&row, &self.header, hall) {
            return Err(Stop::Fault(LineFault::KeyInAnotherHall));
        }
        let history = &mut self.halls[usize::from(hall)];
        let before = history.calls();
        let result = follow_in_hall(history, self.calls, row);
        self.calls += history.calls() - before;
        result
    }

    /// The histories, once no more rows come.
    pub fn into_histories(self) -> Histories
        ensures { result ≡ self }
    {
        Histories::new(self.halls, self.header.quorums()).unwrap()
    }
}

/// Whether the row, where it begins a call, is on a key of that hall.
#[inline(always)]
fn falls_to(row: &LineRow, header: &FileHeader, hall: u8) -> bool
    ensures { IsTrue result ↔ FallsTo (halls_in header.now) hall row.now }
{
    match row.kind {
        RowKind::Read { .. } | RowKind::Write { .. } => header.hall_of(row.texts.key()) == hall,
        _ => true,
    }
}
