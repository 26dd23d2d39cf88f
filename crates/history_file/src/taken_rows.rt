//! History files of any length, whose rows are handed on.
ghost use Rattle.std.specs.Prelude.{◌≡◌, [], Some, None, if◌then◌else◌};
ghost use Rattle.file_format.specs.Files.{file_rules};
ghost use Rattle.file_format.specs.Lines.{LineShows};
ghost use Rattle.file_format.specs.LongHistories.{long_history_format};
ghost use Rattle.file_format.specs.Readings.{Reads as IsRead};
ghost use Rattle.file_format.specs.declared.fault.LineFault.TheVariants.{TooLong};
ghost use Rattle.history_file.specs.TakenRows.{MakesLongHistory};
ghost use Rattle.history_file.specs.TakenLaws.{taken_sound, taken_faulty, taken_long};

use crate::tool_sets::ToolSets;
use counted_devices::Judgement;
use file_format::{
    FaultKind, FileFault, LineFault, LineRow, Stop, TakesRows, hand_on, judge_header,
};
use line_files::Contents;
use std::alloc::Global;
use tag::Memory;

/// A history file of any length while its lines come: each row is handed to a taker, and isn't kept here.
#[derive(Drop)]
pub struct LongHistory<T> {
    taker: T,
    is_headed: bool,
}

impl<T: TakesRows> LongHistory<T> {
    /// No line yet, and a taker that has taken no row.
    pub fn new(taker: T) -> LongHistory<T>
        requires { T.HasTaken [] taker }
        ensures made { MakesLongHistory T.HasTaken [] result }
        ensures taker { result.taker ≡ taker }
    {
        LongHistory {
            taker,
            is_headed: false,
        }
    }

    /// What took the rows of the lines so far, or of the lines before the one with a fault.
    pub fn taker(&self) -> &T
        ensures { result.now ≡ self.now.taker }
    {
        &self.taker
    }
}

impl<T: TakesRows + Send> Contents for LongHistory<T> {
    type Fault = LineFault;

    type Item = LineRow;

    type Context = ();

    type Tools = ToolSets;

    type Whole = T;

    ghost rules = { file_rules long_history_format };

    ghost Reads = { MakesLongHistory T.HasTaken };

    ghost context = { λ history. if history.is_headed then Some tt else None };

    ghost Shows = { λ header. LineShows (long_history_format.meaning header) };

    ghost ReadsWhole = { IsRead long_history_format (λ header. T.HasTaken) };

    ghost too_long = { TooLong };

    fn tools() -> ToolSets {
        ToolSets::new()
    }

    fn context(&self) -> Option<()> {
        if self.is_headed { Some(()) } else { None }
    }

    fn too_long() -> LineFault {
        LineFault::TooLong
    }

    fn begin(&mut self, alloc: Global, line: &[u8]) -> Result<(), Stop> {
        judge_header(alloc, "history", line)?;
        self.is_headed = true;
        Ok(())
    }

    fn judge_chunk(
        alloc: Global,
        under: (),
        tools: &ToolSets,
        chunk: &[u8],
    ) -> Result<Vec<Judgement<LineRow, LineFault>>, Memory> {
        tools.judge(alloc, under, chunk)
    }

    fn follow(&mut self, _line: u64, row: LineRow) -> Result<(), Stop> {
        hand_on(&mut self.taker, row)
    }

    fn whole(self) -> Result<T, FileFault> {
        if self.is_headed {
            Ok(self.taker)
        } else {
            Err(FileFault {
                line: 1,
                kind: FaultKind::Line(LineFault::NoHeader),
            })
        }
    }

    ghost sound = { λ lines history h. taken_sound T.HasTaken lines history h };

    ghost faulty = { λ lines history under line fault h told shown.
        taken_faulty T.HasTaken lines history under line fault h told shown };

    ghost long = { λ lines history line h long. taken_long T.HasTaken lines history line h long };
}
