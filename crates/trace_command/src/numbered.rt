//! The history of a run, with the lines of its rows in a file of it.
ghost use Rattle.std.specs.Prelude.{◌≡◌, IfOk, length};
ghost use Rattle.std.specs.List.{range_with_len};
ghost use Rattle.trace_command.specs.TracePages.{IsNumbered};

use history_file::NumberedHistories;
use recorder::{Histories, History};
use row_lines::RowLines;
use std::alloc::Global;
use tag::Memory;

/// The lines of the history's rows: that of the file's header is line 1.
fn lines_of(alloc: Global, history: &History) -> Result<RowLines, Memory>
    ensures { IfOk result (λ lines. lines ≡ range_with_len 2 (length history.now.rows)) }
{
    let mut lines = RowLines::new(alloc);
    for place in 0..history.row_count() {
        lines.push(place as u64 + 2)?;
    }
    Ok(lines)
}

/// The history, each row with its line of the file that `simulate_command` writes of it.
pub(crate) fn numbered_of(alloc: Global, history: History) -> Result<NumberedHistories, Memory>
    ensures { IfOk result (IsNumbered history) }
{
    let calls = history.calls();
    prove!(calls <= 1_000_000);
    let lines = lines_of(alloc, &history)?;
    let lists = Vec::from_array(alloc, [lines])?;
    let halls = Vec::from_array(alloc, [history])?;
    match Histories::new(halls, None) {
        Some(histories) => Ok(NumberedHistories {
            histories,
            lines: lists,
        }),
        None => unreachable!(),
    }
}
