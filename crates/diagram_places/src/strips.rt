//! The rows of a diagram, as strips show them on paper.
ghost use Rattle.std.specs.Prelude.{◌≡◌};
ghost use Rattle.diagram_places.specs.Strips.{cut_rows, last_row_of_arrow, last_row_of_call};

use crate::layout::rows_of;
use crate::sizes::{ROW, ROW_TOP};
use labels::CutRows;
use message_scenes::{ArrowEnd, CallEnd, MessageScene};

/// The diagram's rows.
pub fn cut_rows(scene: &MessageScene) -> CutRows
    ensures { result ≡ cut_rows scene.now }
{
    CutRows {
        start: ROW_TOP,
        height: ROW,
        count: rows_of(scene),
    }
}

/// The last row of an arrow that begins there and so ends.
pub fn last_row_of_arrow(begins: usize, end: ArrowEnd) -> usize
    ensures { result ≡ last_row_of_arrow begins end }
{
    match end {
        ArrowEnd::Arrives(row) => row,
        ArrowEnd::Stale(row) => row,
        ArrowEnd::Lost(row) => row,
        ArrowEnd::Open => begins,
    }
}

/// The last row of a call that so ends, if it does.
pub fn last_row_of_call(end: &CallEnd) -> Option<usize>
    ensures { result ≡ last_row_of_call end.now }
{
    match end {
        CallEnd::Answered { row, .. } => Some(*row),
        CallEnd::Stopped(row) => Some(*row),
        CallEnd::Open => None,
    }
}
