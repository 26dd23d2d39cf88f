//! Which pictures are cut into strips on paper.
ghost use Rattle.std.specs.Prelude.{◌≡◌};
ghost use Rattle.pictures.specs.Cuts.{cut_rows, is_cut};

use crate::layout::rows_of;
use crate::sizes::{MOST_COLUMNS, MOST_ROWS, ROW, ROW_TOP};
use labels::{CutRows, STRIP_ROWS};
use scenes::Scene;

/// The picture's rows.
pub(crate) fn cut_rows(scene: &Scene) -> CutRows
    ensures { result ≡ cut_rows scene.now }
{
    CutRows {
        start: ROW_TOP,
        height: ROW,
        count: rows_of(scene),
    }
}

/// Whether the picture is cut: it is longer than a strip, but not too long, and not too wide for
/// letters that can be read.
pub(crate) fn is_cut(scene: &Scene) -> bool
    ensures { result ≡ is_cut scene.now }
{
    let rows = rows_of(scene);
    STRIP_ROWS < rows && rows <= MOST_ROWS && scene.columns.len() <= MOST_COLUMNS
}
