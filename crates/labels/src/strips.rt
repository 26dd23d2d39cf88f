//! The strips into which rows are cut on paper.
ghost use Rattle.std.specs.Prelude.{◌≡◌, ◌<◌, ◌≤◌};
ghost use Rattle.labels.specs.Places.{IsNear};
ghost use Rattle.labels.specs.Strips.{shows_row, shows_some, strip_bottom, strip_of, strip_top};
ghost use Rattle.labels.specs.Strips.{strips_of};

use crate::places::pixels;

/// A strip has so many rows; the last one may have fewer.
pub const STRIP_ROWS: usize = 32;

/// Rows of one height that stand one below the other.
#[derive(Clone, Copy)]
pub struct CutRows {
    /// Where the first one begins, down.
    pub start: u64,
    pub height: u64,
    pub count: usize,
}

/// The strip of a row.
fn strip_of(row: usize) -> usize
    ensures { result ≡ strip_of row }
{
    row / STRIP_ROWS
}

/// Whether the strip shows the row.
pub fn shows_row(strip: usize, row: usize) -> bool
    ensures { result ≡ shows_row strip row }
{
    strip_of(row) == strip
}

/// Whether the strip shows some of what stands from that row to that one, or to the last one.
pub fn shows_some(strip: usize, begins: usize, ends: Option<usize>) -> bool
    ensures { result ≡ shows_some strip begins ends }
{
    match ends {
        None => strip_of(begins) <= strip,
        Some(ends) => strip_of(begins) <= strip && strip <= strip_of(ends),
    }
}

impl CutRows {
    /// How many strips the rows make.
    pub fn strips(self) -> usize
        ensures count { result ≡ strips_of self }
        ensures few { result ≤ self.count }
    {
        if self.count % STRIP_ROWS == 0 {
            self.count / STRIP_ROWS
        } else {
            self.count / STRIP_ROWS + 1
        }
    }

    /// Where the strip begins, down.
    pub fn top(self, strip: usize) -> u64
        requires { strip < strips_of self }
        ensures top { result ≡ strip_top self strip }
        ensures near { IsNear result }
    {
        pixels(self.start, strip * STRIP_ROWS, self.height)
    }

    /// Where it ends.
    pub fn bottom(self, strip: usize) -> u64
        requires { strip < strips_of self }
        ensures bottom { result ≡ strip_bottom self strip }
        ensures near { IsNear result }
    {
        let first = strip * STRIP_ROWS;
        if self.count - first <= STRIP_ROWS {
            pixels(self.start, self.count, self.height)
        } else {
            pixels(self.start, first + STRIP_ROWS, self.height)
        }
    }
}
