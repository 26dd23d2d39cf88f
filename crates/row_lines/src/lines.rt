//! Lines, of which those that follow one another are counted.
ghost use Rattle.std.specs.Prelude.{◌≡◌, ◌∷◌, ◌++◌, [], OnErr, OnOk, slice_get};

use std::alloc::Global;
use std::marker::Model;
use tag::Memory;

/// The lines of a file on which rows stand, one for each row, in the order of the rows.
#[derive(Debug, Drop)]
pub struct RowLines {
    /// How many rows stand one after another, the first on line 2.
    counted: usize,
    /// The lines of the rows after these.
    kept: Vec<u64>,
}

impl Model for RowLines {
    ghost use Rattle.std.specs.Prelude.{◌<◌, ◌+◌, ◌^◌, ◌++◌, List, ℕ};
    ghost use Rattle.std.specs.List.{range_with_len};

    ghost Value = { List ℕ };

    ghost view = { λ l. range_with_len 2 l.counted ++ l.kept.items };

    ghost invariant = { λ l. l.counted + 2 < 2 ^ 64 };
}

impl RowLines {
    /// No lines.
    pub fn new(alloc: Global) -> RowLines
        ensures { result ≡ [] }
    {
        RowLines {
            counted: 0,
            kept: Vec::new(alloc),
        }
    }

    /// Adds the line of one row more. It allocates nothing for a row that stands right after the
    /// others, if these follow one another from line 2 on.
    pub fn push(&mut self, line: u64) -> Result<(), Memory>
        ensures ok { OnOk result (self.new ≡ self.old ++ line ∷ []) }
        ensures err { OnErr result (self.new ≡ self.old) }
    {
        if self.kept.is_empty() && line == self.counted as u64 + 2 && line < u64::MAX {
            self.counted += 1;
            return Ok(());
        }
        self.kept.push(line)?;
        Ok(())
    }

    /// The line of the row at that place, from 0.
    pub fn get(&self, place: usize) -> Option<u64>
        ensures { result ≡ slice_get self.now place }
    {
        if place < self.counted {
            return Some(place as u64 + 2);
        }
        match self.kept.get(place - self.counted) {
            Some(line) => Some(*line),
            None => None,
        }
    }
}
