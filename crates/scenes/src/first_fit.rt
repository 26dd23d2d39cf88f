//! How lanes are put into columns: each into the first that is free where its first bar begins.
ghost use Rattle.std.specs.Prelude.{ℕ, ◌≡◌, ◌<◌, ◌≤◌, ◌⊎◌, [], true, false, Option, Some, None};
ghost use Rattle.std.specs.Prelude.{IfOk, OnOk, length, map};
ghost use Rattle.std.specs.List.{slice_get};
ghost use Rattle.scenes.specs.Columns.{LastsTo};
ghost use Rattle.scenes.specs.FirstFit.{AreCountedColumns, AreInLanes, AreLastEnds, HasAt};
ghost use Rattle.scenes.specs.FirstFit.{IsFirstFree, IsUpTo, Stays, Takes};
ghost use Rattle.scenes.specs.declared.columns.TheConstants.{OWN_COLUMNS};

use crate::Bar;
use crate::columns::LaneColumns;
use std::alloc::Global;
use tag::Memory;

/// The later of two ends; no end comes last.
fn later(one: Option<usize>, other: Option<usize>) -> Option<usize>
    ensures one { IsUpTo one result }
    ensures other { IsUpTo other result }
    ensures either { (result ≡ one) ⊎ (result ≡ other) }
{
    match (one, other) {
        (Some(one), Some(other)) => Some(one.max(other)),
        (None, _) | (_, None) => None,
    }
}

/// A list with that end so many times.
pub(crate) fn all_with(
    alloc: Global,
    count: usize,
    end: Option<usize>,
) -> Result<Vec<Option<usize>>, Memory>
    ensures all { IfOk result (λ list. length list.items ≡ count) }
    ensures each { IfOk result (λ list. (i : ℕ) (other : Option ℕ)
        → slice_get list.items i ≡ Some other → other ≡ end) }
{
    let mut list = Vec::with_capacity(alloc, count)?;
    for _ in 0..count {
        list.push(end)?;
    }
    Ok(list)
}

/// Where the last of each lane's bars ends.
pub(crate) fn last_ends(
    alloc: Global,
    lanes: usize,
    bars: &[Bar],
) -> Result<Vec<Option<usize>>, Memory>
    requires { AreInLanes lanes bars.now }
    ensures { IfOk result (λ ends. AreLastEnds lanes bars.now ends.items) }
{
    let mut ends = all_with(alloc, lanes, Some(0))?;
    for bar in bars {
        ends[bar.lane] = later(ends[bar.lane], bar.ends);
    }
    Ok(ends)
}

/// Whether what has that end is over before the place.
fn is_over(end: Option<usize>, place: usize) -> bool
    ensures over { result ≡ true → (n : ℕ) × (end ≡ Some n) × (n < place) }
    ensures lasts { result ≡ false → LastsTo end place }
{
    match end {
        Some(end) => end < place,
        None => false,
    }
}

/// The first column that is free from the place on, if columns are taken until these ends.
fn first_free(taken: &[Option<usize>], place: usize) -> usize
    ensures { IsFirstFree taken.now place result }
{
    for column in 0..taken.len() {
        if is_over(taken[column], place) {
            return column;
        }
    }
    taken.len()
}

/// Takes the column, or a new one, until that end.
fn take(taken: &mut Vec<Option<usize>>, column: usize, end: Option<usize>) -> Result<(), Memory>
    requires { column ≤ length taken.old.items }
    ensures { OnOk result (HasAt taken.old.items taken.new.items column end) }
{
    if column < taken.len() {
        taken[column] = end;
    } else {
        taken.push(end)?;
    }
    Ok(())
}

/// Puts the lane into the first column that is free from the place on, if it has none yet; the column
/// is then taken until the end.
fn put_lane(
    columns: &mut Vec<Option<usize>>,
    taken: &mut Vec<Option<usize>>,
    lane: usize,
    place: usize,
    end: Option<usize>,
) -> Result<(), Memory>
    requires { lane < length columns.old.items }
    ensures all { length columns.new.items ≡ length columns.old.items }
    ensures put { OnOk result
        (Stays lane columns.old.items columns.new.items taken.old.items taken.new.items
        ⊎ Takes lane place end columns.old.items columns.new.items taken.old.items
        taken.new.items) }
{
    if columns[lane].is_none() {
        let column = first_free(taken, place);
        take(taken, column, end)?;
        columns[lane] = Some(column);
    }
    Ok(())
}

/// The columns, of which none is missing.
fn all_columns(alloc: Global, columns: &[Option<usize>]) -> Result<Vec<usize>, Memory>
    requires { (lane : ℕ) (column : Option ℕ) → slice_get columns.now lane ≡ Some column
        → (number : ℕ) × (column ≡ Some number) }
    ensures { IfOk result (λ all. map Some all.items ≡ columns.now) }
{
    let mut all = Vec::with_capacity(alloc, columns.len())?;
    for column in columns {
        match column {
            Some(column) => all.push(*column)?,
            None => unreachable!(),
        }
    }
    Ok(all)
}

/// The columns of many lanes, whose bars these are and whose last bars end there.
pub(crate) fn shared_columns(
    alloc: Global,
    bars: &[Bar],
    ends: &[Option<usize>],
) -> Result<LaneColumns, Memory>
    requires bars { AreInLanes (length ends.now) bars.now }
    requires ends { AreLastEnds (length ends.now) bars.now ends.now }
    requires many { OWN_COLUMNS < length ends.now }
    ensures { IfOk result (λ all. AreCountedColumns bars.now (length ends.now)
        all.of_lanes.items all.count) }
{
    let mut columns = all_with(alloc, ends.len(), None)?;
    let mut taken = Vec::new(alloc);
    for bar in bars {
        put_lane(
            &mut columns,
            &mut taken,
            bar.lane,
            bar.begins,
            ends[bar.lane],
        )?;
    }
    let count = taken.len();
    let of_lanes = all_columns(alloc, &columns)?;
    Ok(LaneColumns { of_lanes, count })
}
