//! Scenes.
ghost use Rattle.std.specs.Prelude.{IfOk};
ghost use Rattle.scenes.specs.Scenes.{IsSceneOf, IsSelection};

use crate::columns::{Column, LaneColumns, columns_of, lane_columns};
use crate::ends::{DottedBars, dotted_bars};
use crate::gaps::{Gap, gaps_of};
use crate::lanes::lanes_of;
use crate::ticks::ticks_of;
use recorder::{History, Part};
use std::alloc::Global;
use tag::{ClientId, Memory, OpId};

/// What a picture shows of a call. Places are those of a history's rows, counted from 0.
#[derive(Clone, Copy, Debug, PartialEq, Eq)]
pub struct Bar {
    pub call: OpId,
    /// The index of its client's lane.
    pub lane: usize,
    /// The place of its invocation.
    pub begins: usize,
    /// The place at which it ends: that of its response. A pending call's bar has no end; but of more
    /// than 16 lanes it ends at the last of its marks: its begin, its note and its dots.
    pub ends: Option<usize>,
    /// The place of its response; `None` for a pending call.
    pub answered: Option<usize>,
    /// The place of its note, if it has one.
    pub note: Option<usize>,
}

/// The linearization point of a bar's call.
#[derive(Clone, Copy, Debug, PartialEq, Eq)]
pub struct Dot {
    /// The index of the bar.
    pub bar: usize,
    /// Where the call stands in the order, counted from 0.
    pub number: usize,
    /// The place just after which the call takes effect.
    pub place: usize,
}

/// What a picture of a part's calls shows.
#[derive(Debug, Drop)]
pub struct Scene {
    /// The clients of the calls, in rising order.
    pub lanes: Vec<ClientId>,
    /// A bar for each call, in the order of the calls.
    pub bars: Vec<Bar>,
    /// The index of each lane's column. Up to 16 lanes have a column each; of more, lanes share
    /// columns whose calls don't overlap.
    pub lane_columns: Vec<usize>,
    /// The columns.
    pub columns: Vec<Column>,
    /// The places at which a bar begins, ends or has its note, in rising order.
    pub ticks: Vec<usize>,
    /// The points of the calls that the order lists, in the order's order.
    pub dots: Vec<Dot>,
    /// The calls that aren't shown, run by run, in rising order.
    pub gaps: Vec<Gap>,
}

/// The scene of the part's calls at the shown indexes, which the history records, and of an order with
/// its points. For a picture without points give an empty order.
///
/// It takes time in proportion to the shown calls and the order, times the logarithm of the shown
/// calls' count, to the rows between each shown call and its note, and to the lanes times the columns;
/// `Memory` comes only where an allocation was refused.
pub fn scene_of(
    alloc: Global,
    history: &History,
    part: &Part<'_>,
    shown: &[usize],
    order: &[OpId],
    points: &[usize],
) -> Result<Scene, Memory>
    requires { IsSelection part.now shown.now }
    ensures { IfOk result (λ scene.
        IsSceneOf part.now shown.now history.now.rows order.now points.now scene) }
{
    let _sequence = part.len();
    let lanes = lanes_of(alloc, part, shown)?;
    let dotted = dotted_bars(alloc, history, part, shown, &lanes, order, points)?;
    let DottedBars { bars, dots } = dotted;
    let LaneColumns { of_lanes, count } = lane_columns(alloc, lanes.len(), &bars)?;
    let columns = columns_of(alloc, &lanes, &of_lanes, count)?;
    let ticks = ticks_of(alloc, &bars)?;
    let gaps = gaps_of(alloc, part, shown)?;
    Ok(Scene {
        lanes,
        bars,
        lane_columns: of_lanes,
        columns,
        ticks,
        dots,
        gaps,
    })
}
