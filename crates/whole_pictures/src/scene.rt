//! The scene of all calls of a history.
ghost use Rattle.std.specs.Prelude.{◌≡◌, [], IfOk};
ghost use Rattle.store_orders.specs.StoreOrders.{IsStoreOrder};
ghost use Rattle.store_orders.specs.Turns.{AreCallsOf};
ghost use Rattle.linearization_points.specs.Points.{AreApart, AreCalls, KeepsPrecedence};
ghost use Rattle.whole_pictures.specs.WholeScenes.{IsWholeScene};

use draw_command::Drawn;
use linearization_points::points_of;
use recorder::{History, Part};
use scenes::{Scene, scene_of, shown_calls, window_around};
use std::alloc::Global;
use tag::{Memory, OpId};

/// The scene of the calls and of an order of them with its points, in which the faulty ones are shown.
pub(crate) fn whole_scene(
    alloc: Global,
    drawn: &Drawn<'_>,
    history: &History,
    calls: &Part<'_>,
    order: &[OpId],
    faulty: &[OpId],
) -> Result<Scene, Memory>
    requires apart { AreApart calls.now }
    requires known { AreCalls calls.now order.now }
    requires kept { KeepsPrecedence calls.now order.now }
    ensures { IfOk result
        (IsWholeScene drawn.now history.now.rows calls.now order.now faulty.now) }
{
    let points = points_of(alloc, calls, order)?;
    let window = window_around(calls, drawn.calls as usize, drawn.center(faulty));
    let shown = shown_calls(alloc, calls, window, faulty)?;
    scene_of(
        alloc,
        history,
        calls,
        shown.as_slice(),
        order,
        points.as_slice(),
    )
}
