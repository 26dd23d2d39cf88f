//! The points of a list of calls.
ghost use Rattle.std.specs.Prelude.{IfOk};
ghost use Rattle.linearization_points.specs.Points.{AreApart, AreCalls, ArePoints, KeepsPrecedence};

use crate::find::invoked;
use recorder::Part;
use std::alloc::Global;
use tag::{Memory, OpId};

/// The earliest linearization points of the list: each call takes effect as soon as it and all
/// that stand before it have begun.
///
/// It takes time in proportion to the list and the logarithm of the calls' count, and answers
/// `Memory` only where an allocation was refused.
pub fn points_of(alloc: Global, part: &Part<'_>, order: &[OpId]) -> Result<Vec<usize>, Memory>
    requires apart { AreApart part.now }
    requires known { AreCalls part.now order.now }
    requires kept { KeepsPrecedence part.now order.now }
    ensures { IfOk result (λ points. ArePoints part.now order.now points.items) }
{
    let _sequence = part.len();
    let mut points = Vec::with_capacity(alloc, order.len())?;
    let mut latest = 0usize;
    for op in order {
        latest = latest.max(invoked(part, *op));
        points.push(latest)?;
    }
    Ok(points)
}
