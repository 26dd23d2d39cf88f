//! The dots of a scene: the linearization points of its calls.
ghost use Rattle.std.specs.Prelude.{◌≡◌, IfOk, IfSome, IfNone, Some, Contains, slice_get, map};
ghost use Rattle.std.specs.List.Sorted.{IsStrictlyIncreasing};
ghost use Rattle.scenes.specs.declared.scene.Bar.{Bar};
ghost use Rattle.scenes.specs.Scenes.{AreDotsOf};

use crate::{Bar, Dot};
use std::alloc::Global;
use tag::{Memory, OpId};

/// A dot for each place of the order whose call has a bar.
pub(crate) fn dots_of(
    alloc: Global,
    bars: &[Bar],
    order: &[OpId],
    points: &[usize],
) -> Result<Vec<Dot>, Memory>
    requires { IsStrictlyIncreasing (map (λ bar. bar.call.0) bars.now) }
    ensures { IfOk result (λ dots. AreDotsOf order.now points.now bars.now dots.items) }
{
    let mut dots = Vec::new(alloc);
    for number in 0..order.len().min(points.len()) {
        if let Some(bar) = bar_of(bars, order[number]) {
            dots.push(Dot {
                bar,
                number,
                place: points[number],
            })?;
        }
    }
    Ok(dots)
}

/// The index of the bar of that call, if there is one.
pub(crate) fn bar_of(bars: &[Bar], op: OpId) -> Option<usize>
    requires { IsStrictlyIncreasing (map (λ bar. bar.call.0) bars.now) }
    ensures found { IfSome result (λ k. (bar : Bar) × (slice_get bars.now k ≡ Some bar)
        × (bar.call ≡ op)) }
    ensures none { IfNone result ((bar : Bar) → Contains bars.now bar → bar.call ≡ op → ⊥) }
{
    bars.binary_search_by_key(&op.0, |bar| bar.call.0).ok()
}
