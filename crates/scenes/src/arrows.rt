//! Arrows from the bar of one call to that of another.
ghost use Rattle.std.specs.Prelude.{◌≡◌, IfNone, IfSome, map};
ghost use Rattle.std.specs.List.Sorted.{IsStrictlyIncreasing};
ghost use Rattle.scenes.specs.Arrows.{IsUndrawn, Joins};

use crate::Bar;
use crate::dots::bar_of;
use tag::OpId;

/// Which bars an arrow joins, by their indexes.
#[derive(Clone, Copy, Debug, PartialEq, Eq)]
pub struct Arrow {
    /// The bar at which it begins.
    pub from: usize,
    /// The bar to which it leads.
    pub to: usize,
}

/// The arrow from the bar of the one call to that of the other; `None` unless both have one.
///
/// It takes time in proportion to the logarithm of the bars' count.
pub fn arrow_between(bars: &[Bar], from: OpId, to: OpId) -> Option<Arrow>
    requires { IsStrictlyIncreasing (map (λ bar. bar.call.0) bars.now) }
    ensures joins { IfSome result (Joins bars.now from to) }
    ensures none { IfNone result (IsUndrawn bars.now from to) }
{
    let Some(begin) = bar_of(bars, from) else {
        return None;
    };
    match bar_of(bars, to) {
        Some(end) => Some(Arrow {
            from: begin,
            to: end,
        }),
        None => None,
    }
}
