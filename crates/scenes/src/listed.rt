//! Where the calls of a scene stand in an order that may be none of theirs.
ghost use Rattle.std.specs.Prelude.{◌<◌, ◌⊎◌, IfOk, length, map};
ghost use Rattle.std.specs.List.Sorted.{IsStrictlyIncreasing};
ghost use Rattle.scenes.specs.Listed.{AreFirstPlaces, IsKept, IsPut};

use crate::Bar;
use crate::dots::bar_of;
use crate::first_fit::all_with;
use std::alloc::Global;
use tag::{Memory, OpId};

/// Puts the place beside the bar of that index, if it has none yet.
fn keep_first(places: &mut Vec<Option<usize>>, bar: usize, place: usize)
    requires { bar < length places.old.items }
    ensures { IsPut places.old.items places.new.items bar place
        ⊎ IsKept places.old.items places.new.items bar }
{
    if places[bar].is_none() {
        places[bar] = Some(place);
    }
}

/// Beside each bar the first place of its call in the order, counted from 0; `None` if the order
/// doesn't list it.
///
/// It takes time in proportion to the order, times the logarithm of the bars' count, and answers
/// `Memory` only where an allocation was refused.
pub fn first_places(
    alloc: Global,
    bars: &[Bar],
    order: &[OpId],
) -> Result<Vec<Option<usize>>, Memory>
    requires { IsStrictlyIncreasing (map (λ bar. bar.call.0) bars.now) }
    ensures { IfOk result (λ places. AreFirstPlaces order.now bars.now places.items) }
{
    let mut places = all_with(alloc, bars.len(), None)?;
    for place in 0..order.len() {
        if let Some(bar) = bar_of(bars, order[place]) {
            keep_first(&mut places, bar, place);
        }
    }
    Ok(places)
}
