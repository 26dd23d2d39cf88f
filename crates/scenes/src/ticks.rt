//! The ticks of a scene: the places of its bars.
ghost use Rattle.std.specs.Prelude.{◌≡◌, ◌++◌, IfOk, OnOk};
ghost use Rattle.std.specs.List.{flat_map};
ghost use Rattle.std.specs.Option.{option_to_list};
ghost use Rattle.scenes.specs.Scenes.{HasPlace, IsRisingListOf, places_of};

use crate::Bar;
use std::alloc::Global;
use tag::Memory;

/// The places of the bars, each once, in rising order.
pub(crate) fn ticks_of(alloc: Global, bars: &[Bar]) -> Result<Vec<usize>, Memory>
    ensures { IfOk result (λ ticks. IsRisingListOf (HasPlace bars.now) ticks.items) }
{
    let mut ticks = all_places(alloc, bars)?;
    ticks.sort_unstable();
    ticks.dedup();
    Ok(ticks)
}

/// The places of the bars, bar by bar.
fn all_places(alloc: Global, bars: &[Bar]) -> Result<Vec<usize>, Memory>
    ensures { IfOk result (λ places. places.items ≡ flat_map places_of bars.now) }
{
    let mut places = Vec::new(alloc);
    for bar in bars {
        add_places(&mut places, bar)?;
    }
    Ok(places)
}

/// Adds the places of the bar.
fn add_places(places: &mut Vec<usize>, bar: &Bar) -> Result<(), Memory>
    ensures { OnOk result (places.new.items ≡ places.old.items ++ places_of bar.now) }
{
    places.push(bar.begins)?;
    add_some(places, bar.note)?;
    add_some(places, bar.answered)?;
    Ok(())
}

/// Adds the place, if it is one.
pub(crate) fn add_some(places: &mut Vec<usize>, place: Option<usize>) -> Result<(), Memory>
    ensures { OnOk result (places.new.items ≡ places.old.items ++ option_to_list place) }
{
    if let Some(place) = place {
        places.push(place)?;
    }
    Ok(())
}
