//! The bars of a scene, one for each shown call.
ghost use Rattle.std.specs.Prelude.{◌≡◌, IfOk, map};
ghost use Rattle.std.specs.List.Sorted.{IsStrictlyIncreasing};
ghost use Rattle.std.specs.Option.{option_map};
ghost use Rattle.scenes.specs.Scenes.{AreBegunBars, HasCallOf, IsRisingListOf, IsSelection};

use crate::Bar;
use crate::ends::first_end;
use crate::lanes::lane_of;
use reasons::note_place;
use recorder::{History, Part, Response};
use std::alloc::Global;
use tag::{ClientId, Memory};

/// A bar for each shown call, in the order of the calls, without regard to dots.
pub(crate) fn bars_of(
    alloc: Global,
    history: &History,
    part: &Part<'_>,
    shown: &[usize],
    lanes: &[ClientId],
) -> Result<Vec<Bar>, Memory>
    requires shown { IsSelection part.now shown.now }
    requires lanes { IsRisingListOf (HasCallOf part.now shown.now) lanes.now }
    ensures bars { IfOk result
        (λ bars. AreBegunBars part.now shown.now history.now.rows lanes.now bars.items) }
    ensures calls { IfOk result
        (λ bars. IsStrictlyIncreasing (map (λ bar. bar.call.0) bars.items)) }
{
    let _sequence = part.len();
    let mut bars = Vec::with_capacity(alloc, shown.len())?;
    for i in shown {
        let call = part.call(*i);
        let answered = end_of(&call.response);
        let note = note_place(history, &call);
        bars.push(Bar {
            call: call.op,
            lane: lane_of(lanes, call.client),
            begins: call.invoked,
            ends: first_end(lanes.len(), answered, call.invoked, note),
            answered,
            note,
        })?;
    }
    Ok(bars)
}

/// The place of the response; a pending call has none.
pub(crate) fn end_of(response: &Option<Response<'_>>) -> Option<usize>
    ensures { result ≡ option_map (λ response. response.place) response.now }
{
    match response {
        Some(response) => Some(response.place),
        None => None,
    }
}
