//! The lanes of a scene, one for each client.
ghost use Rattle.std.specs.Prelude.{ℕ, ◌≡◌, ◌↔◌, IfOk, Some, Contains, slice_get};
ghost use Rattle.std.specs.List.Sorted.{IsStrictlyIncreasing};
ghost use Rattle.scenes.specs.Scenes.{HasCallOf, IsRisingListOf, IsSelection};

use recorder::Part;
use std::alloc::Global;
use tag::{ClientId, Memory};

/// The clients of the shown calls, each once, in rising order.
pub(crate) fn lanes_of(
    alloc: Global,
    part: &Part<'_>,
    shown: &[usize],
) -> Result<Vec<ClientId>, Memory>
    requires { IsSelection part.now shown.now }
    ensures { IfOk result (λ lanes. IsRisingListOf (HasCallOf part.now shown.now) lanes.items) }
{
    let mut lanes = clients_of(alloc, part, shown)?;
    lanes.sort_unstable();
    lanes.dedup();
    Ok(lanes)
}

/// The clients of the shown calls, in any order.
fn clients_of(alloc: Global, part: &Part<'_>, shown: &[usize]) -> Result<Vec<ClientId>, Memory>
    requires { IsSelection part.now shown.now }
    ensures { IfOk result (λ clients. (client : ℕ)
        → Contains clients.items client ↔ HasCallOf part.now shown.now client) }
{
    let mut clients = Vec::with_capacity(alloc, shown.len())?;
    for i in shown {
        clients.push(part.call(*i).client)?;
    }
    Ok(clients)
}

/// The index of the client's lane.
pub(crate) fn lane_of(lanes: &[ClientId], client: ClientId) -> usize
    requires rising { IsStrictlyIncreasing lanes.now }
    requires there { Contains lanes.now client }
    ensures { slice_get lanes.now result ≡ Some client }
{
    match lanes.binary_search(&client) {
        Ok(lane) => lane,
        Err(_) => unreachable!(),
    }
}
