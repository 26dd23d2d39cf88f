//! How many calls a key has, and of how many clients.
ghost use Rattle.std.specs.Prelude.{◌≡◌, IfOk, count_by, is_none, map};
ghost use Rattle.draw_command.specs.Counts.{AreCountsOf, IsClientCount};

use recorder::Part;
use scenes::most_at_once;
use std::alloc::Global;
use tag::{ClientId, Memory};

/// The counts of a key's calls.
#[derive(Clone, Copy, Debug)]
pub(crate) struct KeyCounts {
    pub(crate) calls: usize,
    /// The clients of these calls.
    pub(crate) clients: usize,
    /// The calls without a response.
    pub(crate) pending: usize,
    /// The greatest number of calls that are under way at once.
    pub(crate) at_once: usize,
}

/// The clients of the part's calls, call by call.
fn clients_of(alloc: Global, part: &Part<'_>) -> Result<Vec<ClientId>, Memory>
    ensures { IfOk result (λ clients. clients.items ≡ map (λ call. call.client) part.now) }
{
    let mut clients = Vec::with_capacity(alloc, part.len())?;
    for place in 0..part.len() {
        let state = part.state(place);
        clients.push(state.client)?;
    }
    Ok(clients)
}

/// How many clients have calls in the part.
fn client_count(alloc: Global, part: &Part<'_>) -> Result<usize, Memory>
    ensures { IfOk result (IsClientCount part.now) }
{
    let mut clients = clients_of(alloc, part)?;
    clients.sort_unstable();
    clients.dedup();
    Ok(clients.len())
}

/// How many of the part's calls are pending.
fn pending_count(part: &Part<'_>) -> usize
    ensures { result ≡ count_by (λ call. is_none call.response) part.now }
{
    let mut pending = 0usize;
    for place in 0..part.len() {
        let state = part.state(place);
        if state.response.is_none() {
            pending += 1;
        }
    }
    pending
}

/// The counts of the part's calls.
pub(crate) fn counts_of(alloc: Global, part: &Part<'_>) -> Result<KeyCounts, Memory>
    ensures { IfOk result (AreCountsOf part.now) }
{
    Ok(KeyCounts {
        calls: part.len(),
        clients: client_count(alloc, part)?,
        pending: pending_count(part),
        at_once: most_at_once(alloc, part)?,
    })
}
