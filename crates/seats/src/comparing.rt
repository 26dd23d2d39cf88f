//! Whether a log is what a record has of its client.
ghost use Rattle.std.specs.Prelude.{◌≡◌, ℕ, false, length, map, IfOk, IsTrue};
ghost use Rattle.tag.specs.declared.actions.Returned.{Returned};
ghost use Rattle.recorder.specs.declared.row.Row.TheVariants as event;
ghost use Rattle.world_steps.specs.Sound.{NotCompleted};
ghost use Rattle.seats.specs.Comparisons.{AreInvocations, IsInvocationBy, IsInvocationOfEntry};
ghost use Rattle.seats.specs.Comparisons.{ResponseMatches, ResponsesMatch};
ghost use Rattle.recorder.specs.Logs.{IsLog, of_hall};

use recorder::{ActionRef, Entry, History, KeyRef, ReturnedRef, Row};
use std::alloc::Global;
use tag::{ClientId, Memory, OpId, Returned};

/// The entries of one hall, in order. `Memory` comes only if an allocation failed.
pub fn entries_of_hall<'a>(
    alloc: Global,
    log: &'a [Entry],
    hall: usize,
) -> Result<Vec<&'a Entry>, Memory>
    ensures { IfOk result (λ entries. map (λ e. e.now) entries.items ≡ of_hall hall log.now) }
{
    let mut entries = Vec::new(alloc);
    for entry in log {
        if usize::from(entry.hall) == hall {
            entries.push(entry)?;
        }
    }
    Ok(entries)
}

/// Whether the entries are the client's calls in the record, each with its place, its key, what it does,
/// and its answer.
pub fn is_log(history: &History, client: ClientId, entries: &[&Entry]) -> bool
    ensures { IsTrue result → IsLog history.now.rows client (map (λ e. e.now) entries.now) }
{
    are_invocations(history, client, entries) && have_responses(history, entries)
}

/// Whether the entries are the client's calls as the rows begin them.
fn are_invocations(history: &History, client: ClientId, entries: &[&Entry]) -> bool
    ensures { IsTrue result → AreInvocations history.now.rows client (length history.now.rows)
        (map (λ e. e.now) entries.now) (length entries.now) }
{
    let mut count = 0;
    for place in 0..history.row_count() {
        let row = history.row(place);
        if begins(&row, client) {
            if count >= entries.len() {
                return false;
            }
            let entry = entries[count];
            if entry.invoked != place || !is_invocation(&row, client, entry) {
                return false;
            }
            count += 1;
        }
    }
    count == entries.len()
}

/// Whether the row begins a call of the client.
fn begins(row: &Row<'_>, client: ClientId) -> bool
    ensures { (result ≡ false) → IsInvocationBy row.now client → ⊥ }
{
    match row {
        Row::Invoke { client: caller, .. } => *caller == client,
        _ => false,
    }
}

/// Whether the row begins the entry's call.
fn is_invocation(row: &Row<'_>, client: ClientId, entry: &Entry) -> bool
    ensures { IsTrue result → IsInvocationOfEntry row.now client entry.now }
{
    match row {
        Row::Invoke {
            op,
            client: caller,
            key,
            action,
        } => {
            *op == entry.op
                && *caller == client
                && *key == KeyRef::of(&entry.key)
                && *action == ActionRef::of(&entry.action)
        }
        _ => false,
    }
}

/// Whether each entry has the response that the rows have of its call, or none with them.
fn have_responses(history: &History, entries: &[&Entry]) -> bool
    ensures { IsTrue result → ResponsesMatch history.now.rows (map (λ e. e.now) entries.now)
        (length entries.now) }
{
    for entry in entries {
        if !has_response(history, entry) {
            return false;
        }
    }
    true
}

/// Whether the entry has the response that the rows have of its call, or none with them.
fn has_response(history: &History, entry: &Entry) -> bool
    ensures { IsTrue result → ResponseMatches history.now.rows entry.now }
{
    let Some(response) = &entry.response else {
        return is_unanswered(history, entry.op);
    };
    let place = response.place();
    place < history.row_count() && is_response(&history.row(place), entry.op, response.returned())
}

/// Whether the row is that response to the call.
fn is_response(row: &Row<'_>, op: OpId, returned: &Returned) -> bool
    ensures { IsTrue result → row.now ≡ event.Respond op returned.now }
{
    match row {
        Row::Respond {
            op: answered,
            returned: answer,
        } => *answered == op && *answer == ReturnedRef::of(returned),
        _ => false,
    }
}

/// Whether no row answers the call.
fn is_unanswered(history: &History, op: OpId) -> bool
    ensures { IsTrue result → NotCompleted history.now.rows op }
{
    for place in 0..history.row_count() {
        if answers(&history.row(place), op) {
            return false;
        }
    }
    true
}

/// Whether the row answers the call.
fn answers(row: &Row<'_>, op: OpId) -> bool
    ensures { (result ≡ false) → (returned : Returned) → row.now ≡ event.Respond op returned → ⊥ }
{
    match row {
        Row::Respond { op: answered, .. } => *answered == op,
        _ => false,
    }
}
