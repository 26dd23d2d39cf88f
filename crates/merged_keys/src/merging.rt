//! The history with all its calls on one key.
ghost use Rattle.std.specs.Prelude.{◌≡◌, IfOk, OnOk};
ghost use Rattle.recorder.specs.Answers.{with_row};
ghost use Rattle.merged_keys.specs.MergedKeys.{CanFollow, merged, merged_key, merged_on, on_key};

use recorder::{ActionRef, History, ReturnedRef, Row, RowRefusal};
use std::alloc::Global;
use tag::{ClientId, Key, Memory, NameError, OpId, Tag};

/// The name of the key on which the calls are put. Nobody sees it.
const MERGED_KEY: &str = "x";

/// Begins a call, which is the next one. Nothing but memory refuses it.
fn begin(
    made: &mut History,
    op: OpId,
    client: ClientId,
    key: &Key,
    action: &ActionRef<'_>,
) -> Result<(), Memory>
    requires { CanFollow made.old (Row.Invoke op client key.now action.now) }
    ensures { OnOk result (made.new
        ≡ with_row made.old (Row.Invoke op client key.now action.now)) }
{
    match made.invoke_text(client, key.as_str(), action) {
        Ok(_) => Ok(()),
        Err(RowRefusal::Memory) => Err(Memory),
        Err(_) => unreachable!(),
    }
}

/// Fixes a call's tag. Nothing but memory refuses it.
fn note(made: &mut History, op: OpId, tag: Tag) -> Result<(), Memory>
    requires { CanFollow made.old (Row.Note op tag) }
    ensures { OnOk result (made.new ≡ with_row made.old (Row.Note op tag)) }
{
    match made.note(op, tag) {
        Ok(()) => Ok(()),
        Err(RowRefusal::Memory) => Err(Memory),
        Err(_) => unreachable!(),
    }
}

/// Answers a call. Nothing but memory refuses it.
fn respond(made: &mut History, op: OpId, returned: &ReturnedRef<'_>) -> Result<(), Memory>
    requires { CanFollow made.old (Row.Respond op returned.now) }
    ensures { OnOk result (made.new ≡ with_row made.old (Row.Respond op returned.now)) }
{
    let _formed = made.row_count();
    match made.respond_text(op, returned) {
        Ok(()) => Ok(()),
        Err(RowRefusal::Memory) => Err(Memory),
        Err(_) => unreachable!(),
    }
}

/// Adds the row, with its call on that key.
fn add_row(made: &mut History, key: &Key, row: &Row<'_>) -> Result<(), Memory>
    requires { CanFollow made.old (on_key key.now row.now) }
    ensures { OnOk result (made.new ≡ with_row made.old (on_key key.now row.now)) }
{
    match row {
        Row::Invoke {
            op,
            client,
            action,
            ..
        } => begin(made, *op, *client, key, action),
        Row::Note { op, tag } => note(made, *op, *tag),
        Row::Respond { op, returned } => respond(made, *op, returned),
    }
}

/// The history with all its calls on that key.
fn on_key(alloc: Global, history: &History, key: &Key) -> Result<History, Memory>
    ensures { IfOk result (λ made. made ≡ merged_on key.now history.now) }
{
    let _room = history.calls();
    let rows = history.row_count();
    let mut made = History::new(alloc, history.limit());
    for place in 0..rows {
        let row = history.row(place);
        add_row(&mut made, key, &row)?;
    }
    Ok(made)
}

/// The key on which the calls are put.
fn merged_key(alloc: Global) -> Result<Key, Memory>
    ensures { IfOk result (λ key. key ≡ merged_key) }
{
    match Key::new(alloc, MERGED_KEY) {
        Ok(key) => Ok(key),
        Err(NameError::Memory) => Err(Memory),
        Err(_) => unreachable!(),
    }
}

/// The history with all its calls on one key: the same rows, but for the keys of the calls.
///
/// It takes time in proportion to the rows; `Memory` comes only where an allocation was refused.
pub fn merge_keys(alloc: Global, history: &History) -> Result<History, Memory>
    ensures { IfOk result (λ made. made ≡ merged history.now) }
{
    let key = merged_key(alloc)?;
    on_key(alloc, history, &key)
}
