//! Calls: each is a bar on its client's lifeline.
ghost use Rattle.std.specs.Prelude.{◌≡◌, IfOk, OnOk, Some, slice_get};
ghost use Rattle.message_scenes.specs.Calls.{calls_by, calls_with, is_of_call, is_pending, noted};
ghost use Rattle.message_scenes.specs.Lists.{change_first};

use crate::lists::{end_first, first_of};
use recorder::{ActionRef, History, KeyRef, ReturnedRef, Row};
use std::alloc::Global;
use tag::{Action, ClientId, Key, Memory, OpId, Returned, Tag};
use world_steps::Step;

/// How a call ends.
#[derive(Debug, Drop)]
pub enum CallEnd {
    /// It is answered by the step of the row.
    Answered { row: usize, returned: Returned },
    /// Its client stops by the step of that row.
    Stopped(usize),
    /// It is still pending after the last row.
    Open,
}

/// Where a call's tag is fixed, and its asking ends.
#[derive(Clone, Copy, Debug, PartialEq, Eq)]
pub struct PlacedNote {
    pub row: usize,
    pub tag: Tag,
}

/// A call.
#[derive(Debug, Drop)]
pub struct CallBar {
    pub call: OpId,
    pub client: ClientId,
    pub key: Key,
    pub action: Action,
    /// The row of its invocation.
    pub begins: usize,
    pub note: Option<PlacedNote>,
    pub end: CallEnd,
}

impl CallEnd {
    /// Whether it isn't there yet.
    pub fn is_open(&self) -> bool
        ensures { result ≡ is_pending self.now }
    {
        matches!(self, CallEnd::Open)
    }
}

/// An equal action, with a text of its own.
fn owned_action(alloc: Global, action: &ActionRef<'_>) -> Result<Action, Memory>
    ensures { IfOk result (λ own. own ≡ action.now) }
{
    match action.written() {
        None => Ok(Action::Read),
        Some(value) => Ok(Action::Write(value.to_value(alloc)?)),
    }
}

/// An equal answer, with a text of its own.
fn owned_answer(alloc: Global, returned: &ReturnedRef<'_>) -> Result<Returned, Memory>
    ensures { IfOk result (λ own. own ≡ returned.now) }
{
    match returned.answered() {
        None => Ok(Returned::Written),
        Some(None) => Ok(Returned::Value(None)),
        Some(Some(value)) => Ok(Returned::Value(Some(value.to_value(alloc)?))),
    }
}

/// Adds the bar of a call that begins.
fn begin(
    bars: &mut Vec<CallBar>,
    row: usize,
    call: OpId,
    client: ClientId,
    key: &KeyRef<'_>,
    action: &ActionRef<'_>,
) -> Result<(), Memory>
    ensures { OnOk result (bars.new.items
        ≡ calls_with row (Some (Row.Invoke call client key.now action.now)) bars.old.items) }
{
    let alloc = *bars.allocator();
    bars.push(CallBar {
        call,
        client,
        key: key.key().copy()?,
        action: owned_action(alloc, action)?,
        begins: row,
        note: None,
        end: CallEnd::Open,
    })?;
    Ok(())
}

/// Notes the call.
fn note(bars: &mut [CallBar], row: usize, op: OpId, tag: Tag)
    ensures { bars.new ≡ change_first (is_of_call op) (noted row tag) bars.old }
{
    match first_of(bars, op) {
        Some(k) => bars[k].note = Some(PlacedNote { row, tag }),
        None => {}
    }
}

/// Adds, notes or ends a bar by a row of the record.
fn record_row(bars: &mut Vec<CallBar>, row: usize, recorded: Option<Row<'_>>) -> Result<(), Memory>
    ensures { OnOk result (bars.new.items ≡ calls_with row recorded.entry bars.old.items) }
{
    match &recorded {
        None => Ok(()),
        Some(
            Row::Invoke {
                op,
                client,
                key,
                action,
            },
        ) => begin(bars, row, *op, *client, key, action),
        Some(Row::Note { op, tag }) => {
            note(bars, row, *op, *tag);
            Ok(())
        }
        Some(Row::Respond { op, returned }) => {
            let returned = owned_answer(*bars.allocator(), returned)?;
            end_first(bars, *op, CallEnd::Answered { row, returned });
            Ok(())
        }
    }
}

/// The row of the record at that place, if it has one.
pub(crate) fn row_at(history: &History, place: usize) -> Option<Row<'_>>
    ensures { result ≡ slice_get history.now.rows place }
{
    if place < history.row_count() {
        Some(history.row(place))
    } else {
        None
    }
}

/// Adds, notes or ends a bar by the step of the row, which may have added a row to the record.
pub(crate) fn add_calls(
    bars: &mut Vec<CallBar>,
    row: usize,
    step: &Step,
    recorded: Option<Row<'_>>,
) -> Result<(), Memory>
    ensures { OnOk result
        (bars.new.items ≡ calls_by row step.now recorded.entry bars.old.items) }
{
    match step {
        Step::StopClient { client } => {
            end_first(bars, *client, CallEnd::Stopped(row));
            Ok(())
        }
        _ => record_row(bars, row, recorded),
    }
}
