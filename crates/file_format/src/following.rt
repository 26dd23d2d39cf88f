//! Rows that follow one another.
ghost use Rattle.std.specs.Prelude.{ℕ, ◌≡◌, ◌≤◌, true};
ghost use Rattle.tag.specs.Names.{is_key};
ghost use Rattle.tag.specs.Limits.{call_limit};
ghost use Rattle.recorder.specs.declared.row.Row.{Row};
ghost use Rattle.recorder.specs.Histories.{IsWellFormed, call_count};
ghost use Rattle.file_format.specs.Places.{FollowsAfter, FollowsInHall, FollowsRow};

use crate::LineFault;
use crate::fault::Stop;
use crate::line_row::{LineRow, RowKind};
use recorder::{ActionRef, History, ReturnedRef, RowRefusal, ValueRef};
use tag::{ClientId, OpId, Tag};

/// The most calls of a file.
pub const MOST_CALLS: u32 = 1_000_000;

fn follow_invoke(
    history: &mut History,
    earlier: usize,
    op: OpId,
    client: ClientId,
    key: &str,
    action: &ActionRef<'_>,
) -> Result<(), Stop>
    requires { is_key key.now ≡ true }
    ensures { FollowsInHall earlier history.old
        (Row.Invoke op client key.now action.now) result history.new }
{
    if op.0 as usize != history.calls() {
        return Err(Stop::Fault(LineFault::CallOutOfTurn));
    }
    if earlier >= MOST_CALLS as usize {
        if history.is_busy(client) {
            return Err(Stop::Fault(LineFault::ClientBusy));
        }
        return Err(Stop::Fault(LineFault::TooManyCalls));
    }
    match history.invoke_text(client, key, action) {
        Ok(_) => Ok(()),
        Err(RowRefusal::ClientBusy) => Err(Stop::Fault(LineFault::ClientBusy)),
        Err(_) => Err(Stop::Memory),
    }
}

fn follow_note(history: &mut History, op: OpId, tag: Tag) -> Result<(), Stop>
    ensures { (earlier : ℕ) → FollowsAfter earlier history.old
        (Row.Note op tag) result history.new }
{
    match history.note(op, tag) {
        Ok(()) => Ok(()),
        Err(RowRefusal::NotPending) => Err(Stop::Fault(LineFault::CallNotPending)),
        Err(RowRefusal::NoteTwice) => Err(Stop::Fault(LineFault::NoteTwice)),
        Err(_) => Err(Stop::Memory),
    }
}

fn follow_respond(history: &mut History, op: OpId, returned: &ReturnedRef<'_>) -> Result<(), Stop>
    ensures { (earlier : ℕ) → FollowsAfter earlier history.old
        (Row.Respond op returned.now) result history.new }
{
    match history.respond_text(op, returned) {
        Ok(()) => Ok(()),
        Err(RowRefusal::NotPending) => Err(Stop::Fault(LineFault::CallNotPending)),
        Err(RowRefusal::WrongKind) => Err(Stop::Fault(LineFault::WrongKind)),
        Err(_) => Err(Stop::Memory),
    }
}

#[inline(always)]
fn follow_row(history: &mut History, earlier: usize, row: LineRow) -> Result<(), Stop>
    ensures { FollowsInHall earlier history.old row result history.new }
{
    let LineRow { kind, texts } = row;
    match kind {
        RowKind::Read { op, client } => {
            follow_invoke(
                history,
                earlier,
                op,
                client,
                texts.key(),
                &ActionRef::read(),
            )
        }
        RowKind::Write { op, client } => {
            let action = ActionRef::write(ValueRef::of_text(texts.value()));
            follow_invoke(history, earlier, op, client, texts.key(), &action)
        }
        RowKind::Note { op, tag } => follow_note(history, op, tag),
        RowKind::Done { op } => follow_respond(history, op, &ReturnedRef::done()),
        RowKind::Absent { op } => follow_respond(history, op, &ReturnedRef::value(None)),
        RowKind::Answer { op } => {
            let value = ValueRef::of_text(texts.value());
            follow_respond(history, op, &ReturnedRef::value(Some(value)))
        }
    }
}

/// Adds the row at the end of its hall's history, where so many calls began in all halls, or says
/// which fault it has there.
#[inline(always)]
pub(crate) fn follow_in_hall(
    history: &mut History,
    earlier: usize,
    row: LineRow,
) -> Result<(), Stop>
    ensures follows { FollowsInHall earlier history.old row result history.new }
    ensures formed { IsWellFormed history.new.rows }
    ensures few { call_count history.new.rows ≤ history.new.limit }
{
    let result = follow_row(history, earlier, row);
    let _rows = history.row_count();
    let _calls = history.calls();
    result
}

/// Adds the row at the end, or says which fault it has there.
///
/// The history is one of a file, and so may have 1,000,000 calls, as `History::new(alloc,
/// MOST_CALLS)` makes it; that stays so.
pub fn follow(history: &mut History, row: LineRow) -> Result<(), Stop>
    requires limit { history.old.limit ≡ call_limit }
    ensures follows { FollowsRow history.old row result history.new }
    ensures limit { history.new.limit ≡ call_limit }
    ensures formed { IsWellFormed history.new.rows }
    ensures few { call_count history.new.rows ≤ history.new.limit }
{
    let earlier = history.calls();
    follow_in_hall(history, earlier, row)
}
