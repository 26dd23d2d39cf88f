//! Rows of a history of any length, handed on one after another.
ghost use Rattle.std.specs.Prelude.{◌≡◌, true, List};
ghost use Rattle.tag.specs.Names.{is_key};
ghost use Rattle.recorder.specs.declared.row.Row.{Row};
ghost use Rattle.file_format.specs.LongHistories.{IsTaken};

use crate::fault::Stop;
use crate::line_row::{LineRow, RowKind};
use recorder::{ActionRef, ReturnedRef, ValueRef};
use tag::{ClientId, OpId, Tag};

/// What takes the rows of a history of any length, one after another, and keeps of them what it wants.
///
/// A row that may not follow is refused with its first fault, as by `follow`, but for `TooManyCalls`, which
/// never comes: after call 4,294,967,295 each further one is out of turn. A row with a fault isn't taken.
pub trait TakesRows: Drop {
    ghost HasTaken: { List Row → Self → Type 0 };

    /// A client begins a call on the key of that text.
    fn invoke(
        &mut self,
        op: OpId,
        client: ClientId,
        key: &str,
        action: &ActionRef<'_>,
    ) -> Result<(), Stop>
        requires { is_key key.now ≡ true }
        ensures { IsTaken HasTaken self.old (Row.Invoke op client key.now action.now) result
            self.new };

    /// A call's tag is fixed.
    fn note(&mut self, op: OpId, tag: Tag) -> Result<(), Stop>
        ensures { IsTaken HasTaken self.old (Row.Note op tag) result self.new };

    /// A call is answered.
    fn respond(&mut self, op: OpId, returned: &ReturnedRef<'_>) -> Result<(), Stop>
        ensures { IsTaken HasTaken self.old (Row.Respond op returned.now) result self.new };
}

/// Hands the row on, and answers what its taker answers. Its texts are those of the line, and aren't copied.
#[inline(always)]
pub fn hand_on<T: TakesRows>(taker: &mut T, row: LineRow) -> Result<(), Stop>
    ensures { IsTaken T.HasTaken taker.old row result taker.new }
{
    let LineRow { kind, texts } = row;
    match kind {
        RowKind::Read { op, client } => taker.invoke(op, client, texts.key(), &ActionRef::read()),
        RowKind::Write { op, client } => {
            let action = ActionRef::write(ValueRef::of_text(texts.value()));
            taker.invoke(op, client, texts.key(), &action)
        }
        RowKind::Note { op, tag } => taker.note(op, tag),
        RowKind::Done { op } => taker.respond(op, &ReturnedRef::done()),
        RowKind::Absent { op } => taker.respond(op, &ReturnedRef::value(None)),
        RowKind::Answer { op } => {
            let value = ValueRef::of_text(texts.value());
            taker.respond(op, &ReturnedRef::value(Some(value)))
        }
    }
}
