//! What calls are sorted by.
ghost use Rattle.std.specs.Prelude.{◌≡◌};
ghost use Rattle.recorder.specs.declared.part.Call.{Call};
ghost use Rattle.recorder.specs.States.{IsStateOf};
ghost use Rattle.witness_order.specs.Keys.{key_of};

use recorder::CallState;
use tag::{OpId, Tag};

/// What a settled call is sorted by: its tag, then whether it reads, then its number, since the
/// numbers of a part rise with the places of the invocations.
#[derive(Clone, Copy, PartialEq, Eq, PartialOrd, Ord)]
pub struct SortKey {
    pub tag: Tag,
    pub is_read: bool,
    pub op: OpId,
}

/// What the call of that number and that state is sorted by. `None` comes where it isn't settled or
/// has no note.
pub(crate) fn sort_key(op: OpId, state: &CallState) -> Option<SortKey>
    ensures { (call : Call) → call.op ≡ op → IsStateOf call state.now → result ≡ key_of call }
{
    let is_read = !state.is_write;
    if is_read && state.response.is_none() {
        return None;
    }
    let tag = state.note?;
    Some(SortKey { tag, is_read, op })
}
