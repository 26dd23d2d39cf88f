//! The write without a note that a read may have read.
ghost use Rattle.std.specs.Prelude.{◌≡◌, ◌↔◌, IsTrue, None};
ghost use Rattle.tag.specs.declared.actions.Action.{Action};
ghost use Rattle.recorder.specs.Parts.{IsPending};
ghost use Rattle.recorder.specs.Sound.{IsRead};
ghost use Rattle.reasons.specs.Unnoted.{IsFirstUnnoted};

use recorder::{Call, Part, ValueRef};

/// Whether the call is a write of the value that has neither a response nor a note.
fn is_unnoted_write(call: &Call<'_>, value: &ValueRef<'_>) -> bool
    ensures { IsTrue result ↔ ((call.now.action ≡ Action.Write value.now)
        × IsPending call.now × (call.now.note ≡ None)) }
{
    match call.action.written() {
        Some(written) => written == *value && call.response.is_none() && call.note.is_none(),
        None => false,
    }
}

/// The first write of what the read answers that began no later than the read was answered and has
/// neither a response nor a note, if there is one.
///
/// It takes time in proportion to the calls that began before the read was answered.
pub(crate) fn unnoted_writer<'h>(part: &Part<'h>, read: &Call<'_>) -> Option<Call<'h>>
    requires { IsRead read.now }
    ensures { IsFirstUnnoted part.now read.now result }
{
    let Some(response) = &read.response else {
        return None;
    };
    let Some(Some(value)) = response.returned.answered() else {
        return None;
    };
    for k in 0..part.len() {
        let call = part.call(k);
        if response.place < call.invoked {
            return None;
        }
        if is_unnoted_write(&call, &value) {
            return Some(call);
        }
    }
    None
}
