//! A part's calls by their numbers.
ghost use Rattle.std.specs.Prelude.{◌≡◌, IfSome, IfNone};
ghost use Rattle.recorder.specs.declared.part.Call.{Call};
ghost use Rattle.reasons.specs.Calls.{IsCallOf};

use certificate_check::find_call;
use recorder::{Call, Part};
use tag::OpId;

/// The call of that number, if there is one.
pub(crate) fn find<'h>(part: &Part<'h>, op: OpId) -> Option<Call<'h>>
    ensures found { IfSome result (λ call. IsCallOf part.now op call) }
    ensures none { IfNone result ((call : Call) → IsCallOf part.now op call → ⊥) }
{
    match find_call(part, op) {
        Some(k) => Some(part.call(k)),
        None => None,
    }
}

/// The call of that number, where there is one, by a binary search.
pub fn call_of<'h>(part: &Part<'h>, op: OpId) -> Call<'h>
    requires { (call : Call) × IsCallOf part.now op call }
    ensures { IsCallOf part.now op result }
{
    match find(part, op) {
        Some(call) => call,
        None => unreachable!(),
    }
}
