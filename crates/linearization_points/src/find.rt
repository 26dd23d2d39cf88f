//! Calls by their numbers.
ghost use Rattle.std.specs.Prelude.{◌≡◌, Contains};
ghost use Rattle.recorder.specs.declared.part.Call.{Call};

use certificate_check::find_call;
use recorder::Part;
use tag::OpId;

/// The place at which the call of that number begins.
pub(crate) fn invoked(part: &Part<'_>, op: OpId) -> usize
    requires { (call : Call) × Contains part.now call × (call.op ≡ op) }
    ensures { (call : Call) × Contains part.now call × (call.op ≡ op) × (result ≡ call.invoked) }
{
    match find_call(part, op) {
        Some(k) => part.call(k).invoked,
        None => unreachable!(),
    }
}
