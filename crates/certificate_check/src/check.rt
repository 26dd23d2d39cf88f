//! The check.
ghost use Rattle.std.specs.Prelude.{IfOk};
ghost use Rattle.certificate_check.specs.Verdicts.{IsVerdict};

use crate::listing::Listing;
use crate::{Fault, Verdict};
use recorder::Part;
use std::alloc::Global;
use tag::{Memory, OpId};

/// The verdict on the order, which is read as a claim: these calls, in this order, show that the
/// part is atomic.
///
/// `Yes` exactly where the list is an order of the part, and else the lowest fault. It takes time
/// in proportion to the calls and the logarithm of their count, and answers `Memory` only where an
/// allocation was refused.
pub fn check_part(alloc: Global, part: &Part<'_>, order: &[OpId]) -> Result<Verdict, Memory>
    ensures { IfOk result (λ verdict. IsVerdict part.now order.now verdict) }
{
    match Listing::new(alloc, part, order)? {
        Ok(listing) => listing.verdict(alloc),
        Err(i) => Ok(Verdict::No(Fault::UnknownCall(i))),
    }
}
