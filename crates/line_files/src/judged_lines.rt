//! Lines that were judged, and what follows them.
ghost use Rattle.std.specs.Prelude.{◌≡◌, ◌++◌, [], IfOk};

use crate::judgements::Judgements;
use tag::Memory;

/// What whole lines show by themselves, and the rest after them, a line under way.
#[derive(Drop)]
pub struct JudgedLines<T, L> {
    pub judgements: Judgements<T, L>,
    pub rest: Vec<u8>,
}

impl<T: Drop, L: Drop> JudgedLines<T, L> {
    /// The rest with a block that ends no line.
    pub(crate) fn of_no_line(mut rest: Vec<u8>, block: &[u8]) -> Result<JudgedLines<T, L>, Memory>
        ensures none { IfOk result (λ judged. judged.judgements ≡ []) }
        ensures rest { IfOk result (λ judged. judged.rest.items ≡ rest.items ++ block.now) }
    {
        rest.extend_from_slice(block)?;
        Ok(JudgedLines {
            judgements: Judgements::new(*rest.allocator()),
            rest,
        })
    }
}
