//! The parts of a history.
ghost use Rattle.std.specs.Prelude.{IfOk};

use super::History;
use crate::groups::Groups;
use crate::parts::Parts;
use tag::Memory;

impl History {
    ghost use Rattle.recorder.specs.Records.{AreParts};

    /// The calls of each key as the rows record them; the keys in the order in which they are first
    /// seen. The allocations are three, however many keys there are. `Memory` comes only where one
    /// was refused.
    pub fn parts(&self) -> Result<Parts<'_>, Memory>
        ensures { IfOk result (λ parts. AreParts self.now.rows parts.entries) }
    {
        let keys = self.record.rows.keys();
        let count = keys.keys().len();
        let key_numbers = self.record.key_numbers()?;
        let groups = Groups::of(*key_numbers.allocator(), &key_numbers, count)?;
        Ok(Parts::new(&self.record, groups))
    }
}
