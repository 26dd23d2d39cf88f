//! What a replica keeps for a key.
ghost use Rattle.std.specs.Prelude.{◌≡◌, IfOk};

use tag::{Memory, Tag, Value};

/// A tag with the value that was written under it, or absent if nobody wrote.
#[derive(Debug, Drop, PartialEq, Eq)]
pub struct Pair {
    pub tag: Tag,
    pub value: Option<Value>,
}

impl Pair {
    /// An equal pair.
    pub fn copy(&self) -> Result<Pair, Memory>
        ensures { IfOk result (λ pair. pair ≡ self.now) }
    {
        Ok(Pair {
            tag: self.tag,
            value: Value::copy_of(self.value.as_ref())?,
        })
    }
}
