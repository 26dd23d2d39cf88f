//! What a client asks of a replica.
ghost use Rattle.std.specs.Prelude.{◌≡◌, IfOk};

use tag::{Key, Memory, OpId, Tag, Value};

/// What a client asks of a replica, in the name of a call.
#[derive(Debug, Drop, PartialEq, Eq)]
pub enum Request {
    /// To tell its pair of the key.
    Query {
        op: OpId,
        key: Key,
    },
    /// To adopt the pair of this tag and value for the key, if the tag is above its own.
    Put {
        op: OpId,
        key: Key,
        tag: Tag,
        value: Option<Value>,
    },
}

impl Request {
    /// An equal request.
    pub fn copy(&self) -> Result<Request, Memory>
        ensures { IfOk result (λ request. request ≡ self.now) }
    {
        match self {
            Request::Query { op, key } => Ok(Request::Query {
                op: *op,
                key: key.copy()?,
            }),
            Request::Put {
                op,
                key,
                tag,
                value,
            } => Ok(Request::Put {
                op: *op,
                key: key.copy()?,
                tag: *tag,
                value: Value::copy_of(value.as_ref())?,
            }),
        }
    }
}
