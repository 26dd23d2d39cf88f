//! What a replica answers.
ghost use Rattle.std.specs.Prelude.{◌≡◌, IfOk};

use tag::{Memory, OpId, ReplicaId, Tag, Value};

/// What a replica answers to a request of a call.
#[derive(Debug, Drop, PartialEq, Eq)]
pub enum Reply {
    /// To a query: the replica's pair of the key.
    Held {
        op: OpId,
        replica: ReplicaId,
        tag: Tag,
        value: Option<Value>,
    },
    /// To a put: the replica's tag of the key is now at least the one that was put.
    Kept {
        op: OpId,
        replica: ReplicaId,
    },
}

impl Reply {
    /// An equal reply.
    pub fn copy(&self) -> Result<Reply, Memory>
        ensures { IfOk result (λ reply. reply ≡ self.now) }
    {
        match self {
            Reply::Held {
                op,
                replica,
                tag,
                value,
            } => Ok(Reply::Held {
                op: *op,
                replica: *replica,
                tag: *tag,
                value: Value::copy_of(value.as_ref())?,
            }),
            Reply::Kept { op, replica } => Ok(Reply::Kept {
                op: *op,
                replica: *replica,
            }),
        }
    }
}
