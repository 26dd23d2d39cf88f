//! What is sent, and to whom.
ghost use Rattle.std.specs.Prelude.{◌≡◌, IfOk};

use replica::{Reply, Request};
use tag::{ClientId, Memory, ReplicaId};

/// A request to a replica, or a reply to a client.
#[derive(Debug, Drop, PartialEq, Eq)]
pub enum Message {
    ToReplica(ReplicaId, Request),
    ToClient(ClientId, Reply),
}

impl Message {
    /// An equal message.
    pub fn copy(&self) -> Result<Message, Memory>
        ensures { IfOk result (λ message. message ≡ self.now) }
    {
        match self {
            Message::ToReplica(replica, request) => {
                Ok(Message::ToReplica(*replica, request.copy()?))
            }
            Message::ToClient(client, reply) => Ok(Message::ToClient(*client, reply.copy()?)),
        }
    }
}
