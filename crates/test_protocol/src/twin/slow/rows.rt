//! Rows that the slow world keeps.
use recorder::{ActionRef, KeyRef, ReturnedRef, Row};
use tag::{Action, ClientId, Key, OpId, Returned, Tag};

/// A row with texts of its own.
#[derive(Drop)]
pub enum SlowRow {
    Invoke {
        op: OpId,
        client: ClientId,
        key: Key,
        action: Action,
    },
    Note {
        op: OpId,
        tag: Tag,
    },
    Respond {
        op: OpId,
        returned: Returned,
    },
}

impl SlowRow {
    /// The row as a history lends it.
    pub fn lent(&self) -> Row<'_> {
        match self {
            SlowRow::Invoke {
                op,
                client,
                key,
                action,
            } => Row::Invoke {
                op: *op,
                client: *client,
                key: KeyRef::of(key),
                action: ActionRef::of(action),
            },
            SlowRow::Note { op, tag } => Row::Note { op: *op, tag: *tag },
            SlowRow::Respond { op, returned } => Row::Respond {
                op: *op,
                returned: ReturnedRef::of(returned),
            },
        }
    }
}
