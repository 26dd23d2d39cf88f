//! A pending call.
use tag::ClientId;

/// What is kept of a pending call.
#[derive(Debug, Drop)]
pub struct OpenCall<T> {
    /// Who began it.
    pub client: ClientId,
    /// Whether it is a write.
    pub is_write: bool,
    /// Whether it has a note.
    pub is_noted: bool,
    /// What was given with it when it began.
    pub payload: T,
}
