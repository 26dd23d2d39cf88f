//! Where a row goes.
use tag::OpId;

/// Where a row goes: its piece, and its call's number there.
#[derive(Clone, Copy, Debug, Drop, PartialEq, Eq)]
pub struct Moved {
    /// The piece, from 0.
    pub piece: usize,
    /// The number of the row's call in the piece.
    pub op: OpId,
}
