//! What a row's line has beside the row.

/// The members that a row's line has beside the row: the number of the row's hall, and the number of its
/// line in a file that is split.
#[derive(Clone, Copy, Debug)]
pub(crate) struct Marks {
    pub(crate) hall: Option<u8>,
    pub(crate) line: Option<u64>,
}
