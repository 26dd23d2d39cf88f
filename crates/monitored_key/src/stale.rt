//! Kept writes of one value that a read can't have read.

/// Of the kept writes of a value, none of which a read can have read: none, the only one with its first end, or more, of
/// which these are two.
#[derive(Clone, Copy, Drop)]
pub(crate) enum Stale {
    None,
    One(u64, u32),
    Several(u32, u32),
}
