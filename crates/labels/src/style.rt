//! The fixed words and sizes of labels.

/// Nothing stands farther right or down.
pub(crate) const FARTHEST: u64 = 1_000_000_000_000_000_000;

/// What stands where a text is cut.
pub(crate) const ELLIPSIS: &str = "\u{2026}";

/// What a picture's element is to those who can't see it.
pub(crate) const IMAGE: &str = "img";
