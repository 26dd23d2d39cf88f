//! The fixed words of ids and links.

/// What the ids of bars begin with.
pub(crate) const BAR: &str = "call-";

/// What links to them begin with.
pub(crate) const TO_BAR: &str = "#call-";

/// What stands between a section's number and a call's.
pub(crate) const HYPHEN: &str = "-";

/// The word after which a sentence names a call.
pub(crate) const CALL: &str = "call";

pub(crate) const BLANK: &str = " ";
