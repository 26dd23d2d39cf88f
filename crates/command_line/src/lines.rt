//! The forms of the lines that a check prints.

/// The form of the lines that a check prints.
#[derive(Clone, Copy, Debug, PartialEq, Eq)]
pub enum Lines {
    /// For people: the key, and the verdict in words.
    Plain,
    /// For programs: an object of JSON.
    Json,
}
