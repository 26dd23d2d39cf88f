//! What a member is.

/// What a member of a row's line is.
#[derive(Clone, Copy, Debug)]
pub enum Member<'a> {
    Null,
    Number(u64),
    /// A text, and where it stands in the line: so many bytes are before it.
    Text { text: &'a str, start: usize },
}
