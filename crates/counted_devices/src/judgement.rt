//! What a line of a file shows by itself.

/// What a line shows by itself: its item, or its fault.
#[derive(Debug, Drop)]
pub enum Judgement<T, L> {
    Item(T),
    Fault(L),
}
