//! What the answer of a read shows.

/// What the answer of a read shows.
#[derive(Debug, Clone, Copy, Drop, PartialEq, Eq)]
pub enum Judged {
    /// The read has read one write, or answers nothing and isn't late.
    Passes,
    /// It may have read either of these writes, and perhaps others.
    Undecided(u32, u32),
    /// No order of the calls has it.
    Refused(Refusal),
}

/// Why no order has the answer of a read.
#[derive(Debug, Clone, Copy, Drop, PartialEq, Eq)]
pub enum Refusal {
    /// No write of the value is kept: none began, or each was overwritten and forgotten.
    NoWrite,
    /// The first is the one kept write of the value. The second one's family overwrote it before the read began.
    Overwritten(u32, u32),
    /// Each kept write of the value was overwritten before the read began. These are two of them.
    AllOverwritten(u32, u32),
    /// It answers nothing, but a value was shown at that place, before the read began.
    LateNothing(u64),
}
