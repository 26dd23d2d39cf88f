//! What a monitor reports.
use monitored_key::Refusal;
use tag::OpId;

/// What was found at a row, of the key of that number.
#[derive(Clone, Copy, Debug, Drop, PartialEq, Eq)]
pub struct Report {
    /// The place of the row.
    pub place: u64,
    /// The number of the key.
    pub key: usize,
    pub finding: Finding,
}

/// What may be found.
#[derive(Clone, Copy, Debug, Drop, PartialEq, Eq)]
pub enum Finding {
    /// No order of the key's calls has the answer of the read. From then on the key isn't judged.
    Refused(Refusal),
    /// The read may have read either of these two writes, and perhaps others. The key is judged without it.
    Undecided(OpId, u32, u32),
    /// That read was given up, and is answered after all.
    EndedAfterAll(OpId),
}
