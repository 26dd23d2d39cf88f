//! What keys are judged by.

/// What keys are judged by.
#[derive(Clone, Copy, Debug)]
pub enum Judged {
    /// Their orders.
    Orders,
    /// The tags of their calls.
    Tags,
    /// The values of their calls; where these leave a key open, the order that its tags make.
    Values,
}
