//! The ranges of numbers that options ask for, beside those of a load.
use load::ranges::NumberRange;

/// How many threads check.
pub(crate) const WORKERS: NumberRange = NumberRange { least: 1, most: 16 };

/// How many keys are explained, or have a picture.
pub(crate) const SHOWN_KEYS: NumberRange = NumberRange {
    least: 0,
    most: 10_000,
};

/// How many calls of a key are shown.
pub(crate) const SHOWN_CALLS: NumberRange = NumberRange {
    least: 1,
    most: 10_000,
};

/// The number of a call; how many lines are told, or how many steps are asked for.
pub(crate) const ANY_NUMBER: NumberRange = NumberRange {
    least: 0,
    most: u32::MAX,
};

/// For how many rows a read may be pending.
pub(crate) const GIVE_UP: NumberRange = NumberRange {
    least: 1,
    most: u32::MAX,
};

/// How many pieces a history is split into.
pub(crate) const PARTS: NumberRange = NumberRange {
    least: 1,
    most: 1_000,
};

/// How many replicas a store has.
pub(crate) const REPLICAS: NumberRange = NumberRange { least: 1, most: 15 };

/// How many halls a store has.
pub(crate) const HALLS: NumberRange = NumberRange { least: 1, most: 64 };

/// The hall whose history is written.
pub(crate) const SHOWN_HALL: NumberRange = NumberRange { least: 0, most: 63 };

/// How many votes a quorum has at least.
pub(crate) const VOTES: NumberRange = NumberRange {
    least: 1,
    most: 135,
};
