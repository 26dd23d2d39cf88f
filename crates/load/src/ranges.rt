//! Ranges of numbers, and those of a load.
ghost use Rattle.std.specs.Prelude.{◌↔◌, IsTrue};
ghost use Rattle.load.specs.Ranges.{IsIn};

/// The numbers from `least` to `most`.
#[derive(Clone, Copy, Debug, PartialEq, Eq)]
pub struct NumberRange {
    /// The least of them.
    pub least: u32,
    /// The greatest of them.
    pub most: u32,
}

impl NumberRange {
    /// Whether the number is one of them.
    pub fn has(self, number: u32) -> bool
        ensures { IsTrue result ↔ IsIn self number }
    {
        self.least <= number && number <= self.most
    }
}

/// How many callers a load has.
pub const CALLERS: NumberRange = NumberRange { least: 1, most: 16 };

/// How many calls each caller makes.
pub const CALLS: NumberRange = NumberRange {
    least: 1,
    most: 10_000,
};

/// How many keys there are.
pub const KEYS: NumberRange = NumberRange { least: 1, most: 8 };

/// How many rounds of messages a phase of a call makes.
pub const ROUNDS: NumberRange = NumberRange {
    least: 1,
    most: 10_000,
};

/// Every how many-th parcel is lost, or doubled; none for 0.
pub const FAULTS: NumberRange = NumberRange {
    least: 0,
    most: 1000,
};
