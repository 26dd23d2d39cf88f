//! Why words that clap takes make no command.
ghost use Rattle.std.specs.Prelude.{◌≡◌};
ghost use Rattle.command_line.specs.declared.fault.WordsFault.{WordsFault};

use std::alloc::{AllocError, AllocFailed};
use thiserror::Error;

/// Why words that clap takes make no command.
#[derive(Clone, Copy, Debug, PartialEq, Eq, Error)]
pub(crate) enum WordsFault {
    /// There is no command of that name, or a word of it is missing.
    #[error("no command; see abd --help")]
    NoCommand,
    /// An option's number is outside its range.
    #[error("a number is outside its range; see abd --help")]
    Number,
    /// The word after `--reads` is neither `full` nor `short`.
    #[error("--reads takes full or short; see abd run --help")]
    Reads,
    /// The word after `--by` is neither `tags` nor `values`.
    #[error("--by takes tags or values; see abd --help")]
    By,
    /// `--by` and orders are both given.
    #[error("--by and ORDERS exclude each other; see abd draw --help")]
    ByAndOrders,
    /// `--whole` and a choice of keys are both given.
    #[error("--whole excludes --key and --most; see abd draw --help")]
    WholeAndKeys,
    /// One or two of the three options of quorums are given.
    #[error("--votes, --ask and --put are given all three, or none of them; see abd run --help")]
    Alone,
    /// The votes aren't one digit for each replica.
    #[error("--votes takes one digit from 1 to 9 for each replica; see abd run --help")]
    Votes,
    /// The numbers are outside the rules of quorums.
    #[error("--ask and --put take at least 1 and at most the sum of the votes, together more than that sum; see abd run --help")]
    Quorums,
    /// The store has no such hall.
    #[error("--show takes the number of a hall, from 0 and below --halls; see abd run --help")]
    Show,
    /// An allocation was refused.
    #[error("no memory")]
    Memory,
}

impl From<AllocError> for WordsFault {
    ghost from_gives = { λ _ e. e ≡ WordsFault.Memory };

    fn from(_: AllocError) -> WordsFault {
        WordsFault::Memory
    }
}

impl<T: Drop> From<AllocFailed<T>> for WordsFault {
    ghost from_gives = { λ _ e. e ≡ WordsFault.Memory };

    fn from(_: AllocFailed<T>) -> WordsFault {
        WordsFault::Memory
    }
}
