// Why a board or a seat was refused.

use std::alloc::AllocError;
use text::error::Memory;
use thiserror::Error;

/// Why a board or a seat was refused. It is shown as its code.
#[derive(Clone, Copy, Debug, PartialEq, Eq, Error)]
pub enum TableError {
    /// The rank of top is too great for one word.
    #[error("T1")]
    TooManyRanks,
    /// A growth was refused.
    #[error("T2")]
    Memory,
    /// No seat was found to give.
    #[error("T3")]
    NoSeat,
}

impl From<AllocError> for TableError {
    ghost use Rattle.std.specs.Prelude.{◌≡◌};
    ghost use Rattle.tables.specs.declared.error.TableError.TheVariants as errors;

    ghost from_gives = { λ error result. result ≡ errors.Memory };

    fn from(_: AllocError) -> Self {
        TableError::Memory
    }
}
