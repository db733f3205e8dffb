// Why a text gave no game.

use std::alloc::AllocError;
use text::error::ReadFault;
use thiserror::Error;

/// What is wrong with a text that spells no game. It is shown as its code.
#[derive(Clone, Copy, Debug, PartialEq, Eq, Error)]
pub enum PgFault {
    /// The first line is absent or is no header.
    #[error("G1")]
    BadHeader,
    /// A line has not the shape of a vertex line; that its list of successors is absent is no fault of shape.
    #[error("G2")]
    BadLine,
    /// An identifier is above the greatest, stands twice, or is missing at the end.
    #[error("G3")]
    BadIdentifier,
    /// A successor is above the greatest identifier, or there is none.
    #[error("G4")]
    BadSuccessor,
    /// A priority is above 31.
    #[error("G5")]
    PriorityTooGreat,
    /// The header announces more vertices than the limit allows.
    #[error("G6")]
    TooManyVertices,
}

/// Why a text gave no game.
#[derive(Debug, Drop, Error)]
pub enum PgError {
    /// The first fault of the text, and its line, from 1.
    #[error("{fault} at line {line}")]
    Fault { fault: PgFault, line: u64 },
    /// A read failed.
    #[error("G7")]
    Read,
    /// A growth was refused.
    #[error("G8")]
    Memory,
}

impl From<AllocError> for PgError {
    ghost use Rattle.std.specs.Prelude.{◌≡◌};
    ghost use Rattle.pgsolver.specs.declared.error.PgError.TheVariants as errors;

    ghost from_gives = { λ _ e. e ≡ errors.Memory };

    fn from(_: AllocError) -> Self {
        PgError::Memory
    }
}

impl From<ReadFault> for PgError {
    ghost use Rattle.std.specs.Prelude.{◌≡◌};
    ghost use Rattle.pgsolver.specs.Left.{pg_unread};

    ghost from_gives = { λ fault e. e ≡ pg_unread fault };

    fn from(fault: ReadFault) -> Self {
        match fault {
            ReadFault::Read => PgError::Read,
            ReadFault::Memory => PgError::Memory,
        }
    }
}
