// Why no table was solved.

use tables::error::TableError;
use text::error::Memory;
use thiserror::Error;

/// Why no table was solved. It is shown as its code.
#[derive(Clone, Copy, Debug, PartialEq, Eq, Error)]
pub enum SolveError {
    /// A growth was refused before any worker started.
    #[error("V1")]
    Memory,
}

impl From<Memory> for SolveError {
    ghost use Rattle.std.specs.Prelude.{◌≡◌};
    ghost use Rattle.workers.specs.declared.error.SolveError.TheVariants as errors;

    ghost from_gives = { λ _ e. e ≡ errors.Memory };

    fn from(_: Memory) -> Self {
        SolveError::Memory
    }
}

/// Why no board was made, or no table solved over it. It is shown as the code of either.
#[derive(Clone, Copy, Debug, PartialEq, Eq, Error)]
pub enum TeamError {
    #[error("{0}")]
    Board(TableError),
    #[error("{0}")]
    Solve(SolveError),
}

impl From<TableError> for TeamError {
    ghost use Rattle.std.specs.Prelude.{◌≡◌};
    ghost use Rattle.workers.specs.declared.error.TeamError.TheVariants as errors;

    ghost from_gives = { λ board e. e ≡ errors.Board board };

    fn from(error: TableError) -> Self {
        TeamError::Board(error)
    }
}

impl From<SolveError> for TeamError {
    ghost use Rattle.std.specs.Prelude.{◌≡◌};
    ghost use Rattle.workers.specs.declared.error.TeamError.TheVariants as errors;

    ghost from_gives = { λ solve e. e ≡ errors.Solve solve };

    fn from(error: SolveError) -> Self {
        TeamError::Solve(error)
    }
}
