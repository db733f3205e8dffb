// Why a formula got no normal form.

use std::alloc::AllocError;
use thiserror::Error;

/// Why a formula got no normal form. It is shown as its code.
#[derive(Clone, Copy, Debug, PartialEq, Eq, Error)]
pub enum NormalError {
    /// The normal form would have more nodes than the limit allows.
    #[error("N1")]
    TooManyNodes,
    /// A priority is above the limit.
    #[error("N2")]
    PriorityTooGreat,
    /// A growth was refused.
    #[error("N3")]
    Memory,
}

impl From<AllocError> for NormalError {
    ghost use Rattle.std.specs.Prelude.{◌≡◌};
    ghost use Rattle.normal.specs.declared.error.NormalError.TheVariants.{Memory};

    ghost from_gives = { λ error result. result ≡ Memory };

    fn from(_: AllocError) -> Self {
        NormalError::Memory
    }
}
