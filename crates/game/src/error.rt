// Why no game was built.

use std::alloc::AllocError;
use thiserror::Error;

/// Why no game was built. It is shown as its code.
#[derive(Clone, Copy, Debug, PartialEq, Eq, Error)]
pub enum BuildError {
    /// The game would have more vertices than the limit allows.
    #[error("B1")]
    TooManyVertices,
    /// A growth was refused.
    #[error("B2")]
    Memory,
}

impl From<AllocError> for BuildError {
    ghost use Rattle.std.specs.Prelude.{◌≡◌};
    ghost use Rattle.game.specs.declared.error.BuildError.TheVariants.{Memory};

    ghost from_gives = { λ error result. result ≡ Memory };

    fn from(_: AllocError) -> Self {
        BuildError::Memory
    }
}
