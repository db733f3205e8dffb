// Why tokens gave no formula.

ghost use Rattle.std.specs.Prelude.{◌≡◌, length};
ghost use Rattle.grammar.specs.declared.misread.Misread.{Misread};

use crate::token::Placed;
use std::alloc::AllocFailed;
use text::Memory;

/// Why tokens gave no formula. A token is told by how many are left where it stands, itself among them.
#[derive(Drop)]
pub enum Misread {
    /// No formula begins with the tokens up to this one; none is left where the tokens end before the formula does.
    Unexpected { left: usize },
    /// Formulas nest too deep, or open too many parentheses, with the tokens up to this one.
    TooLarge { left: usize },
    /// A growth was refused.
    Memory,
}

impl Misread {
    /// The refusal of the first of these tokens, or of the end where there is none.
    pub fn unexpected(rest: &[Placed<'_>]) -> Self
        ensures { result ≡ Misread.Unexpected (length rest.now) }
    {
        Misread::Unexpected { left: rest.len() }
    }

    /// The refusal of the first of these tokens, which goes beyond the limits.
    pub fn too_large(rest: &[Placed<'_>]) -> Self
        ensures { result ≡ Misread.TooLarge (length rest.now) }
    {
        Misread::TooLarge { left: rest.len() }
    }
}

impl<T: Drop> From<AllocFailed<T>> for Misread {
    ghost from_gives = { λ _ e. e ≡ Misread.Memory };

    fn from(_: AllocFailed<T>) -> Self {
        Misread::Memory
    }
}

impl From<Memory> for Misread {
    ghost from_gives = { λ _ e. e ≡ Misread.Memory };

    fn from(_: Memory) -> Self {
        Misread::Memory
    }
}
