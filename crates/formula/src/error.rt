// Why a text gave no formula.

ghost use Rattle.std.specs.Prelude.{◌≡◌};
ghost use Rattle.formula.specs.declared.error.FormulaError.{FormulaError};

use std::alloc::AllocFailed;
use text::Memory;
use thiserror::Error;

/// What is wrong with a text that spells no admitted formula within the limits. It is shown as its code.
#[derive(Clone, Copy, Debug, PartialEq, Eq, Error)]
pub enum FormulaFault {
    /// A byte begins no token, or a quoted atom is bad.
    #[error("F1")]
    NoToken,
    /// No formula begins with the tokens up to this one.
    #[error("F2")]
    Unexpected,
    /// The tokens end before the formula does.
    #[error("F3")]
    Unfinished,
    /// A word that the whole language reserves.
    #[error("F4")]
    ReservedWord,
    /// A variable without a binder.
    #[error("F5")]
    Unbound,
    /// A variable under an odd number of negations below its binder.
    #[error("F6")]
    OddNegations,
    /// An operand of `!`, `&&`, `||` or `=>` inside a modality is no action formula.
    #[error("F7")]
    NotAnAction,
    /// The text is too long, or formulas nest too deep or open too many parentheses.
    #[error("F8")]
    TooLarge,
}

/// Why a text gave no formula.
#[derive(Debug, Drop, Error)]
pub enum FormulaError {
    /// The fault that decides, and its place in bytes, from 0.
    #[error("{fault} at offset {offset}")]
    Fault { fault: FormulaFault, offset: usize },
    /// A growth was refused.
    #[error("F9")]
    Memory,
}

impl<T: Drop> From<AllocFailed<T>> for FormulaError {
    ghost from_gives = { λ _ e. e ≡ FormulaError.Memory };

    fn from(_: AllocFailed<T>) -> Self {
        FormulaError::Memory
    }
}

impl From<Memory> for FormulaError {
    ghost from_gives = { λ _ e. e ≡ FormulaError.Memory };

    fn from(_: Memory) -> Self {
        FormulaError::Memory
    }
}
