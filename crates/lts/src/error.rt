// Why a text gave no system.

pub use text::error::Memory;
use text::error::ReadFault;
use thiserror::Error;

/// What is wrong with a text that spells no system. It is shown as its code.
#[derive(Clone, Copy, Debug, PartialEq, Eq, Error)]
pub enum AutFault {
    /// The first line is absent or is no header.
    #[error("A1")]
    BadHeader,
    /// A line has not the shape of a transition, its label aside.
    #[error("A2")]
    BadLine,
    /// The header announces more transitions or states than the limits allow.
    #[error("A3")]
    OverLimit,
    /// A transition names a state that is not there.
    #[error("A4")]
    NoSuchState,
    /// There are fewer lines than announced, or more.
    #[error("A5")]
    WrongCount,
    /// There are no states, or the initial state is none of them.
    #[error("A6")]
    BadStates,
    /// A label is empty, too long, or has a byte that no label has.
    #[error("A7")]
    BadLabel,
}

/// Why a text gave no system.
#[derive(Debug, Drop, Error)]
pub enum AutError {
    /// The first fault of the text, and its line, from 1.
    #[error("{fault} at line {line}")]
    Fault { fault: AutFault, line: u64 },
    /// A read failed.
    #[error("A8")]
    Read,
    /// A growth was refused.
    #[error("A9")]
    Memory,
}

impl From<Memory> for AutError {
    ghost use Rattle.std.specs.Prelude.{◌≡◌};
    ghost use Rattle.lts.specs.declared.error.AutError.TheVariants as errors;

    ghost from_gives = { λ _ e. e ≡ errors.Memory };

    fn from(_: Memory) -> Self {
        AutError::Memory
    }
}

impl From<ReadFault> for AutError {
    ghost use Rattle.std.specs.Prelude.{◌≡◌};
    ghost use Rattle.lts.specs.Unread.{aut_unread};

    ghost from_gives = { λ fault e. e ≡ aut_unread fault };

    fn from(fault: ReadFault) -> Self {
        match fault {
            ReadFault::Read => AutError::Read,
            ReadFault::Memory => AutError::Memory,
        }
    }
}
