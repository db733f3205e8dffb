// Why there is no evidence.

use text::Memory;
use text::error::ReadFault;
use thiserror::Error;

/// What is wrong with a text that spells no evidence. It is shown as its code.
#[derive(Clone, Copy, Debug, PartialEq, Eq, Error)]
pub enum EvidenceFault {
    /// The first line is absent or is no header.
    #[error("E1")]
    BadHeader,
    /// A line has not the shape of an entry.
    #[error("E2")]
    BadLine,
    /// A vertex or a move is not of the game, or a vertex stands twice.
    #[error("E3")]
    BadVertex,
}

/// Why there is no evidence.
#[derive(Debug, Drop, Error)]
pub enum EvidenceError {
    /// The first fault of the text, and its line, from 1.
    #[error("{fault} at line {line}")]
    Fault { fault: EvidenceFault, line: u64 },
    /// A read failed.
    #[error("E4")]
    Read,
    /// A growth was refused.
    #[error("E5")]
    Memory,
}

impl From<Memory> for EvidenceError {
    ghost use Rattle.std.specs.Prelude.{◌≡◌};
    ghost use Rattle.evidence.specs.declared.error.EvidenceError.TheVariants as errors;

    ghost from_gives = { λ _ e. e ≡ errors.Memory };

    fn from(_: Memory) -> Self {
        EvidenceError::Memory
    }
}

impl From<ReadFault> for EvidenceError {
    ghost use Rattle.std.specs.Prelude.{◌≡◌};
    ghost use Rattle.evidence.specs.Unread.{evidence_unread};

    ghost from_gives = { λ fault e. e ≡ evidence_unread fault };

    fn from(fault: ReadFault) -> Self {
        match fault {
            ReadFault::Read => EvidenceError::Read,
            ReadFault::Memory => EvidenceError::Memory,
        }
    }
}
