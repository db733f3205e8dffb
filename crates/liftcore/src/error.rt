// Why there is no core, and no schedule.

use std::alloc::AllocError;
use text::Memory;
use text::error::ReadFault;
use thiserror::Error;

/// Why there is no core. It is shown as its code.
#[derive(Clone, Copy, Debug, PartialEq, Eq, Error)]
pub enum CoreError {
    /// A growth was refused.
    #[error("S4")]
    Memory,
}

impl From<Memory> for CoreError {
    ghost use Rattle.std.specs.Prelude.{◌≡◌};
    ghost use Rattle.liftcore.specs.declared.error.CoreError.TheVariants as errors;

    ghost from_gives = { λ _ e. e ≡ errors.Memory };

    fn from(_: Memory) -> Self {
        CoreError::Memory
    }
}

impl From<AllocError> for CoreError {
    ghost use Rattle.std.specs.Prelude.{◌≡◌};
    ghost use Rattle.liftcore.specs.declared.error.CoreError.TheVariants as errors;

    ghost from_gives = { λ _ e. e ≡ errors.Memory };

    fn from(error: AllocError) -> Self {
        let AllocError = error;
        CoreError::Memory
    }
}

/// What is wrong with a text that spells no schedule. It is shown as its code.
#[derive(Clone, Copy, Debug, PartialEq, Eq, Error)]
pub enum ScheduleFault {
    /// A line has not the shape of an event.
    #[error("S1")]
    BadLine,
    /// There is no such worker.
    #[error("S2")]
    NoSuchWorker,
    /// There is no such vertex.
    #[error("S3")]
    NoSuchVertex,
}

/// Why there is no schedule.
#[derive(Clone, Copy, Debug, PartialEq, Eq, Error)]
pub enum ScheduleError {
    /// The first fault of the text, and its line, from 1.
    #[error("{fault} at line {line}")]
    Fault { fault: ScheduleFault, line: u64 },
    /// A growth was refused.
    #[error("S4")]
    Memory,
}

/// Why a reader gave no schedule.
#[derive(Clone, Copy, Debug, PartialEq, Eq, Error)]
pub enum ReadError {
    /// Its text spells none, or memory for the events was refused.
    #[error("{0}")]
    Schedule(ScheduleError),
    /// A read failed, or memory for the text was refused.
    #[error("{0}")]
    Read(ReadFault),
}

impl From<ScheduleError> for ReadError {
    ghost use Rattle.std.specs.Prelude.{◌≡◌};
    ghost use Rattle.liftcore.specs.declared.error.ReadError.TheVariants as errors;

    ghost from_gives = { λ error e. e ≡ errors.Schedule error };

    fn from(error: ScheduleError) -> Self {
        ReadError::Schedule(error)
    }
}

impl From<ReadFault> for ReadError {
    ghost use Rattle.std.specs.Prelude.{◌≡◌};
    ghost use Rattle.liftcore.specs.declared.error.ReadError.TheVariants as errors;

    ghost from_gives = { λ fault e. e ≡ errors.Read fault };

    fn from(fault: ReadFault) -> Self {
        ReadError::Read(fault)
    }
}
