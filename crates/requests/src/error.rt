// Why the program gave no answer.

ghost use Rattle.std.specs.Prelude.{◌≡◌};
ghost use Rattle.requests.specs.declared.error.MuError.TheVariants as errors;

use evidence::error::EvidenceError;
use formula::error::FormulaError;
use game::error::BuildError;
use liftcore::error::ScheduleError;
use lts::WriteFault;
use lts::error::AutError;
use normal::error::NormalError;
use pgsolver::error::PgError;
use std::alloc::{AllocError, AllocFailed};
use std::fmt;
use tables::error::TableError;
use text::Memory;
use thiserror::Error;
use workers::error::SolveError;

/// A file that a check reads or writes. It is shown as the command line names it.
#[derive(Clone, Copy, Debug, PartialEq, Eq)]
pub enum CheckFile {
    System,
    Formula,
    Game,
    EvenEvidence,
    OddEvidence,
    Witness,
    /// The game that is solved.
    SolvedGame,
    /// Standard output, where it is a file.
    Report,
}

impl fmt::Display for CheckFile {
    fn fmt<W: fmt::Write>(&self, f: &mut fmt::Formatter<W>) -> fmt::Result {
        f.write_str(match self {
            CheckFile::System => "SYSTEM",
            CheckFile::Formula => "FORMULA",
            CheckFile::Game => "the file of --game",
            CheckFile::EvenEvidence => "PATH.even of --evidence",
            CheckFile::OddEvidence => "PATH.odd of --evidence",
            CheckFile::Witness => "the file of --witness",
            CheckFile::SolvedGame => "GAME",
            CheckFile::Report => "standard output",
        })
    }
}

/// What is wrong with a command line, or with what an engine was asked for.
#[derive(Debug, Drop, Error)]
pub enum ArgumentError {
    /// The words are no command; the text is `clap`'s, and may be the help that was asked for.
    #[error("{0}")]
    Refused(String),
    /// A word of the command line is no text.
    #[error("error: a word is no text\n")]
    NoText,
    /// No command is named.
    #[error("error: no command is named\n")]
    NoCommand,
    /// A word that has to name a file is empty.
    #[error("error: a file's name is empty\n")]
    EmptyName,
    /// A number is outside of its limits.
    #[error("error: a number is outside of its limits\n")]
    OverLimit,
    /// A text that is written without a game is the report alone.
    #[error("error: --plain makes no game, so --game, --evidence and --witness can't stand beside it\n")]
    PlainOutput,
    /// Two options ask for two forms of the report, or the numbers of states are limited where none are written.
    #[error("error: of --quiet, --summary and --states one can stand, and --limit beside --states alone\n")]
    ReportForms,
    /// Standard input is named twice among the files that are read.
    #[error("error: - names standard input, which one of the files alone can be\n")]
    TwoInputs,
    /// What is written to the first one would destroy the other one.
    #[error("error: {0} and {1} are the same file\n")]
    SameFile(CheckFile, CheckFile),
    /// What is to be explained is no code of the program.
    #[error("error: there is no such code; docs/CODES.md has all of them\n")]
    UnknownCode,
}

/// Why there is no answer. It is shown as its code, with the place where it has one.
#[derive(Debug, Drop, Error)]
pub enum MuError {
    /// The command line, or what an engine was asked for.
    #[error("U1")]
    Arguments(ArgumentError),
    /// A file could not be opened or made.
    #[error("U2")]
    File,
    /// A read of the formula or of the schedule failed.
    #[error("U3")]
    Read,
    /// A growth was refused in the engine itself.
    #[error("U4")]
    Memory,
    /// The text of the system.
    #[error("{0}")]
    System(AutError),
    /// The text of the formula.
    #[error("{0}")]
    Formula(FormulaError),
    /// A name or a quoted label of the formula is on no transition, where that is asked about; its place in the text in bytes, from 0.
    #[error("L1 at offset {offset}")]
    NoLabel { offset: usize },
    /// The formula's normal form.
    #[error("{0}")]
    Normal(NormalError),
    /// The parity game of a system and a formula.
    #[error("{0}")]
    Build(BuildError),
    /// The text of a game.
    #[error("{0}")]
    Game(PgError),
    /// The evidence, or its text.
    #[error("{0}")]
    Evidence(EvidenceError),
    /// The board that workers share.
    #[error("{0}")]
    Table(TableError),
    /// The workers' table.
    #[error("{0}")]
    Solve(SolveError),
    /// The text of a schedule, or the state that it is replayed from.
    #[error("{0}")]
    Schedule(ScheduleError),
    /// A write failed.
    #[error("{0}")]
    Write(WriteFault),
}

impl From<Memory> for MuError {
    ghost from_gives = { λ _ e. e ≡ errors.Memory };

    fn from(_: Memory) -> Self {
        MuError::Memory
    }
}

impl From<AllocError> for MuError {
    ghost from_gives = { λ _ e. e ≡ errors.Memory };

    fn from(_: AllocError) -> Self {
        MuError::Memory
    }
}

impl<T: Drop> From<AllocFailed<T>> for MuError {
    ghost from_gives = { λ _ e. e ≡ errors.Memory };

    fn from(_: AllocFailed<T>) -> Self {
        MuError::Memory
    }
}
