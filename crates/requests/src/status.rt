// The exit status of the program.

ghost use Rattle.std.specs.Prelude.{◌≡◌, Ok};
ghost use Rattle.requests.specs.Status.{error_status as status_of_error, status_of};

use crate::error::MuError;
use evidence::error::EvidenceError;
use formula::error::FormulaError;
use game::error::BuildError;
use liftcore::error::ScheduleError;
use lts::error::AutError;
use normal::error::NormalError;
use pgsolver::error::PgError;
use tables::error::TableError;

/// 0 for yes, 1 for no, 2 where the input is at fault, 3 where memory, a file, a read or a write failed.
pub fn status(answer: &Result<bool, MuError>) -> u8
    ensures { result ≡ status_of answer.now }
{
    match answer {
        Ok(answer) => status_of_answer(*answer),
        Err(error) => error_status(error),
    }
}

/// 0 for yes, 1 for no.
pub fn status_of_answer(answer: bool) -> u8
    ensures { result ≡ status_of (Ok answer) }
{
    if answer { 0 } else { 1 }
}

/// 2 where the input is at fault, and 3 where memory, a file, a read or a write failed.
pub fn error_status(error: &MuError) -> u8
    ensures { result ≡ status_of_error error.now }
{
    match error {
        MuError::Arguments(_) => 2,
        MuError::System(AutError::Fault { fault: _, line: _ }) => 2,
        MuError::Formula(
            FormulaError::Fault {
                fault: _,
                offset: _,
            },
        ) => 2,
        MuError::NoLabel { offset: _ } => 2,
        MuError::Normal(NormalError::TooManyNodes | NormalError::PriorityTooGreat) => 2,
        MuError::Build(BuildError::TooManyVertices) => 2,
        MuError::Game(PgError::Fault { fault: _, line: _ }) => 2,
        MuError::Evidence(EvidenceError::Fault { fault: _, line: _ }) => 2,
        MuError::Table(TableError::TooManyRanks) => 2,
        MuError::Schedule(ScheduleError::Fault { fault: _, line: _ }) => 2,
        _ => 3,
    }
}
