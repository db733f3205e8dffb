// What commands answer.

ghost use Rattle.commands.specs.Answers.{IsAnswerTo};

use lts::WriteFault;
use requests::error::MuError;

/// The answer of a command that has written.
///
/// # Errors
/// W1.
pub(crate) fn answered(wrote: Result<(), WriteFault>, answer: bool) -> Result<bool, MuError>
    ensures { IsAnswerTo wrote answer result }
{
    wrote.map_err(MuError::Write)?;
    Ok(answer)
}
