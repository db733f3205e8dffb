// The engine of the command `normal`.

ghost use Rattle.std.specs.Prelude.{IfErr};
ghost use Rattle.text.specs.Cause.{HasCause};
ghost use Rattle.requests.specs.declared.error.MuError.TheVariants as error;
ghost use Rattle.commands.specs.Prints.{Prints};

use crate::answer::answered;
use calculus::priorities::Priorities;
use normal::make::normal_with;
use normal::printer::print_normal;
use requests::error::MuError;
use requests::request::Normalize;
use requests::texts::read_formula;
use std::alloc::Global;
use text::sink::Sink;
use text::source::Source;

/// Writes the normal form of the formula that a text spells, with the priorities of this rule. The answer is true.
///
/// # Errors
/// Those of the formula's reader and of the normal form, unchanged; U3 where a read failed, U4 for the memory of the text, W1
/// where a write failed. After a refusal that is not W1 nothing was written.
pub fn normal_text<S: Source + Drop, W: Sink>(
    alloc: Global,
    formula: S,
    priorities: Priorities,
    out: &mut W,
) -> Result<bool, MuError>
    ensures prints { Prints priorities (S.remaining formula) (W.taken out.old) (W.taken out.new) result }
    ensures cause { IfErr result (HasCause S.can_fail error.Read) }
{
    let formula = read_formula(alloc, formula)?;
    let form = normal_with(alloc, &formula, priorities).map_err(MuError::Normal)?;
    answered(print_normal(&form, out), true)
}

/// Writes the normal form as a command asks for it: with the priorities of its rule.
///
/// # Errors
/// Those of `normal_text`.
pub fn normal_asked<S: Source + Drop, W: Sink>(
    alloc: Global,
    request: &Normalize<'_>,
    formula: S,
    out: &mut W,
) -> Result<bool, MuError>
    ensures prints { Prints request.now.priorities (S.remaining formula) (W.taken out.old) (W.taken out.new) result }
    ensures cause { IfErr result (HasCause S.can_fail error.Read) }
{
    normal_text(alloc, formula, request.priorities, out)
}
