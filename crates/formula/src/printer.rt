// The canonical text of a formula.

ghost use Rattle.std.specs.Prelude.{◌≤◌, length};
ghost use Rattle.text.specs.Wrote.{Wrote};
ghost use Rattle.calculus.specs.Closed.{closed_formula};
ghost use Rattle.calculus.specs.Canon.{canon};
ghost use Rattle.formula.specs.Spells.{IsSpellable, Spells, SpellsWithin};
ghost use Rattle.grammar.specs.declared.limits.TheConstants.{LONGEST_TEXT};

use crate::closed::Closed;
use calculus::put_state;
use text::WriteFault;
use text::sink::Sink;

/// Writes the formula's canonical text, without an end of line and without memory. Each operator between two operands and
/// each binder has parentheses, the outermost too: `(nu X. (mu Y. (<a>X || <b>Y)))`. So `parse` reads the same formula from it,
/// where some text spells the formula, as each that `parse` answers.
///
/// # Errors
/// After a fault the writer holds a beginning of the text.
pub fn print<W: Sink>(formula: &Closed, writer: &mut W) -> Result<(), WriteFault>
    ensures wrote { Wrote (W.taken writer.old) (W.taken writer.new) result
        (canon (closed_formula formula.now)) }
    ensures spells { let f = closed_formula formula.now in IsSpellable f → ∥ Spells (canon f) f ∥₁ }
    ensures within { let f = closed_formula formula.now in IsSpellable f → length (canon f) ≤ LONGEST_TEXT → ∥ SpellsWithin (canon f) f ∥₁ }
{
    put_state(formula.tree(), writer)
}
