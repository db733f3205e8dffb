// Reads formulas.

ghost use Rattle.std.specs.Prelude.{◌≡◌, ◌⊎◌, ◌<◌, ◌≤◌, [], length, map, Some, MatchResult, slice_get};
ghost use Rattle.text.specs.Reads.{Reads};
ghost use Rattle.grammar.specs.Syntax.{meant as meant_by};
ghost use Rattle.formula.specs.Cutting.{IsLexed};
ghost use Rattle.grammar.specs.Written.{bare_tokens, state_syntax};
ghost use Rattle.formula.specs.Fault.{HasFormulaFaultAt, operand_faults, variable_faults};
ghost use Rattle.grammar.specs.Read.{IsWholeFormula};
ghost use Rattle.formula.specs.Refused.{IsGrammarRefusal, IsRefusal};
ghost use Rattle.grammar.specs.Misread.{IsWholeMisread};
ghost use Rattle.calculus.specs.Admitted.{IsAdmitted};
ghost use Rattle.formula.specs.Checked.{IsTreeRefusal, IsTold, formula_fault_of};
ghost use Rattle.formula.specs.Spells.{Spells, SpellsWithin};
ghost use Rattle.calculus.specs.Closed.{closed_formula};
ghost use Rattle.calculus.specs.View.{formula_of};

use crate::closed::Closed;
use crate::error::{FormulaError, FormulaFault};
use crate::lexer::tokens;
use crate::meant;
use crate::operands::state_operands;
use crate::scope::{Binders, variables};
use crate::tree::State;
use grammar::limits::{DEEPEST, LONGEST_TEXT, MOST_PARENS};
use grammar::misread::Misread;
use grammar::room::Room;
use grammar::state::{ANY_STATE, state};
use grammar::token::Placed;
use grammar::written::WrittenState;
use std::alloc::Global;

/// The formula that the tokens are, as it is written.
fn written<'a>(alloc: Global, tokens: &'a [Placed<'a>]) -> Result<WrittenState<'a>, Misread>
    ensures { MatchResult result
        (λ written. IsWholeFormula (state_syntax written) (bare_tokens tokens.now))
        (IsWholeMisread (bare_tokens tokens.now)) }
{
    let room = Room {
        alloc,
        depth: DEEPEST,
        parens: MOST_PARENS,
    };
    let whole = state(room, ANY_STATE, tokens)?;
    if !whole.rest.is_empty() {
        return Err(Misread::unexpected(whole.rest));
    }
    Ok(Box::into_inner(whole.syntax))
}

/// The refusal of the token with this number.
fn refusal(tokens: &[Placed<'_>], place: usize, fault: FormulaFault) -> FormulaError
    requires { place < length tokens.now }
    ensures { IsRefusal fault (slice_get (map (λ p. p.offset) tokens.now) place) result }
{
    FormulaError::Fault {
        fault,
        offset: tokens[place].offset,
    }
}

/// The refusal of tokens that are no formula, in a text of this length.
fn grammar_refusal(tokens: &[Placed<'_>], end: usize, misread: Misread) -> FormulaError
    requires { IsWholeMisread (bare_tokens tokens.now) misread }
    ensures { IsGrammarRefusal (bare_tokens tokens.now) (map (λ p. p.offset) tokens.now) end result }
{
    match misread {
        Misread::Unexpected { left: 0 } => FormulaError::Fault {
            fault: FormulaFault::Unfinished,
            offset: end,
        },
        Misread::Unexpected { left } => {
            refusal(tokens, tokens.len() - left, FormulaFault::Unexpected)
        }
        Misread::TooLarge { left } => refusal(tokens, tokens.len() - left, FormulaFault::TooLarge),
        Misread::Memory => FormulaError::Memory,
    }
}

/// Whether each operand inside a modality and each variable may stand where it does; else the refusal of the first.
fn check(tokens: &[Placed<'_>], written: &WrittenState<'_>) -> Result<(), FormulaError>
    requires { IsWholeFormula (state_syntax written.now) (bare_tokens tokens.now) }
    ensures { let s = state_syntax written.now in MatchResult result
        (λ _. (operand_faults 0 s ≡ []) × (variable_faults [] 0 s ≡ []))
        (λ e. IsTreeRefusal s (map (λ p. p.offset) tokens.now) e) }
{
    if let Err(place) = state_operands(written, 0) {
        return Err(refusal(tokens, place, FormulaFault::NotAnAction));
    }
    if let Err(found) = variables(written, &Binders::Empty, true, 0) {
        return Err(refusal(tokens, found.place, found.fault));
    }
    Ok(())
}

/// The formula that is meant by a written one, if each operand and each variable may stand where it does.
fn meaning(
    alloc: Global,
    tokens: &[Placed<'_>],
    written: &WrittenState<'_>,
) -> Result<State, FormulaError>
    requires { IsWholeFormula (state_syntax written.now) (bare_tokens tokens.now) }
    ensures { let s = state_syntax written.now in MatchResult result
        (λ f. (meant_by s ≡ Some (formula_of f)) × IsAdmitted (formula_of f))
        (λ e. (e ≡ FormulaError.Memory) ⊎ IsTreeRefusal s (map (λ p. p.offset) tokens.now) e) }
{
    check(tokens, written)?;
    meant::state(alloc, written)
}

/// The formula of a text that is cut into these tokens.
fn formula(alloc: Global, text: &[u8], tokens: &[Placed<'_>]) -> Result<State, FormulaError>
    requires short { length text.now ≤ LONGEST_TEXT }
    requires lexed { IsLexed text.now tokens.now }
    ensures { MatchResult result (λ f. SpellsWithin text.now (formula_of f) × IsAdmitted (formula_of f)) (IsTold text.now) }
{
    match written(alloc, tokens) {
        Ok(written) => meaning(alloc, tokens, &written),
        Err(misread) => Err(grammar_refusal(tokens, text.len(), misread)),
    }
}

/// The formula of a text, as a tree.
fn tree(alloc: Global, text: &[u8]) -> Result<State, FormulaError>
    ensures { MatchResult result (λ f. SpellsWithin text.now (formula_of f) × IsAdmitted (formula_of f)) (IsTold text.now) }
{
    if text.len() > LONGEST_TEXT {
        return Err(FormulaError::Fault {
            fault: FormulaFault::TooLarge,
            offset: LONGEST_TEXT,
        });
    }
    let tokens = tokens(alloc, text)?;
    formula(alloc, text, &tokens)
}

/// The formula of a text, in the syntax of mCRL2's mcf without data.
///
/// # Errors
/// The fault that decides. A text without one is refused only where memory runs out.
pub fn parse(alloc: Global, text: &[u8]) -> Result<Closed, FormulaError>
    ensures { Reads Spells SpellsWithin (λ bytes f. SpellsWithin bytes f × IsAdmitted f) HasFormulaFaultAt closed_formula formula_fault_of (Some text.now) result }
{
    let tree = tree(alloc, text)?;
    Ok(Closed::new(alloc, tree)?)
}
