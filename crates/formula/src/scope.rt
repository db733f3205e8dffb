// Finds the variables that may not stand where they do. Places are numbers of tokens.

ghost use Rattle.std.specs.Prelude.{◌≡◌, ℕ, ◌+◌, ◌<◌, ◌^◌, [], ◌∷◌, length, MatchOption, IsTrue};
ghost use Rattle.grammar.specs.Syntax.{tokens, reg_tokens};
ghost use Rattle.formula.specs.Fault.{variable_fault as fault_of, variable_faults};
ghost use Rattle.grammar.specs.Written.{reg_syntax, state_syntax, joined};
ghost use Rattle.formula.specs.Checked.{AreChecked, scope_of, left_parity, is_variable_fault};

use crate::error::FormulaFault;
use grammar::written::{Connective, WrittenRegular, WrittenState};

/// The binders around a place, the innermost first.
#[derive(Clone, Copy)]
pub enum Binders<'a> {
    Empty,
    /// A name, the parity of the negations around its binder, and the binders around that.
    Binder(&'a [u8], bool, &'a Binders<'a>),
}

/// A variable that may not stand at its place.
#[derive(Clone, Copy)]
pub struct Misplaced {
    pub place: usize,
    pub fault: FormulaFault,
}

/// What is wrong with a variable under negations of this parity.
fn variable_fault(name: &[u8], scope: &Binders, parity: bool) -> Option<FormulaFault>
    ensures { MatchOption result
        ((at : ℕ) → fault_of name.now (scope_of scope.now parity) at ≡ [])
        (λ fault. IsTrue (is_variable_fault fault) × ((at : ℕ) → fault_of name.now (scope_of scope.now parity) at ≡ (at, fault) ∷ [])) }
{
    match scope {
        Binders::Empty => Some(FormulaFault::Unbound),
        Binders::Binder(bound, binder_parity, outer) => {
            if name != *bound {
                variable_fault(name, outer, parity)
            } else if *binder_parity == parity {
                None
            } else {
                Some(FormulaFault::OddNegations)
            }
        }
    }
}

/// The parity of the negations around the left side of a sign.
fn parity_left_of(sign: Connective, parity: bool) -> bool
    ensures { result ≡ left_parity sign parity }
{
    match sign {
        Connective::Implies => !parity,
        Connective::And | Connective::Or => parity,
    }
}

/// How many tokens a regular formula has.
fn token_count(regular: &WrittenRegular) -> usize
    requires { length (reg_tokens (reg_syntax regular.now)) < 2 ^ 64 }
    ensures { result ≡ length (reg_tokens (reg_syntax regular.now)) }
{
    match regular {
        WrittenRegular::True
        | WrittenRegular::False
        | WrittenRegular::Tau
        | WrittenRegular::Quoted(_) => 1,
        WrittenRegular::Names(_, others) => 1 + 2 * others.len(),
        WrittenRegular::Parens(inner) => token_count(inner) + 2,
        WrittenRegular::Not(inner) | WrittenRegular::Repeated(_, inner) => token_count(inner) + 1,
        WrittenRegular::Joined(_, left, right) => token_count(left) + 1 + token_count(right),
    }
}

/// The place after a formula that begins at this place, or its first variable that may not stand where it does.
#[cycle(variables)]
pub fn variables(
    state: &WrittenState,
    scope: &Binders,
    parity: bool,
    at: usize,
) -> Result<usize, Misplaced>
    requires { at + length (tokens (state_syntax state.now)) < 2 ^ 64 }
    ensures { AreChecked (variable_faults (scope_of scope.now parity) at (state_syntax state.now)) at (length (tokens (state_syntax state.now))) result }
{
    match state {
        WrittenState::True | WrittenState::False => Ok(at + 1),
        WrittenState::Var(name) => match variable_fault(name, scope, parity) {
            None => Ok(at + 1),
            Some(fault) => Err(Misplaced { place: at, fault }),
        },
        WrittenState::Group(inner) => Ok(variables(inner, scope, parity, at + 1)? + 1),
        WrittenState::Not(inner) => variables(inner, scope, !parity, at + 1),
        WrittenState::Joined(sign, left, right) => {
            variables_of_both(left, *sign, right, scope, parity, at)
        }
        WrittenState::Modal(_, regular, inner) => variables(
            inner,
            scope,
            parity,
            at + token_count(regular) + 2,
        ),
        WrittenState::Bind(_, name, inner) => variables(
            inner,
            &Binders::Binder(name, parity, scope),
            parity,
            at + 3,
        ),
    }
}

/// The place after two formulas with a sign between them, or their first variable that may not stand where it does.
#[cycle(variables)]
fn variables_of_both(
    left: &WrittenState,
    sign: Connective,
    right: &WrittenState,
    scope: &Binders,
    parity: bool,
    at: usize,
) -> Result<usize, Misplaced>
    requires { at + length (tokens (joined sign (state_syntax left.now) (state_syntax right.now))) < 2 ^ 64 }
    ensures { let s = joined sign (state_syntax left.now) (state_syntax right.now) in
        AreChecked (variable_faults (scope_of scope.now parity) at s) at (length (tokens s)) result }
{
    let place = variables(left, scope, parity_left_of(sign, parity), at)?;
    variables(right, scope, parity, place + 1)
}
