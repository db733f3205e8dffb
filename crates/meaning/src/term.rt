// Formulas as they are evaluated.

ghost use Rattle.std.specs.Prelude.{IfOk, ◌≡◌};
ghost use Rattle.calculus.specs.View.{formula_of};
ghost use Rattle.meaning.specs.Term.{formula_in, IsRight};

use crate::environment::Environment;
use crate::free::{has_free, is_closed};
use crate::plain::marks_of;
use calculus::tree::{Reg, State};
use std::alloc::{AllocError, Global};
use systems::system::Lts;

/// A formula of which closed parts are known. A binder tells whether its variable is free in its formula.
#[derive(Drop)]
pub enum Term<'a> {
    Known(&'a State, Vec<bool>),
    True,
    False,
    Var(&'a Vec<u8>),
    Not(Box<Term<'a>>),
    And(Box<Term<'a>>, Box<Term<'a>>),
    Or(Box<Term<'a>>, Box<Term<'a>>),
    Implies(Box<Term<'a>>, Box<Term<'a>>),
    Dia(&'a Reg, Box<Term<'a>>),
    Box(&'a Reg, Box<Term<'a>>),
    Mu(&'a Vec<u8>, bool, Box<Term<'a>>),
    Nu(&'a Vec<u8>, bool, Box<Term<'a>>),
}

/// The formula with its closed parts evaluated, each once, where it stands below a binder: so no turn evaluates them again.
#[cycle(terms)]
pub fn term_of<'a>(
    alloc: Global,
    lts: &Lts,
    formula: &'a State,
    below: bool,
) -> Result<Term<'a>, AllocError>
    ensures formula { IfOk result (λ term. formula_in term ≡ formula_of formula.now) }
    ensures right { IfOk result (λ term. IsRight lts.now.system term) }
{
    let term = parts_of(alloc, lts, formula, below)?;
    if !below || !is_closed(formula) {
        return Ok(term);
    }
    let marks = marks_of(alloc, lts, &term, &Environment::Empty)?;
    Ok(Term::Known(formula, marks))
}

/// The formula with its operands as they are evaluated.
#[cycle(terms)]
fn parts_of<'a>(
    alloc: Global,
    lts: &Lts,
    formula: &'a State,
    below: bool,
) -> Result<Term<'a>, AllocError>
    ensures formula { IfOk result (λ term. formula_in term ≡ formula_of formula.now) }
    ensures right { IfOk result (λ term. IsRight lts.now.system term) }
{
    match formula {
        State::True => Ok(Term::True),
        State::False => Ok(Term::False),
        State::Var(name) => Ok(Term::Var(name)),
        State::Not(operand) => Ok(Term::Not(boxed(alloc, lts, operand, below)?)),
        State::And(left, right) => {
            let (one, other) = boxed_both(alloc, lts, left, right, below)?;
            Ok(Term::And(one, other))
        }
        State::Or(left, right) => {
            let (one, other) = boxed_both(alloc, lts, left, right, below)?;
            Ok(Term::Or(one, other))
        }
        State::Implies(left, right) => {
            let (one, other) = boxed_both(alloc, lts, left, right, below)?;
            Ok(Term::Implies(one, other))
        }
        State::Dia(regular, operand) => Ok(Term::Dia(regular, boxed(alloc, lts, operand, below)?)),
        State::Box(regular, operand) => Ok(Term::Box(regular, boxed(alloc, lts, operand, below)?)),
        State::Mu(name, body) => {
            let used = has_free(body, name);
            Ok(Term::Mu(name, used, boxed(alloc, lts, body, true)?))
        }
        State::Nu(name, body) => {
            let used = has_free(body, name);
            Ok(Term::Nu(name, used, boxed(alloc, lts, body, true)?))
        }
    }
}

/// The term of a formula, in a box.
#[cycle(terms)]
fn boxed<'a>(
    alloc: Global,
    lts: &Lts,
    formula: &'a State,
    below: bool,
) -> Result<Box<Term<'a>>, AllocError>
    ensures formula { IfOk result (λ term. formula_in term.value ≡ formula_of formula.now) }
    ensures right { IfOk result (λ term. IsRight lts.now.system term.value) }
{
    Ok(Box::new(alloc, term_of(alloc, lts, formula, below)?)?)
}

/// The terms of two formulas, each in a box.
#[cycle(terms)]
fn boxed_both<'a>(
    alloc: Global,
    lts: &Lts,
    left: &'a State,
    right: &'a State,
    below: bool,
) -> Result<(Box<Term<'a>>, Box<Term<'a>>), AllocError>
    ensures left { IfOk result (λ terms. formula_in terms.0.value ≡ formula_of left.now) }
    ensures right { IfOk result (λ terms. formula_in terms.1.value ≡ formula_of right.now) }
    ensures known { IfOk result (λ terms. IsRight lts.now.system terms.0.value × IsRight lts.now.system terms.1.value) }
{
    let one = boxed(alloc, lts, left, below)?;
    let other = boxed(alloc, lts, right, below)?;
    Ok((one, other))
}
