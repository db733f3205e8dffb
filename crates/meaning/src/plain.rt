// A slow evaluator over sets of states.

ghost use Rattle.std.specs.Prelude.{◌≡◌, ℕ, List, IfOk, IsTrue};
ghost use Rattle.systems.specs.System.{IsSystem};
ghost use Rattle.calculus.specs.Tree.{Formula, Mu, Nu};
ghost use Rattle.calculus.specs.Closed.{closed_formula};
ghost use Rattle.calculus.specs.Meaning.{Satisfies, mean, MarksOf, iterate, with_set};
ghost use Rattle.meaning.specs.Extreme.{IsLeast, IsGreatest};
ghost use Rattle.meaning.specs.Free.{is_free_in};
ghost use Rattle.meaning.specs.Environment.{sets_of, FitsEnvironment};
ghost use Rattle.meaning.specs.Term.{formula_in, IsRight};

use crate::environment::Environment;
use crate::regular::leading;
use crate::sets::{all_marks, complement, copied_marks, intersection, union};
use crate::term::{Term, term_of};
use calculus::closed::Closed;
use std::alloc::{AllocError, Global};
use systems::system::Lts;
use text::Memory;

/// The set of a variable, none if the environment has none.
fn set_of(
    alloc: Global,
    environment: &Environment,
    name: &Vec<u8>,
    count: usize,
) -> Result<Vec<bool>, AllocError>
    requires { FitsEnvironment count environment.now }
    ensures { IfOk result (λ marks. MarksOf count marks.items (sets_of environment.now name.now.items)) }
{
    match environment {
        Environment::Empty => all_marks(alloc, count, false),
        Environment::More(other, marks, outer) => {
            if name.as_slice() == other.as_slice() {
                marks.to_vec(alloc)
            } else {
                set_of(alloc, outer, name, count)
            }
        }
    }
}

/// The nth iterate, for n states, of the map of sets that a binder's formula is: the first that repeats. Where the
/// binder's variable isn't free in the formula, one turn suffices.
#[cycle(plain)]
fn iterated<'x, 'a>(
    alloc: Global,
    lts: &Lts,
    name: &'x Vec<u8>,
    used: bool,
    body: &'x Term<'a>,
    environment: &'x Environment<'x>,
    from: bool,
) -> Result<Vec<bool>, AllocError>
    requires environment { FitsEnvironment lts.now.system.states environment.now }
    requires right { IsRight lts.now.system body.now }
    requires used { used ≡ is_free_in name.now.items (formula_in body.now) }
    ensures { IfOk result (λ marks. MarksOf lts.now.system.states marks.items
        (iterate lts.now.system.states (λ set. mean lts.now.system (formula_in body.now) (with_set (sets_of environment.now) name.now.items set))
        (λ s. IsTrue from))) }
{
    let count = lts.states();
    let mut set = all_marks(alloc, count as usize, from)?;
    if !used {
        return marks_of(
            alloc,
            lts,
            &*body,
            &Environment::More(&*name, &set, &*environment),
        );
    }
    for turn in 0..count {
        let next = marks_of(
            alloc,
            lts,
            &*body,
            &Environment::More(&*name, &set, &*environment),
        )?;
        if next == set {
            return Ok(set);
        }
        set = next;
    }
    Ok(set)
}

/// The states at which the formula holds, where the environment has the sets of its variables.
#[cycle(plain)]
pub(crate) fn marks_of<'x, 'a>(
    alloc: Global,
    lts: &Lts,
    term: &'x Term<'a>,
    environment: &'x Environment<'x>,
) -> Result<Vec<bool>, AllocError>
    requires environment { FitsEnvironment lts.now.system.states environment.now }
    requires right { IsRight lts.now.system term.now }
    ensures marks { IfOk result (λ marks. MarksOf lts.now.system.states marks.items (mean lts.now.system (formula_in term.now) (sets_of environment.now))) }
    ensures known { IsSystem lts.now.system }
{
    let count = lts.states() as usize;
    match term {
        Term::Known(_, marks) => copied_marks(alloc, marks),
        Term::True => all_marks(alloc, count, true),
        Term::False => all_marks(alloc, count, false),
        Term::Var(name) => set_of(alloc, environment, name, count),
        Term::Not(operand) => {
            let marks = marks_of(alloc, lts, operand, environment)?;
            Ok(complement(marks))
        }
        Term::And(left, right) => {
            let (one, other) = marks_of_both(alloc, lts, left, right, environment)?;
            Ok(intersection(one, &other))
        }
        Term::Or(left, right) => {
            let (one, other) = marks_of_both(alloc, lts, left, right, environment)?;
            Ok(union(one, &other))
        }
        Term::Implies(left, right) => {
            let (one, other) = marks_of_both(alloc, lts, left, right, environment)?;
            Ok(union(complement(one), &other))
        }
        Term::Dia(regular, operand) => {
            let marks = marks_of(alloc, lts, operand, environment)?;
            leading(alloc, lts, regular, &marks)
        }
        Term::Box(regular, operand) => {
            let marks = marks_of(alloc, lts, operand, environment)?;
            let found = leading(alloc, lts, regular, &complement(marks))?;
            Ok(complement(found))
        }
        Term::Mu(name, used, body) => iterated(alloc, lts, name, *used, body, environment, false),
        Term::Nu(name, used, body) => iterated(alloc, lts, name, *used, body, environment, true),
    }
}

/// The states at which each of two formulas holds.
#[cycle(plain)]
fn marks_of_both<'x, 'a>(
    alloc: Global,
    lts: &Lts,
    left: &'x Term<'a>,
    right: &'x Term<'a>,
    environment: &'x Environment<'x>,
) -> Result<(Vec<bool>, Vec<bool>), AllocError>
    requires environment { FitsEnvironment lts.now.system.states environment.now }
    requires left { IsRight lts.now.system left.now }
    requires right { IsRight lts.now.system right.now }

    ensures one { IfOk result (λ found. MarksOf lts.now.system.states found.0.items (mean lts.now.system (formula_in left.now) (sets_of environment.now))) }
    ensures other { IfOk result (λ found. MarksOf lts.now.system.states found.1.items (mean lts.now.system (formula_in right.now) (sets_of environment.now))) }
{
    let one = marks_of(alloc, lts, left, environment)?;
    let other = marks_of(alloc, lts, right, environment)?;
    Ok((one, other))
}

/// A mark for each state, true where the formula holds, by sets of states alone (Kozen 1983).
///
/// # Errors
/// Out of memory, and nothing else.
pub fn plain_states(alloc: Global, lts: &Lts, formula: &Closed) -> Result<Vec<bool>, Memory>
    ensures meaning { IfOk result (λ marks. MarksOf lts.now.system.states marks.items (Satisfies lts.now.system (closed_formula formula.now))) }
    ensures least { IfOk result (λ marks. (name : List ℕ) (f : Formula) → closed_formula formula.now ≡ Mu name f → IsLeast lts.now.system name f marks.items) }
    ensures greatest { IfOk result (λ marks. (name : List ℕ) (f : Formula) → closed_formula formula.now ≡ Nu name f
        → IsGreatest lts.now.system name f marks.items) }
{
    let term = term_of(alloc, lts, formula.tree(), false)?;
    let found = marks_of(alloc, lts, &term, &Environment::Empty);
    drop(term);
    Ok(found?)
}
