// Variables that occur free.

ghost use Rattle.std.specs.Prelude.{◌≡◌, []};
ghost use Rattle.std.specs.List.{list_any};
ghost use Rattle.std.specs.Str.{bytes_eq};
ghost use Rattle.calculus.specs.View.{formula_of};
ghost use Rattle.meaning.specs.Bound.{names_of};
ghost use Rattle.meaning.specs.Free.{is_free_in, are_among};

use calculus::tree::State;

/// The names of the binders around a place, the innermost first.
#[derive(Clone, Copy)]
pub enum Bound<'a> {
    Empty,
    More(&'a Vec<u8>, &'a Bound<'a>),
}

/// Whether the variable occurs free in the formula.
pub fn has_free(formula: &State, name: &[u8]) -> bool
    ensures { result ≡ is_free_in name.now (formula_of formula.now) }
{
    match formula {
        State::True | State::False => false,
        State::Var(other) => other.as_slice() == name,
        State::Not(operand) | State::Dia(_, operand) | State::Box(_, operand) => {
            has_free(operand, name)
        }
        State::And(left, right) | State::Or(left, right) | State::Implies(left, right) => {
            has_free(left, name) || has_free(right, name)
        }
        State::Mu(other, body) | State::Nu(other, body) => {
            other.as_slice() != name && has_free(body, name)
        }
    }
}

/// Whether the name is one of these.
fn is_bound(name: &[u8], names: &Bound<'_>) -> bool
    ensures { result ≡ list_any (bytes_eq name.now) (names_of names.now) }
{
    match names {
        Bound::Empty => false,
        Bound::More(other, outer) => name == other.as_slice() || is_bound(name, outer),
    }
}

/// Whether each variable that is free in the formula is one of these names.
fn are_bound<'x>(formula: &'x State, names: &'x Bound<'x>) -> bool
    ensures { result ≡ are_among (names_of names.now) (formula_of formula.now) }
{
    match formula {
        State::True | State::False => true,
        State::Var(name) => is_bound(name, names),
        State::Not(operand) | State::Dia(_, operand) | State::Box(_, operand) => {
            are_bound(operand, names)
        }
        State::And(left, right) | State::Or(left, right) | State::Implies(left, right) => {
            are_bound(left, names) && are_bound(right, names)
        }
        State::Mu(name, body) | State::Nu(name, body) => {
            are_bound(body, &Bound::More(name, &*names))
        }
    }
}

/// Whether the formula has no free variable.
pub fn is_closed(formula: &State) -> bool
    ensures { result ≡ are_among [] (formula_of formula.now) }
{
    are_bound(formula, &Bound::Empty)
}
