// Makes the formula that is written, without its parentheses.

ghost use Rattle.std.specs.Prelude.{◌≡◌, ◌∷◌, map, Some, IsSome, MatchResult};
ghost use Rattle.systems.specs.Label.{multiset as multiset_of};
ghost use Rattle.grammar.specs.Syntax.{action_meant, regular_meant, meant};
ghost use Rattle.calculus.specs.View.{action_of, regular_of, formula_of};
ghost use Rattle.grammar.specs.Written.{reg_syntax, state_syntax, infixed, joined, written_modal, bound};

use crate::error::FormulaError;
use crate::tree::{Act, Reg, State};
use grammar::room::boxed;
use grammar::written::{Binder, Brackets, Connective, Infix, Repeat, WrittenRegular, WrittenState};
use std::alloc::Global;

/// The bytes, copied.
fn copied(alloc: Global, bytes: &[u8]) -> Result<Vec<u8>, FormulaError>
    ensures { MatchResult result (λ copy. copy.items ≡ bytes.now) (λ e. e ≡ FormulaError.Memory) }
{
    match bytes.to_vec(alloc) {
        Ok(copy) => Ok(copy),
        Err(_) => Err(FormulaError::Memory),
    }
}

/// The multiset of these names, ascending.
fn multiset(alloc: Global, first: &[u8], others: &[&[u8]]) -> Result<Vec<Vec<u8>>, FormulaError>
    ensures { MatchResult result
        (λ names. map (λ name. name.items) names.items ≡ multiset_of (first.now ∷ map (λ name. name.now) others.now))
        (λ e. e ≡ FormulaError.Memory) }
{
    let mut names = Vec::new(alloc);
    names.push(copied(alloc, first)?)?;
    for name in others {
        names.push(copied(alloc, name)?)?;
    }
    names.sort_unstable();
    Ok(names)
}

/// The action formula that is written, of one that counts as an action formula throughout.
#[cycle(actions)]
fn action(alloc: Global, written: &WrittenRegular) -> Result<Act, FormulaError>
    requires { IsSome (action_meant (reg_syntax written.now)) }
    ensures { MatchResult result (λ a. action_meant (reg_syntax written.now) ≡ Some (action_of a)) (λ e. e ≡ FormulaError.Memory) }
{
    match written {
        WrittenRegular::True => Ok(Act::True),
        WrittenRegular::False => Ok(Act::False),
        WrittenRegular::Tau => Ok(Act::Names(Vec::new(alloc))),
        WrittenRegular::Names(first, others) => Ok(Act::Names(multiset(alloc, first, others)?)),
        WrittenRegular::Quoted(bytes) => Ok(Act::Quoted(copied(alloc, bytes)?)),
        WrittenRegular::Parens(inner) => action(alloc, inner),
        WrittenRegular::Not(inner) => Ok(Act::Not(action_operand(alloc, inner)?)),
        WrittenRegular::Joined(sign, left, right) => joined_action(alloc, *sign, left, right),
        WrittenRegular::Repeated(_, _) => unreachable!(),
    }
}

/// The action formula that is written, in a box.
#[cycle(actions)]
fn action_operand(alloc: Global, written: &WrittenRegular) -> Result<Box<Act>, FormulaError>
    requires { IsSome (action_meant (reg_syntax written.now)) }
    ensures { MatchResult result (λ a. action_meant (reg_syntax written.now) ≡ Some (action_of a.value)) (λ e. e ≡ FormulaError.Memory) }
{
    Ok(boxed(alloc, action(alloc, written)?)?)
}

/// Two action formulas with a sign between them.
#[cycle(actions)]
fn joined_action(
    alloc: Global,
    sign: Infix,
    left: &WrittenRegular,
    right: &WrittenRegular,
) -> Result<Act, FormulaError>
    requires { IsSome (action_meant (infixed sign (reg_syntax left.now) (reg_syntax right.now))) }
    ensures { MatchResult result
        (λ a. action_meant (infixed sign (reg_syntax left.now) (reg_syntax right.now)) ≡ Some (action_of a))
        (λ e. e ≡ FormulaError.Memory) }
{
    let left = action_operand(alloc, left)?;
    let right = action_operand(alloc, right)?;
    match sign {
        Infix::And => Ok(Act::And(left, right)),
        Infix::Or => Ok(Act::Or(left, right)),
        Infix::Implies => Ok(Act::Implies(left, right)),
        Infix::Then | Infix::Either => unreachable!(),
    }
}

/// The regular formula that is written.
#[cycle(regulars)]
fn regular(alloc: Global, written: &WrittenRegular) -> Result<Reg, FormulaError>
    requires { IsSome (regular_meant (reg_syntax written.now)) }
    ensures { MatchResult result (λ r. regular_meant (reg_syntax written.now) ≡ Some (regular_of r)) (λ e. e ≡ FormulaError.Memory) }
{
    match written {
        WrittenRegular::Parens(inner) => regular(alloc, inner),
        WrittenRegular::Repeated(Repeat::Star, inner) => Ok(Reg::Star(regular_operand(
            alloc, inner,
        )?)),
        WrittenRegular::Repeated(Repeat::Plus, inner) => Ok(Reg::Plus(regular_operand(
            alloc, inner,
        )?)),
        WrittenRegular::Joined(Infix::Then, left, right) => {
            let (left, right) = regular_operands(alloc, left, right)?;
            Ok(Reg::Seq(left, right))
        }
        WrittenRegular::Joined(Infix::Either, left, right) => {
            let (left, right) = regular_operands(alloc, left, right)?;
            Ok(Reg::Choice(left, right))
        }
        _ => Ok(Reg::Act(action(alloc, written)?)),
    }
}

/// The regular formula that is written, in a box.
#[cycle(regulars)]
fn regular_operand(alloc: Global, written: &WrittenRegular) -> Result<Box<Reg>, FormulaError>
    requires { IsSome (regular_meant (reg_syntax written.now)) }
    ensures { MatchResult result (λ r. regular_meant (reg_syntax written.now) ≡ Some (regular_of r.value)) (λ e. e ≡ FormulaError.Memory) }
{
    Ok(boxed(alloc, regular(alloc, written)?)?)
}

/// The two regular formulas that are written, in boxes.
#[cycle(regulars)]
fn regular_operands(
    alloc: Global,
    left: &WrittenRegular,
    right: &WrittenRegular,
) -> Result<(Box<Reg>, Box<Reg>), FormulaError>
    requires left { IsSome (regular_meant (reg_syntax left.now)) }
    requires right { IsSome (regular_meant (reg_syntax right.now)) }
    ensures { MatchResult result
        (λ (r, q). (regular_meant (reg_syntax left.now) ≡ Some (regular_of r.value)) × (regular_meant (reg_syntax right.now) ≡ Some (regular_of q.value)))
        (λ e. e ≡ FormulaError.Memory) }
{
    let left = regular_operand(alloc, left)?;
    Ok((left, regular_operand(alloc, right)?))
}

/// The state formula that is written, of one each of whose operands inside modalities may stand there.
#[cycle(states)]
pub fn state(alloc: Global, written: &WrittenState) -> Result<State, FormulaError>
    requires { IsSome (meant (state_syntax written.now)) }
    ensures { MatchResult result (λ f. meant (state_syntax written.now) ≡ Some (formula_of f)) (λ e. e ≡ FormulaError.Memory) }
{
    match written {
        WrittenState::True => Ok(State::True),
        WrittenState::False => Ok(State::False),
        WrittenState::Var(name) => Ok(State::Var(copied(alloc, name)?)),
        WrittenState::Group(inner) => state(alloc, inner),
        WrittenState::Not(inner) => Ok(State::Not(operand(alloc, inner)?)),
        WrittenState::Joined(sign, left, right) => joined_state(alloc, *sign, left, right),
        WrittenState::Modal(brackets, inside, inner) => modal_state(
            alloc, *brackets, inside, inner,
        ),
        WrittenState::Bind(binder, name, inner) => bound_state(alloc, *binder, name, inner),
    }
}

/// The state formula that is written, in a box.
#[cycle(states)]
fn operand(alloc: Global, written: &WrittenState) -> Result<Box<State>, FormulaError>
    requires { IsSome (meant (state_syntax written.now)) }
    ensures { MatchResult result (λ f. meant (state_syntax written.now) ≡ Some (formula_of f.value)) (λ e. e ≡ FormulaError.Memory) }
{
    Ok(boxed(alloc, state(alloc, written)?)?)
}

/// Two state formulas with a sign between them.
#[cycle(states)]
fn joined_state(
    alloc: Global,
    sign: Connective,
    left: &WrittenState,
    right: &WrittenState,
) -> Result<State, FormulaError>
    requires { IsSome (meant (joined sign (state_syntax left.now) (state_syntax right.now))) }
    ensures { MatchResult result
        (λ f. meant (joined sign (state_syntax left.now) (state_syntax right.now)) ≡ Some (formula_of f))
        (λ e. e ≡ FormulaError.Memory) }
{
    let left = operand(alloc, left)?;
    let right = operand(alloc, right)?;
    match sign {
        Connective::And => Ok(State::And(left, right)),
        Connective::Or => Ok(State::Or(left, right)),
        Connective::Implies => Ok(State::Implies(left, right)),
    }
}

/// A modality before a state formula.
#[cycle(states)]
fn modal_state(
    alloc: Global,
    brackets: Brackets,
    inside: &WrittenRegular,
    inner: &WrittenState,
) -> Result<State, FormulaError>
    requires { IsSome (meant (written_modal brackets (reg_syntax inside.now) (state_syntax inner.now))) }
    ensures { MatchResult result
        (λ f. meant (written_modal brackets (reg_syntax inside.now) (state_syntax inner.now)) ≡ Some (formula_of f))
        (λ e. e ≡ FormulaError.Memory) }
{
    let inner = operand(alloc, inner)?;
    let inside = regular(alloc, inside)?;
    match brackets {
        Brackets::Diamond => Ok(State::Dia(inside, inner)),
        Brackets::Box => Ok(State::Box(inside, inner)),
    }
}

/// A binder of a name before a state formula.
#[cycle(states)]
fn bound_state(
    alloc: Global,
    binder: Binder,
    name: &[u8],
    inner: &WrittenState,
) -> Result<State, FormulaError>
    requires { IsSome (meant (bound binder name.now (state_syntax inner.now))) }
    ensures { MatchResult result
        (λ f. meant (bound binder name.now (state_syntax inner.now)) ≡ Some (formula_of f))
        (λ e. e ≡ FormulaError.Memory) }
{
    let name = copied(alloc, name)?;
    let inner = operand(alloc, inner)?;
    match binder {
        Binder::Mu => Ok(State::Mu(name, inner)),
        Binder::Nu => Ok(State::Nu(name, inner)),
    }
}
