// How many nodes a formula's normal form has, found without making any.

ghost use Rattle.std.specs.Prelude.{◌≡◌, ◌<◌, ◌≤◌, MatchOption};
ghost use Rattle.calculus.specs.View.{regular_of, formula_of};
ghost use Rattle.calculus.specs.NormalTree.{node_count as count_of, modal_count as modal_count_of};

use calculus::limits::MOST_NODES;
use calculus::tree::{Reg, State};

// The number, where it is within the limit.
fn within(number: u32) -> Option<u32>
    ensures { MatchOption result (MOST_NODES < number) (λ n. (n ≡ number) × (n ≤ MOST_NODES)) }
{
    if number as usize <= MOST_NODES {
        Some(number)
    } else {
        None
    }
}

/// How many nodes the normal form has, or nothing where there are more than the limit allows. It stops where the limit is passed.
#[tactic(auto, using(crate::proofs::Counts::modal_count_grows))]
pub fn counted_nodes(formula: &State) -> Option<u32>
    ensures { MatchOption result (MOST_NODES < count_of (formula_of formula.now)) (λ n. (n ≡ count_of (formula_of formula.now)) × (n ≤ MOST_NODES)) }
{
    match formula {
        State::True | State::False | State::Var(_) => Some(1),
        State::Not(f) => counted_nodes(f),
        State::And(f, g) | State::Or(f, g) | State::Implies(f, g) => {
            let left = counted_nodes(f)?;
            let right = counted_nodes(g)?;
            within(1 + left + right)
        }
        State::Dia(r, f) | State::Box(r, f) => {
            let operand = counted_nodes(f)?;
            modal_count(r, operand)
        }
        State::Mu(_, f) | State::Nu(_, f) => {
            let operand = counted_nodes(f)?;
            within(1 + operand)
        }
    }
}

// How many nodes a modality has whose operand has so many, or nothing where there are more than the limit allows.
#[tactic(auto, using(crate::proofs::Counts::modal_count_grows))]
fn modal_count(regular: &Reg, operand: u32) -> Option<u32>
    requires { operand ≤ MOST_NODES }
    ensures { MatchOption result (MOST_NODES < modal_count_of (regular_of regular.now) operand)
        (λ n. (n ≡ modal_count_of (regular_of regular.now) operand) × (n ≤ MOST_NODES)) }
{
    match regular {
        Reg::Act(_) => within(1 + operand),
        Reg::Seq(r, s) => {
            let rest = modal_count(s, operand)?;
            modal_count(r, rest)
        }
        Reg::Choice(r, s) => {
            let left = modal_count(r, operand)?;
            let right = modal_count(s, operand)?;
            within(1 + left + right)
        }
        Reg::Star(r) => {
            let step = modal_count(r, 1)?;
            within(2 + operand + step)
        }
        Reg::Plus(r) => {
            let step = modal_count(r, 1)?;
            let rest = within(2 + operand + step)?;
            modal_count(r, rest)
        }
    }
}
