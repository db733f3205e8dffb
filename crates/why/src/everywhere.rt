// What a fixpoint asks of each state that is reachable.

ghost use Rattle.std.specs.Prelude.{◌≡◌, ◌<◌, ℕ, IfOk, IfSome, IsTrue, length, option_map};
ghost use Rattle.calculus.specs.Normal.{normal_nodes};
ghost use Rattle.calculus.specs.NodeView.{shape_of};
ghost use Rattle.calculus.specs.View.{action_of};
ghost use Rattle.witness.specs.Walk.{is_marked};
ghost use Rattle.why.specs.Everywhere.{IsEverywhere, asked_part as asked_part_of, asked_test as asked_test_of, has_step as has_step_of, is_constant as is_constant_of};
ghost use Rattle.why.specs.Everywhere.{is_greatest as is_greatest_of, is_variable as is_variable_of, part_beside as part_beside_of, part_joined as part_joined_of};
ghost use Rattle.why.specs.Everywhere.{shape_of_node, step_test as step_test_of, steps_again as steps_again_of, test_of};

use crate::writer::{node_of, state_of};
use calculus::form::Normal;
use calculus::holds;
use calculus::node::Kind;
use calculus::tree::Act;
use game::player::Player;
use lts::Lts;
use std::alloc::Global;
use text::Memory;
use witness::walk::{count_marked, reached_states};

/// That a state has a step by an action, or has none.
#[derive(Clone, Copy)]
pub struct StepTest<'a> {
    pub action: &'a Act,
    pub possible: bool,
}

/// f, where the node of this number is `mu X. (f || <true>X)` or `nu X. (f && [true]X)`, with its parts in either order.
pub fn asked_part(form: &Normal, k: u32) -> Option<u32>
    ensures { result ≡ asked_part_of (normal_nodes form.now) k }
{
    match kind_of(form, k) {
        Some(Kind::Mu(child)) => part_joined(form, true, k, *child),
        Some(Kind::Nu(child)) => part_joined(form, false, k, *child),
        _ => None,
    }
}

fn part_joined(form: &Normal, least: bool, binder: u32, k: u32) -> Option<u32>
    ensures { let nodes = normal_nodes form.now in result ≡ part_joined_of nodes least binder (shape_of_node nodes k) }
{
    match kind_of(form, k) {
        Some(Kind::Or(left, right)) if least => part_beside(form, least, binder, *left, *right),
        Some(Kind::And(left, right)) if !least => part_beside(form, least, binder, *left, *right),
        _ => None,
    }
}

fn part_beside(form: &Normal, least: bool, binder: u32, left: u32, right: u32) -> Option<u32>
    ensures { result ≡ part_beside_of (normal_nodes form.now) least binder left right }
{
    if steps_again(form, least, binder, left) {
        Some(right)
    } else if steps_again(form, least, binder, right) {
        Some(left)
    } else {
        None
    }
}

fn steps_again(form: &Normal, least: bool, binder: u32, k: u32) -> bool
    ensures { let nodes = normal_nodes form.now in result ≡ steps_again_of nodes least binder (shape_of_node nodes k) }
{
    match kind_of(form, k) {
        Some(Kind::Dia(Act::True, child)) => least && is_variable(form, binder, *child),
        Some(Kind::Box(Act::True, child)) => !least && is_variable(form, binder, *child),
        _ => false,
    }
}

fn is_variable(form: &Normal, binder: u32, k: u32) -> bool
    ensures { result ≡ is_variable_of binder (shape_of_node (normal_nodes form.now) k) }
{
    match kind_of(form, k) {
        Some(Kind::Var(other)) => *other == binder,
        _ => false,
    }
}

/// Whether the node of this number is a greatest fixpoint.
pub fn is_greatest(form: &Normal, k: u32) -> bool
    ensures { result ≡ is_greatest_of (shape_of_node (normal_nodes form.now) k) }
{
    matches!(kind_of(form, k), Some(Kind::Nu(_)))
}

/// What a node is, if there is one of this number.
fn kind_of(form: &Normal, k: u32) -> Option<&Kind>
    ensures { option_map (λ kind. shape_of kind.now) result ≡ shape_of_node (normal_nodes form.now) k }
{
    if k < form.count() {
        Some(&form.node(k).kind)
    } else {
        None
    }
}

/// What holds of each reachable state where a least fixpoint of this number doesn't hold, or a greatest one does.
pub(crate) fn asked_test(form: &Normal, k: u32) -> Option<StepTest<'_>>
    ensures { option_map test_of result ≡ asked_test_of (normal_nodes form.now) k }
{
    match asked_part(form, k) {
        Some(part) => step_test(form, is_greatest(form, k), part),
        None => None,
    }
}

/// What holds where `<a>true` or `[a]false` does, or where it doesn't.
fn step_test(form: &Normal, holds: bool, k: u32) -> Option<StepTest<'_>>
    ensures { let nodes = normal_nodes form.now in option_map test_of result ≡ step_test_of nodes holds (shape_of_node nodes k) }
{
    match kind_of(form, k) {
        Some(Kind::Dia(action, child)) if is_constant(form, true, *child) => Some(StepTest {
            action,
            possible: holds,
        }),
        Some(Kind::Box(action, child)) if is_constant(form, false, *child) => Some(StepTest {
            action,
            possible: !holds,
        }),
        _ => None,
    }
}

fn is_constant(form: &Normal, flag: bool, k: u32) -> bool
    ensures { result ≡ is_constant_of flag (shape_of_node (normal_nodes form.now) k) }
{
    match kind_of(form, k) {
        Some(Kind::True) => flag,
        Some(Kind::False) => !flag,
        _ => false,
    }
}

/// How many states are reachable from the state of a vertex, where what its fixpoint asks is so of each of them. So many states and transitions may be
/// looked at.
pub(crate) fn everywhere(
    alloc: Global,
    system: &Lts,
    form: &Normal,
    winner: Player,
    u: u32,
    spare: &mut usize,
) -> Result<Option<usize>, Memory>
    ensures { IfOk result (λ found. IfSome found (IsEverywhere system.now.system (normal_nodes form.now) u)) }
{
    let (node, state) = (node_of(form, u), state_of(form, u));
    let Some(test) = asked_test(form, node) else {
        return Ok(None);
    };
    let looks = system.states() as usize + system.all().len();
    let is_won = is_greatest(form, node) == (winner == Player::Even);
    if !is_won || *spare < looks || state >= system.states() {
        return Ok(None);
    }
    *spare -= looks;
    let marks = reached_states(alloc, system, state)?;
    if are_so(system, &marks, test) {
        Ok(Some(count_marked(&marks)))
    } else {
        Ok(None)
    }
}

/// Whether the test holds of each of the marked states.
fn are_so(system: &Lts, marks: &[bool], test: StepTest<'_>) -> bool
    requires { length marks.now ≡ system.now.system.states }
    ensures { IsTrue result → (s : ℕ) → s < system.now.system.states → IsTrue (is_marked marks.now s)
        → has_step_of system.now.system (action_of test.entry.action.now) s ≡ test.entry.possible }
{
    for state in 0..system.states() {
        if marks[state as usize] && has_step(system, test.action, state) != test.possible {
            return false;
        }
    }
    true
}

/// Whether a state has a step by an action.
fn has_step(system: &Lts, action: &Act, state: u32) -> bool
    requires { state < system.now.system.states }
    ensures { result ≡ has_step_of system.now.system (action_of action.now) state }
{
    for step in system.from(state) {
        if holds(action, &system.label(step.label)) {
            return true;
        }
    }
    false
}
