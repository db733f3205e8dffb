// The normal form of a formula.

ghost use Rattle.std.specs.Prelude.{◌≡◌, ◌≤◌, IfOk, OnOk, IfErr};
ghost use Rattle.calculus.specs.Closed.{closed_formula};
ghost use Rattle.calculus.specs.NormalTree.{node_count as count_of, depth, normal_form};
ghost use Rattle.calculus.specs.Nodes.{nodes, greatest_node_priority};
ghost use Rattle.calculus.specs.Rules.{nodes_with};
ghost use Rattle.calculus.specs.Normal.{normal_nodes, normal_depth};
ghost use Rattle.normal.specs.Refused.{HasRefusal, HasRefusalWith};

use crate::count::counted_nodes;
use crate::error::NormalError;
use crate::part::{NumberedScope, Part};
use crate::survey::{PartPlace, Survey};
use crate::write::Preorder;
use calculus::closed::Closed;
use calculus::form::Normal;
use calculus::limits::{GREATEST_PRIORITY, MOST_NODES};
use calculus::priorities::Priorities;
use std::alloc::Global;

/// The normal form of a formula with the nested priorities. Negations go down to the action formulas, and iterations become
/// fixpoints (Kozen 1983).
///
/// # Errors
/// As those of `normal_with`.
pub fn normal(alloc: Global, formula: &Closed) -> Result<Normal, NormalError>
    ensures nodes { IfOk result (λ n. normal_nodes n ≡ nodes (closed_formula formula.now)) }
    ensures depth { IfOk result (λ n. normal_depth n ≡ depth (normal_form (closed_formula formula.now))) }
    ensures count { OnOk result (count_of (closed_formula formula.now) ≤ MOST_NODES) }
    ensures low { OnOk result (greatest_node_priority (nodes (closed_formula formula.now)) ≤ GREATEST_PRIORITY) }

    ensures refused { IfErr result (HasRefusal (closed_formula formula.now)) }
{
    normal_with(alloc, formula, Priorities::Nested)
}

/// The normal form of a formula, with the priorities of this rule.
///
/// # Errors
/// N1 where the nodes are too many, counted before any is made; N2 where they are not and a priority is too great, found
/// without memory and before any node is made; N3, out of memory, only where neither stands.
pub fn normal_with(
    alloc: Global,
    formula: &Closed,
    priorities: Priorities,
) -> Result<Normal, NormalError>
    ensures nodes { IfOk result (λ n. normal_nodes n ≡ nodes_with priorities (closed_formula formula.now)) }
    ensures depth { IfOk result (λ n. normal_depth n ≡ depth (normal_form (closed_formula formula.now))) }
    ensures count { OnOk result (count_of (closed_formula formula.now) ≤ MOST_NODES) }
    ensures low { OnOk result (greatest_node_priority (nodes_with priorities (closed_formula formula.now)) ≤ GREATEST_PRIORITY) }

    ensures refused { IfErr result (HasRefusalWith priorities (closed_formula formula.now)) }
{
    let tree = formula.tree();
    if counted_nodes(tree).is_none() {
        return Err(NormalError::TooManyNodes);
    }
    let part = Part::Formula(true, tree, &NumberedScope::Empty);
    let mut survey = Survey::new(priorities);
    let summary = survey.part(PartPlace::ROOT, &part);
    if summary.greatest > GREATEST_PRIORITY {
        return Err(NormalError::PriorityTooGreat);
    }
    let mut preorder = Preorder::new(alloc, &survey.priorities);
    preorder.part(&part)?;
    Ok(Normal::of(preorder.nodes, summary.depth()))
}
