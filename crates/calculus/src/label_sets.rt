// The labels that the modalities of a normal form take.

ghost use Rattle.std.specs.Prelude.{◌≡◌, length, map, vec_len, IfOk};
ghost use Rattle.calculus.specs.View.{action_of};
ghost use Rattle.calculus.specs.NodeView.{shape_of};
ghost use Rattle.calculus.specs.Normal.{normal_nodes};
ghost use Rattle.calculus.specs.Taken.{AreSets, IsSetFor, IsSetOf};

use crate::form::Normal;
use crate::holds;
use crate::node::{Kind, Node};
use crate::tree::Act;
use std::alloc::{AllocError, Global};
use systems::system::Lts;

// For each label whether the action formula holds of it.
fn set_of(alloc: Global, lts: &Lts, action: &Act) -> Result<Vec<bool>, AllocError>
    ensures { IfOk result (λ set. IsSetOf (action_of action.now) lts.now.labels set.items) }
{
    let mut set = Vec::new(alloc);
    for number in 0..lts.labels() {
        let Ok(number) = u32::try_from(number) else {
            break;
        };
        set.push(holds(action, &lts.label(number)))?;
    }
    Ok(set)
}

// The labels of which the node's action formula holds, if it has one.
fn set_for(alloc: Global, lts: &Lts, node: &Node) -> Result<Vec<bool>, AllocError>
    ensures { IfOk result (λ set. IsSetFor lts.now.labels (shape_of node.now.kind) set.items) }
{
    match &node.kind {
        Kind::Dia(action, _) | Kind::Box(action, _) => set_of(alloc, lts, action),
        _ => Ok(Vec::new(alloc)),
    }
}

/// For each node and each label whether the node's action formula holds of the label. A node without one has no labels.
///
/// # Errors
/// Out of memory, and nothing else.
pub fn label_sets(alloc: Global, lts: &Lts, form: &Normal) -> Result<Vec<Vec<bool>>, AllocError>
    ensures sets { IfOk result (λ sets. AreSets lts.now.labels (normal_nodes form.now) (map (λ set. set.items) sets.items)) }
    ensures count { IfOk result (λ sets. vec_len sets ≡ length (normal_nodes form.now)) }
{
    let mut sets = Vec::new(alloc);
    for node in form.nodes() {
        sets.push(set_for(alloc, lts, node)?)?;
    }
    Ok(sets)
}
