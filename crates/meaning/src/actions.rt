// Steps by an action formula.

ghost use Rattle.std.specs.Prelude.{◌≡◌, ℕ, ◌<◌, ◌^◌, length, slice_index_or, false, IfOk};
ghost use Rattle.systems.specs.Numbered.{label_at};
ghost use Rattle.calculus.specs.Tree.{Step};
ghost use Rattle.calculus.specs.View.{action_of};
ghost use Rattle.calculus.specs.Holds.{holds as holds_of};
ghost use Rattle.calculus.specs.Meaning.{MarksOf};
ghost use Rattle.meaning.specs.Into.{Into};

use crate::sets::all_marks;
use calculus::holds;
use calculus::tree::Act;
use std::alloc::{AllocError, Global};
use systems::system::{Lts, Transition};

/// Whether the action formula holds of each label, by the label's number.
pub fn chosen_labels(alloc: Global, lts: &Lts, action: &Act) -> Result<Vec<bool>, AllocError>
    ensures count { IfOk result (λ chosen. (k : ℕ) → k < length lts.now.labels → k < 2 ^ 32 → k < length chosen.items) }
    ensures each { IfOk result (λ chosen. (k : ℕ) → k < length chosen.items
        → slice_index_or chosen.items k false ≡ holds_of (action_of action.now) (label_at lts.now.labels k)) }
{
    let mut chosen = Vec::with_capacity(alloc, lts.labels())?;
    for number in 0..lts.labels() {
        // A transition gives its label as a `u32`, so none has a label past those.
        let Ok(number) = u32::try_from(number) else {
            break;
        };
        chosen.push(holds(action, &lts.label(number)))?;
    }
    Ok(chosen)
}

/// Whether the label of this number is chosen.
pub fn is_chosen(chosen: &[bool], label: u32) -> bool
    requires { label < 2 ^ 32 → label < length chosen.now }
    ensures value { result ≡ slice_index_or chosen.now label false }
    // The number of a label fits its type, so it is among the decided ones.
    ensures fits { label < 2 ^ 32 }
{
    chosen[label as usize]
}

/// The states from which a step of the action leads into the set.
pub fn before(
    alloc: Global,
    lts: &Lts,
    action: &Act,
    marks: &[bool],
) -> Result<Vec<bool>, AllocError>
    requires { length marks.now ≡ lts.now.system.states }
    ensures { IfOk result (λ found. MarksOf lts.now.system.states found.items (Into lts.now.system (Step (action_of action.now)) marks.now)) }
{
    let chosen = chosen_labels(alloc, lts, action)?;
    let mut found = all_marks(alloc, lts.states() as usize, false)?;
    for &Transition {
        source,
        label,
        target,
    } in lts.all() {
        let leads = is_chosen(&chosen, label) & marks[target as usize];
        let had = found[source as usize];
        found[source as usize] = had | leads;
    }
    Ok(found)
}
