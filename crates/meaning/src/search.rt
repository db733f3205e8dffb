// Where any number of steps of an action lead, by one search backwards.

ghost use Rattle.std.specs.Prelude.{◌≡◌, ℕ, ◌+◌, ◌*◌, ◌<◌, ◌≤◌, ◌⊎◌, length, All, Contains, IfOk, OnOk};
ghost use Rattle.systems.specs.System.{IsSystem};
ghost use Rattle.calculus.specs.Tree.{Step, Star};
ghost use Rattle.calculus.specs.View.{action_of};
ghost use Rattle.calculus.specs.Meaning.{MarksOf, marked};
ghost use Rattle.meaning.specs.Into.{Into};
ghost use Rattle.meaning.specs.Arrivals.{IsSource, HasRoom, IsIndex, unmarked};

use crate::actions::{chosen_labels, is_chosen};
use crate::arrivals::{Arrival, Arrivals};
use calculus::tree::Act;
use std::alloc::{AllocError, Global};
use systems::system::{Lts, Transition};

/// The steps of the action, by the states into which they lead.
fn index_of(alloc: Global, lts: &Lts, action: &Act) -> Result<Arrivals, AllocError>
    ensures { IfOk result (IsIndex lts.now.system (action_of action.now)) }
{
    let chosen = chosen_labels(alloc, lts, action)?;
    let mut last = vec![in alloc; 0; lts.states() as usize]?;
    let mut all = Vec::new(alloc);
    for &Transition {
        source,
        label,
        target,
    } in lts.all() {
        if is_chosen(&chosen, label) {
            all.push(Arrival {
                source,
                earlier: last[target as usize],
            })?;
            last[target as usize] = all.len();
        }
    }
    Ok(Arrivals { last, all })
}

/// The states in the set.
fn states_in(alloc: Global, marks: &[bool]) -> Result<Vec<usize>, AllocError>
    ensures inside { IfOk result (λ states. All (λ t. t < length marks.now) states.items) }
    ensures only { IfOk result (λ states. (t : ℕ) → Contains states.items t → marked marks.now t) }
    ensures every { IfOk result (λ states. (t : ℕ) → t < length marks.now → marked marks.now t → Contains states.items t) }
    ensures few { IfOk result (λ states. length states.items ≤ length marks.now) }
{
    let mut states = Vec::new(alloc);
    for (state, mark) in marks.iter().enumerate() {
        if *mark {
            states.push(state)?;
        }
    }
    Ok(states)
}

/// Marks the states from which a step leads into this one, and puts those that are new to the waiting ones.
fn visit(
    arrivals: &Arrivals,
    state: usize,
    found: &mut Vec<bool>,
    waiting: &mut Vec<usize>,
) -> Result<(), AllocError>
    requires room { HasRoom (length found.old.items) arrivals.now.last.items arrivals.now.all.items }
    requires state { state < length found.old.items }
    requires waiting { All (λ t. t < length found.old.items) waiting.old.items }
    requires known { (s : ℕ) → Contains waiting.old.items s → marked found.old.items s }

    ensures count { OnOk result (length found.new.items ≡ length found.old.items) }
    ensures inside { OnOk result (All (λ t. t < length found.old.items) waiting.new.items) }
    ensures known { OnOk result ((s : ℕ) → Contains waiting.new.items s → marked found.new.items s) }
    ensures kept { OnOk result ((s : ℕ) → marked found.old.items s → marked found.new.items s) }
    ensures waits { OnOk result ((s : ℕ) → Contains waiting.old.items s → Contains waiting.new.items s) }
    ensures sources { OnOk result ((s : ℕ) → IsSource arrivals.now state s → marked found.new.items s) }
    ensures fresh { OnOk result ((s : ℕ) → marked found.new.items s → marked found.old.items s
        ⊎ (Contains waiting.new.items s × IsSource arrivals.now state s)) }
    ensures fewer { OnOk result (2 * unmarked found.new.items + length waiting.new.items ≤ 2 * unmarked found.old.items + length waiting.old.items) }
{
    let mut next = arrivals.last[state];
    while next != 0 {
        let Arrival { source, earlier } = arrivals.all[next - 1];
        if !found[source as usize] {
            waiting.push(source as usize)?;
            found[source as usize] = true;
        }
        next = earlier;
    }
    Ok(())
}

/// The states from which some number of steps of the action lead into the set.
pub fn reaching_by(
    alloc: Global,
    lts: &Lts,
    action: &Act,
    marks: &[bool],
) -> Result<Vec<bool>, AllocError>
    requires system { IsSystem lts.now.system }
    requires count { length marks.now ≡ lts.now.system.states }
    ensures { IfOk result (λ found. MarksOf lts.now.system.states found.items (Into lts.now.system (Star (Step (action_of action.now))) marks.now)) }
{
    let arrivals = index_of(alloc, lts, action)?;
    let mut found = marks.to_vec(alloc)?;
    let mut waiting = states_in(alloc, marks)?;
    while let Some(state) = waiting.pop() {
        visit(&arrivals, state, &mut found, &mut waiting)?;
    }
    Ok(found)
}
