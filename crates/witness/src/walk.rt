// The vertices that the play reaches, and the states that can be reached.

ghost use Rattle.std.specs.Prelude.{◌≡◌, ◌<◌, ◌∷◌, [], ℕ, List, IfOk, OnOk, count_by, length};
ghost use Rattle.std.specs.List.{AllByRecursion};
ghost use Rattle.evidence.specs.Evidence.{IsGood};
ghost use Rattle.evidence.specs.Witness.{AreReached};
ghost use Rattle.calculus.specs.Meaning.{Leads};
ghost use Rattle.calculus.specs.Tree.{Anything, Step};
ghost use Rattle.witness.specs.Walk.{AreGoals, AreTargets, MarksReached, Visits, is_marked};

use evidence::evidence::Evidence;
use game::graph::Game;
use lts::Lts;
use std::alloc::Global;
use text::Memory;

// Marks a vertex. It waits, if it was not marked.
fn visit(marks: &mut Vec<bool>, waiting: &mut Vec<u32>, u: u32) -> Result<(), Memory>
    requires { u < length marks.old.items }
    ensures { OnOk result (Visits marks.old.items waiting.old.items (u ∷ []) marks.new.items waiting.new.items) }
{
    if !marks[u as usize] {
        marks[u as usize] = true;
        waiting.push(u)?;
    }
    Ok(())
}

// Marks these vertices. Those of them that were not marked wait.
fn visit_all(marks: &mut Vec<bool>, waiting: &mut Vec<u32>, targets: &[u32]) -> Result<(), Memory>
    requires { AllByRecursion (λ t. t < length marks.old.items) targets.now }
    ensures { OnOk result (Visits marks.old.items waiting.old.items targets.now marks.new.items waiting.new.items) }
{
    for t in targets {
        visit(marks, waiting, *t)?;
    }
    Ok(())
}

// Marks where the play may go on from a vertex.
fn follow(
    game: &Game,
    evidence: &Evidence,
    u: u32,
    marks: &mut Vec<bool>,
    waiting: &mut Vec<u32>,
) -> Result<(), Memory>
    requires same { evidence.now.game ≡ game.now }
    requires good { IsGood game.now evidence.now.evidence }
    requires vertex { u < length game.now.vertices }
    requires long { length marks.old.items ≡ length game.now.vertices }

    ensures { OnOk result ((targets : List ℕ) × AreGoals game.now evidence.now.evidence u targets
        × Visits marks.old.items waiting.old.items targets marks.new.items waiting.new.items) }
{
    game.known();
    evidence.known();
    match evidence.get(u) {
        None => Ok(()),
        Some(entry) => match entry.next {
            Some(next) => visit(marks, waiting, next),
            None => visit_all(marks, waiting, game.successors(u)),
        },
    }
}

/// A mark for each vertex, true where the play reaches it from the root by the evidence's moves and all of the opponent's.
pub(crate) fn reached(
    alloc: Global,
    game: &Game,
    evidence: &Evidence,
    root: u32,
) -> Result<Vec<bool>, Memory>
    requires same { evidence.now.game ≡ game.now }
    requires good { IsGood game.now evidence.now.evidence }
    requires root { root < length game.now.vertices }
    ensures { IfOk result (λ marks. AreReached game.now evidence.now.evidence root (is_marked marks.items)) }
{
    let mut marks = vec![in alloc; false; game.vertices() as usize]?;
    let mut waiting = Vec::new(alloc);
    visit(&mut marks, &mut waiting, root)?;
    while let Some(u) = waiting.pop() {
        follow(game, evidence, u, &mut marks, &mut waiting)?;
    }
    Ok(marks)
}

// Marks the states to which steps lead from a state.
fn follow_steps(
    system: &Lts,
    state: u32,
    marks: &mut Vec<bool>,
    waiting: &mut Vec<u32>,
) -> Result<(), Memory>
    requires state { state < system.now.system.states }
    requires long { length marks.old.items ≡ system.now.system.states }

    ensures { OnOk result ((targets : List ℕ) × AreTargets (Leads system.now.system (Step Anything)) state targets
        × Visits marks.old.items waiting.old.items targets marks.new.items waiting.new.items) }
{
    for step in system.from(state) {
        visit(marks, waiting, step.target)?;
    }
    Ok(())
}

/// A mark for each state, true where it is reachable from this one.
pub fn reached_states(alloc: Global, system: &Lts, from: u32) -> Result<Vec<bool>, Memory>
    requires { from < system.now.system.states }
    ensures { IfOk result (λ marks. MarksReached system.now.system from marks.items) }
{
    let mut marks = vec![in alloc; false; system.states() as usize]?;
    let mut waiting = Vec::new(alloc);
    visit(&mut marks, &mut waiting, from)?;
    while let Some(state) = waiting.pop() {
        follow_steps(system, state, &mut marks, &mut waiting)?;
    }
    Ok(marks)
}

/// How many states are marked.
pub fn count_marked(marks: &[bool]) -> usize
    ensures { result ≡ count_by (λ mark. mark) marks.now }
{
    marks.iter().filter(|mark| **mark).count()
}
