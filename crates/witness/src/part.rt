// The transitions that the play takes.

ghost use Rattle.std.specs.Prelude.{◌≡◌, ◌<◌, false, ℕ, List, Some, IfOk, IsTrue, length, map, slice_get, slice_index_or};
ghost use Rattle.systems.specs.Numbered.{IsInside, arrow_of, system_with};
ghost use Rattle.calculus.specs.Tree.{Formula};
ghost use Rattle.calculus.specs.Admitted.{IsAdmitted};
ghost use Rattle.calculus.specs.NormalTree.{normal_form};
ghost use Rattle.calculus.specs.Nodes.{Node};
ghost use Rattle.calculus.specs.Normal.{normal_nodes};
ghost use Rattle.game.specs.Arena.{arena};
ghost use Rattle.calculus.specs.Taken.{AreSets, IsSetFor};
ghost use Rattle.laws.specs.Admissible.{IsNodes};
ghost use Rattle.evidence.specs.Evidence.{IsGood, entry_at, has as has_entry};
ghost use Rattle.evidence.specs.Witness.{is_one_player as is_same_player, is_taken as is_taken_from, moves_to as moves_to_target, witness as whole_witness};
ghost use Rattle.witness.specs.Walk.{is_marked};
ghost use Rattle.witness.specs.Taken.{IsBetweenStates, is_taken_by_some};
ghost use Rattle.witness.specs.Witness.{HasTaken, IsWitness, root_of};

use crate::walk::reached;
use calculus::form::Normal;
use calculus::label_sets::label_sets;
use calculus::node::Kind;
use evidence::evidence::Evidence;
use game::graph::Game;
use game::player::Player;
use lts::{Lts, Transition};
use std::alloc::Global;
use text::Memory;

// Whether a set has this number.
fn has(set: &[bool], number: u32) -> bool
    ensures { result ≡ slice_index_or set.now number false }
{
    set.get(number as usize).copied().unwrap_or(false)
}

fn is_same(owner: Player, player: Player) -> bool
    ensures { result ≡ is_same_player owner player }
{
    owner == player
}

// Whether the evidence has a vertex with a move to this one.
fn moves_to(evidence: &Evidence, u: u32, t: u32) -> bool
    requires { u < length evidence.now.game.vertices }
    ensures { result ≡ moves_to_target (entry_at evidence.now.evidence u) t }
{
    match evidence.get(u) {
        Some(entry) => match entry.next {
            Some(next) => next == t,
            None => false,
        },
        None => false,
    }
}

// Whether the play takes a transition from the node of this number, whose action formula holds of the labels in the set.
fn is_taken(
    normal: &Normal,
    game: &Game,
    evidence: &Evidence,
    set: &[bool],
    marks: &[bool],
    k: u32,
    transition: Transition,
) -> bool
    requires same { evidence.now.game ≡ game.now }
    requires node { k < length (normal_nodes normal.now) }
    requires within { IsBetweenStates game.now (length (normal_nodes normal.now)) transition }
    ensures { (labels : List (List ℕ)) (node : Node) → slice_get (normal_nodes normal.now) k ≡ Some node → IsSetFor labels node.shape set.now
        → transition.label < length labels
        → result ≡ is_taken_from (length (normal_nodes normal.now)) evidence.now.evidence (is_marked marks.now) (arrow_of labels transition) k node.shape }
{
    game.known();
    normal.known();
    let (owner, child) = match normal.node(k).kind {
        Kind::Dia(_, child) => (Player::Even, child),
        Kind::Box(_, child) => (Player::Odd, child),
        _ => return false,
    };
    let here = game.vertex_of(transition.source, k);
    let next = game.vertex_of(transition.target, child);
    has(marks, here)
        && has(set, transition.label)
        && (!is_same(owner, evidence.player()) || moves_to(evidence, here, next))
}

// Whether the play takes a transition from some node.
fn is_kept(
    normal: &Normal,
    game: &Game,
    evidence: &Evidence,
    sets: &[Vec<bool>],
    marks: &[bool],
    transition: Transition,
) -> bool
    requires same { evidence.now.game ≡ game.now }
    requires count { length sets.now ≡ length (normal_nodes normal.now) }
    requires within { IsBetweenStates game.now (length (normal_nodes normal.now)) transition }
    ensures { (labels : List (List ℕ)) → AreSets labels (normal_nodes normal.now) (map (λ set. set.items) sets.now) → transition.label < length labels
        → result ≡ is_taken_by_some (normal_nodes normal.now) evidence.now.evidence (is_marked marks.now) (arrow_of labels transition) }
{
    for k in 0..normal.count() {
        let set = sets[k as usize].as_slice();
        if is_taken(normal, game, evidence, set, marks, k, transition) {
            return true;
        }
    }
    false
}

// The transitions that the play takes at marked vertices.
fn taken(
    alloc: Global,
    system: &Lts,
    normal: &Normal,
    game: &Game,
    evidence: &Evidence,
    sets: &[Vec<bool>],
    marks: &[bool],
) -> Result<Vec<Transition>, Memory>
    requires game { game.now ≡ arena system.now.system (normal_nodes normal.now) }
    requires same { evidence.now.game ≡ game.now }
    requires sets { AreSets system.now.labels (normal_nodes normal.now) (map (λ set. set.items) sets.now) }
    requires count { length sets.now ≡ length (normal_nodes normal.now) }

    ensures inside { IfOk result (λ part. IsInside system.now part.items) }
    ensures taken { IfOk result (λ part. system_with system.now part.items
        ≡ whole_witness system.now.system (normal_nodes normal.now) evidence.now.evidence (is_marked marks.now)) }
{
    let mut part = Vec::new(alloc);
    for transition in system.all() {
        if is_kept(normal, game, evidence, sets, marks, *transition) {
            part.push(*transition)?;
        }
    }
    Ok(part)
}

/// The vertex of the initial state with the root.
pub fn root_vertex(system: &Lts, normal: &Normal, game: &Game) -> u32
    requires { game.now ≡ arena system.now.system (normal_nodes normal.now) }
    ensures root { result ≡ root_of system.now.system (normal_nodes normal.now) }
    ensures within { result < length game.now.vertices }
{
    game.known();
    normal.known();
    game.vertex_of(system.initial(), 0)
}

/// Whether the evidence has the vertex of the initial state with the root. Then its player has the answer there.
pub fn has_root(system: &Lts, normal: &Normal, game: &Game, evidence: &Evidence) -> bool
    requires game { game.now ≡ arena system.now.system (normal_nodes normal.now) }
    requires same { evidence.now.game ≡ game.now }
    ensures { result ≡ has_entry evidence.now.evidence (root_of system.now.system (normal_nodes normal.now)) }
{
    evidence.has(root_vertex(system, normal, game))
}

/// The transitions on which the answer for the initial state rests, where the evidence has its vertex with the root: those that
/// the play takes from there by the evidence's moves and by all of the opponent's. They make a witness of each formula whose
/// normal form this is. It looks at each edge of what the play reaches once, and at each transition once for each node.
///
/// # Errors
/// Out of memory.
pub fn witness(
    alloc: Global,
    system: &Lts,
    normal: &Normal,
    game: &Game,
    evidence: &Evidence,
) -> Result<Vec<Transition>, Memory>
    requires game { game.now ≡ arena system.now.system (normal_nodes normal.now) }
    requires same { evidence.now.game ≡ game.now }
    requires good { IsGood game.now evidence.now.evidence }
    requires root { IsTrue (has_entry evidence.now.evidence (root_of system.now.system (normal_nodes normal.now))) }

    ensures inside { IfOk result (λ part. IsInside system.now part.items) }
    ensures taken { IfOk result (λ part. HasTaken system.now.system (normal_nodes normal.now) evidence.now.evidence (system_with system.now part.items)) }
    ensures witness { IfOk result (λ part. (f : Formula) → IsAdmitted f → IsNodes (normal_form f) (normal_nodes normal.now)
        → IsWitness system.now.system f (system_with system.now part.items)) }
{
    evidence.known();
    // For the proof: the clauses of this call say what the system has.
    let _states = system.states();
    let root = root_vertex(system, normal, game);
    let marks = reached(alloc, game, evidence, root)?;
    let sets = label_sets(alloc, system, normal)?;
    taken(alloc, system, normal, game, evidence, &sets, &marks)
}
