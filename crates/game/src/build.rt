// The parity game of a system and a normal form.

ghost use Rattle.std.specs.Prelude.{◌≡◌, ◌+◌, ◌-◌, ◌*◌, ◌<◌, ◌≤◌, ◌++◌, ◌∷◌, [], false, length, map, slice_index_or, IfOk, OnOk, IfErr};
ghost use Rattle.std.specs.List.{AllByRecursion, flat_map, range_with_len};
ghost use Rattle.calculus.specs.Form.{IsNode};
ghost use Rattle.calculus.specs.NodeView.{node_of};
ghost use Rattle.calculus.specs.Normal.{normal_nodes};
ghost use Rattle.calculus.specs.Taken.{AreSets, is_in};
ghost use Rattle.game.specs.Game.{greatest};
ghost use Rattle.game.specs.Arena.{arena, rows, vertex_of, or_else, owner_of, place};
ghost use Rattle.game.specs.Lent.{lent_vertex};
ghost use Rattle.game.specs.Parts.{vertices_of_range, two_sinks};
ghost use Rattle.game.specs.Steps.{IsRowOf, picks, vertex_by};
ghost use Rattle.game.specs.Refused.{HasBuildRefusal};

use crate::error::BuildError;
use crate::gauge::Gauge;
use crate::graph::{Game, GameBuilder};
use crate::limits::MOST_VERTICES;
use crate::player::Player;
use crate::view::VertexView;
use calculus::form::Normal;
use calculus::label_sets::label_sets;
use calculus::limits::{GREATEST_PRIORITY, MOST_NODES};
use calculus::node::{Kind, Node};
use rayon::current_num_threads;
use rayon::prelude::*;
use std::alloc::{AllocError, Global};
use std::thread::Threads;
use systems::system::{Lts, Transition};

// How many ranges the states of a large game are cut into. The game is the same for each number.
const RANGES: u32 = 64;

// A game of fewer vertices is made in one thread, since more of them cost more than they save.
const LEAST_SPLIT: u64 = 65_536;

// The vertices of how many states are made from one telling to the next.
const STATES_APART: u32 = 1_024;

// Whether a label is in the set.
fn has(set: &[bool], label: u32) -> bool
    ensures { result ≡ slice_index_or set.now label false }
{
    set.get(label as usize).copied().unwrap_or(false)
}

// The vertices that a modality leads to, or else the sink.
fn pick(
    reached: &mut Vec<u32>,
    row: &[Transition],
    set: &[bool],
    nodes: u32,
    child: u32,
    sink: u32,
) -> Result<(), AllocError>
    requires nodes { nodes ≤ MOST_NODES }
    requires child { child < nodes }
    requires inside { AllByRecursion (λ t. t.target < 1000000) row.now }
    ensures { OnOk result (reached.new.items ≡ or_else (map (λ t. place nodes t child) (picks (is_in set.now) 0 row.now)) sink) }
{
    reached.clear();
    let mut least = 0;
    for transition in row {
        if has(set, transition.label) && least <= transition.target {
            reached.push(2 + (transition.target * nodes + child))?;
            least = transition.target + 1;
        }
    }
    if reached.is_empty() {
        reached.push(sink)?;
    }
    Ok(())
}

/// The transitions of a state, by target.
///
/// # Errors
/// Out of memory, and nothing else.
pub fn by_target(row: &mut Vec<Transition>, lts: &Lts, state: u32) -> Result<(), AllocError>
    requires { state < lts.now.system.states }
    ensures { OnOk result (IsRowOf lts.now state row.new.items) }
{
    row.clear();
    for transition in lts.from(state) {
        // For the proof: the field is within its type's limits.
        let _label = transition.label;
        row.push(*transition)?;
    }
    row.sort_unstable_by_key(|transition| transition.target);
    Ok(())
}

// Puts these successors in the place of others.
fn fill(reached: &mut Vec<u32>, successors: &[u32]) -> Result<(), AllocError>
    ensures { OnOk result (reached.new.items ≡ successors.now) }
{
    reached.clear();
    reached.extend_from_slice(successors)
}

/// Who owns the vertices of a node.
pub fn node_owner(node: &Node) -> Player
    ensures { result ≡ owner_of (node_of node.now).shape }
{
    match node.kind {
        Kind::And(..) | Kind::Box(..) => Player::Odd,
        _ => Player::Even,
    }
}

/// The vertex of a state with a node, where these are the state's transitions, by target, and the set has the labels of which the node's action formula holds.
/// The list is lent for its successors.
///
/// # Errors
/// Out of memory, and nothing else.
pub fn vertex_in<'a>(
    reached: &'a mut Vec<u32>,
    row: &[Transition],
    set: &[bool],
    nodes: u32,
    state: u32,
    node: &Node,
) -> Result<VertexView<'a>, AllocError>
    requires nodes { nodes ≤ MOST_NODES }
    requires node { IsNode nodes (node_of node.now) }
    requires state { state < 1000000 }
    requires inside { AllByRecursion (λ t. t.target < 1000000) row.now }

    ensures { IfOk result (λ x. lent_vertex x ≡ vertex_by nodes state (picks (is_in set.now) 0 row.now) (node_of node.now)) }
{
    let base = 2 + state * nodes;
    match node.kind {
        Kind::True => fill(reached, &[0])?,
        Kind::False => fill(reached, &[1])?,
        Kind::And(left, right) | Kind::Or(left, right) => fill(
            reached,
            &[base + left, base + right],
        )?,
        Kind::Dia(_, child) => pick(reached, row, set, nodes, child, 1)?,
        Kind::Box(_, child) => pick(reached, row, set, nodes, child, 0)?,
        Kind::Mu(child) | Kind::Nu(child) | Kind::Var(child) => fill(reached, &[base + child])?,
    }
    Ok(VertexView {
        owner: node_owner(node),
        priority: node.priority as u8,
        successors: reached.as_slice(),
    })
}

// One more vertex: that of a state with a node.
fn push_node(
    builder: &mut GameBuilder,
    row: &[Transition],
    set: &[bool],
    nodes: u32,
    state: u32,
    node: &Node,
    reached: &mut Vec<u32>,
) -> Result<(), AllocError>
    requires room { length builder.old < MOST_VERTICES }
    requires nodes { nodes ≤ MOST_NODES }
    requires node { IsNode nodes (node_of node.now) }
    requires state { state < 1000000 }
    requires inside { AllByRecursion (λ t. t.target < 1000000) row.now }

    ensures { OnOk result (builder.new ≡ builder.old ++ vertex_by nodes state (picks (is_in set.now) 0 row.now) (node_of node.now) ∷ []) }
{
    let vertex = vertex_in(reached, row, set, nodes, state, node)?;
    builder.push(vertex.owner, vertex.priority, vertex.successors)
}

// The vertices of a state with each node.
fn push_state(
    builder: &mut GameBuilder,
    lts: &Lts,
    form: &Normal,
    sets: &[Vec<bool>],
    state: u32,
    row: &mut Vec<Transition>,
    reached: &mut Vec<u32>,
) -> Result<(), AllocError>
    requires state { state < lts.now.system.states }
    requires sets { AreSets lts.now.labels (normal_nodes form.now) (map (λ set. set.items) sets.now) }
    requires count { length sets.now ≡ length (normal_nodes form.now) }
    requires room { length builder.old + length (normal_nodes form.now) ≤ MOST_VERTICES }

    ensures { OnOk result (builder.new ≡ builder.old ++ map (vertex_of lts.now.system (length (normal_nodes form.now)) state) (normal_nodes form.now)) }
{
    form.known();
    // For the proof: the clauses of this call say what the system has.
    let _states = lts.states();
    by_target(row, lts, state)?;
    let nodes = form.count();
    for number in 0..nodes {
        let set = sets[number as usize].as_slice();
        push_node(builder, row, set, nodes, state, form.node(number), reached)?;
    }
    Ok(())
}

// Tells now and then that the vertices of another state are made.
fn tell(gauge: Option<&Gauge>, state: u32, nodes: u32) {
    if state % STATES_APART == 0 {
        if let Some(gauge) = gauge {
            gauge.add(u64::from(STATES_APART) * u64::from(nodes));
        }
    }
}

// The vertices of the states from the first one up to the end, with each node.
fn push_states(
    builder: &mut GameBuilder,
    alloc: Global,
    lts: &Lts,
    form: &Normal,
    sets: &[Vec<bool>],
    first: u32,
    end: u32,
    gauge: Option<&Gauge>,
) -> Result<(), AllocError>
    requires states { (first ≤ end) × (end ≤ lts.now.system.states) }
    requires sets { AreSets lts.now.labels (normal_nodes form.now) (map (λ set. set.items) sets.now) }
    requires count { length sets.now ≡ length (normal_nodes form.now) }
    requires room { length builder.old + (end - first) * length (normal_nodes form.now) ≤ MOST_VERTICES }

    ensures { OnOk result (builder.new ≡ builder.old ++ rows lts.now.system (normal_nodes form.now) (range_with_len first (end - first))) }
{
    let mut row = Vec::new(alloc);
    let mut reached = Vec::new(alloc);
    for state in first..end {
        push_state(builder, lts, form, sets, state, &mut row, &mut reached)?;
        tell(gauge, state, form.count());
    }
    Ok(())
}

// The two sinks, and room for so many vertices.
fn sinks(alloc: Global, vertices: u32) -> Result<GameBuilder, AllocError>
    ensures { IfOk result (λ builder. builder ≡ two_sinks) }
{
    let mut builder = GameBuilder::with_room(alloc, vertices as usize)?;
    builder.push(Player::Even, 0, &[0])?;
    builder.push(Player::Even, 1, &[1])?;
    Ok(builder)
}

// All vertices, in this thread.
fn whole(
    alloc: Global,
    lts: &Lts,
    form: &Normal,
    sets: &[Vec<bool>],
    gauge: Option<&Gauge>,
) -> Result<GameBuilder, AllocError>
    requires sets { AreSets lts.now.labels (normal_nodes form.now) (map (λ set. set.items) sets.now) }
    requires count { length sets.now ≡ length (normal_nodes form.now) }
    requires few { 2 + lts.now.system.states * length (normal_nodes form.now) ≤ MOST_VERTICES }
    ensures { IfOk result (λ builder. builder ≡ (arena lts.now.system (normal_nodes form.now)).vertices) }
{
    let states = lts.states();
    let mut builder = sinks(alloc, 2 + states * form.count())?;
    push_states(&mut builder, alloc, lts, form, sets, 0, states, gauge)?;
    Ok(builder)
}

// The vertices of the states of one range, where the states are cut into ranges of this size.
fn part(
    alloc: Global,
    lts: &Lts,
    form: &Normal,
    sets: &[Vec<bool>],
    size: u32,
    range: u32,
    gauge: Option<&Gauge>,
) -> Result<GameBuilder, AllocError>
    requires sets { AreSets lts.now.labels (normal_nodes form.now) (map (λ set. set.items) sets.now) }
    requires count { length sets.now ≡ length (normal_nodes form.now) }
    requires few { 2 + lts.now.system.states * length (normal_nodes form.now) ≤ MOST_VERTICES }
    ensures { IfOk result (λ builder. builder ≡ vertices_of_range lts.now.system (normal_nodes form.now) size range) }
{
    let states = lts.states();
    let first = (u64::from(range) * u64::from(size)).min(u64::from(states)) as u32;
    let end = first + size.min(states - first);
    let room = (end - first) * form.count();
    let mut builder = GameBuilder::with_room(alloc, room as usize)?;
    push_states(&mut builder, alloc, lts, form, sets, first, end, gauge)?;
    Ok(builder)
}

// The vertices of each range of states, in order, made by threads.
fn parts(
    rt: &(impl Threads + Sync),
    alloc: Global,
    lts: &Lts,
    form: &Normal,
    sets: &[Vec<bool>],
    size: u32,
    ranges: u32,
    gauge: Option<&Gauge>,
) -> Result<Vec<GameBuilder>, AllocError>
    requires sets { AreSets lts.now.labels (normal_nodes form.now) (map (λ set. set.items) sets.now) }
    requires count { length sets.now ≡ length (normal_nodes form.now) }
    requires few { 2 + lts.now.system.states * length (normal_nodes form.now) ≤ MOST_VERTICES }
    ensures { IfOk result (λ parts. parts.items ≡ map (vertices_of_range lts.now.system (normal_nodes form.now) size) (range_with_len 0 ranges)) }
{
    (0..ranges)
        .into_par_iter()
        .with_min_len(1)
        .map(
            |range: u32| -> Result<GameBuilder, AllocError>
                requires sets { AreSets lts.now.labels (normal_nodes form.now) (map (λ set. set.items) sets.now) }
                requires count { length sets.now ≡ length (normal_nodes form.now) }
                requires few { 2 + lts.now.system.states * length (normal_nodes form.now) ≤ MOST_VERTICES }
                ensures { IfOk result (λ builder. builder ≡ vertices_of_range lts.entry.now.system (normal_nodes form.entry.now) size range) }
            { part(alloc, lts, form, sets, size, range, gauge) },
        )
        .collect::<Result<Vec<GameBuilder>, AllocError>>(rt, alloc)?
}

// The vertices of the parts after those of the first builder. A part is let go as soon as it is joined.
fn join_all(first: GameBuilder, parts: Vec<GameBuilder>) -> Result<GameBuilder, AllocError>
    requires { length first + length (flat_map (λ part. part) parts.items) ≤ MOST_VERTICES }
    ensures { IfOk result (λ builder. builder ≡ first ++ flat_map (λ part. part) parts.items) }
{
    let mut builder = first;
    for part in parts {
        builder = builder.joined(&part)?;
    }
    Ok(builder)
}

// All vertices, where the states are cut into this many ranges, which threads share.
fn split(
    rt: &(impl Threads + Sync),
    alloc: Global,
    lts: &Lts,
    form: &Normal,
    sets: &[Vec<bool>],
    ranges: u32,
    gauge: Option<&Gauge>,
) -> Result<GameBuilder, AllocError>
    requires ranges { 1 ≤ ranges }
    requires sets { AreSets lts.now.labels (normal_nodes form.now) (map (λ set. set.items) sets.now) }
    requires count { length sets.now ≡ length (normal_nodes form.now) }
    requires few { 2 + lts.now.system.states * length (normal_nodes form.now) ≤ MOST_VERTICES }

    ensures { IfOk result (λ builder. builder ≡ (arena lts.now.system (normal_nodes form.now)).vertices) }
{
    let states = lts.states();
    let size = states.div_ceil(ranges);
    let parts = parts(rt, alloc, lts, form, sets, size, ranges, gauge)?;
    // By a match, whose arms are the cases of the proof.
    match sinks(alloc, 2 + states * form.count()) {
        Ok(first) => join_all(first, parts),
        Err(error) => Err(error),
    }
}

/// The game of each state with each node, after two sinks: Even wins the vertex of a state with a node where the node's formula
/// holds at the state (Emerson and Jutla 1991). Vertices follow each other by state and then by node. Threads make the vertices
/// of a large game, each those of some states.
///
/// # Errors
/// B1 where there would be too many vertices, told before any is made; else out of memory, B2.
pub fn build(
    rt: &(impl Threads + Sync),
    alloc: Global,
    lts: &Lts,
    form: &Normal,
) -> Result<Game, BuildError>
    ensures game { IfOk result (λ g. g ≡ arena lts.now.system (normal_nodes form.now)) }
    ensures within { OnOk result (2 + lts.now.system.states * length (normal_nodes form.now) ≤ MOST_VERTICES) }
    ensures low { IfOk result (λ g. greatest g ≤ GREATEST_PRIORITY) }
    ensures refused { IfErr result (HasBuildRefusal lts.now.system.states (length (normal_nodes form.now))) }
{
    build_seen(rt, alloc, lts, form, None)
}

/// The game that `build` makes. A gauge shows about how many of its vertices are made.
///
/// # Errors
/// Those of `build`.
pub fn build_seen(
    rt: &(impl Threads + Sync),
    alloc: Global,
    lts: &Lts,
    form: &Normal,
    gauge: Option<&Gauge>,
) -> Result<Game, BuildError>
    ensures game { IfOk result (λ g. g ≡ arena lts.now.system (normal_nodes form.now)) }
    ensures within { OnOk result (2 + lts.now.system.states * length (normal_nodes form.now) ≤ MOST_VERTICES) }
    ensures low { IfOk result (λ g. greatest g ≤ GREATEST_PRIORITY) }
    ensures refused { IfErr result (HasBuildRefusal lts.now.system.states (length (normal_nodes form.now))) }
{
    form.known();
    let vertices = u64::from(lts.states()) * u64::from(form.count());
    if let Some(gauge) = gauge {
        gauge.begin(vertices);
    }
    let ranges = if vertices < LEAST_SPLIT || current_num_threads(rt) == 1 {
        1
    } else {
        RANGES
    };
    build_split(rt, alloc, lts, form, ranges, gauge)
}

/// The game that `build` makes, whose states are cut into so many ranges of one size. Threads share the ranges where there are several.
///
/// # Errors
/// Those of `build`.
pub fn build_split(
    rt: &(impl Threads + Sync),
    alloc: Global,
    lts: &Lts,
    form: &Normal,
    ranges: u32,
    gauge: Option<&Gauge>,
) -> Result<Game, BuildError>
    requires { 1 ≤ ranges }

    ensures game { IfOk result (λ g. g ≡ arena lts.now.system (normal_nodes form.now)) }
    ensures within { OnOk result (2 + lts.now.system.states * length (normal_nodes form.now) ≤ MOST_VERTICES) }
    ensures low { IfOk result (λ g. greatest g ≤ GREATEST_PRIORITY) }

    ensures refused { IfErr result (HasBuildRefusal lts.now.system.states (length (normal_nodes form.now))) }
{
    form.known();
    let states = lts.states();
    let nodes = form.count();
    if 2 + states * nodes > MOST_VERTICES as u32 {
        return Err(BuildError::TooManyVertices);
    }
    let sets = label_sets(alloc, lts, form)?;
    let builder = if ranges == 1 {
        whole(alloc, lts, form, &sets, gauge)?
    } else {
        split(rt, alloc, lts, form, &sets, ranges, gauge)?
    };
    Ok(builder.into_named(Some((states, nodes))))
}
