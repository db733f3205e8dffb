// How large the game of a system and a normal form is, which need not be stored.

ghost use Rattle.std.specs.Prelude.{◌<◌};

use calculus::form::Normal;
use calculus::label_sets::label_sets;
use calculus::node::Kind;
use lts::system::Lts;
use std::alloc::{AllocError, Global};

/// Both sinks, each of which leads to itself.
const SINKS: u64 = 2;

/// How many vertices a game has, and how many edges.
#[derive(Clone, Copy)]
pub(crate) struct Size {
    pub vertices: u64,
    pub edges: u64,
}

impl Size {
    /// The size of a game: the sinks, and a vertex for each state with each node.
    ///
    /// # Errors
    /// Out of memory.
    pub(crate) fn of(alloc: Global, system: &Lts, normal: &Normal) -> Result<Size, AllocError> {
        let states = u64::from(system.states());
        let sets = label_sets(alloc, system, normal)?;
        let mut edges = SINKS;
        for (node, set) in normal.nodes().iter().zip(&sets) {
            let more = match node.kind {
                Kind::And(_, _) | Kind::Or(_, _) => states.saturating_mul(2),
                Kind::Dia(_, _) | Kind::Box(_, _) => edges_by(alloc, system, set)?,
                _ => states,
            };
            edges = edges.saturating_add(more);
        }
        let pairs = states.saturating_mul(u64::from(normal.count()));
        Ok(Size {
            vertices: pairs.saturating_add(SINKS),
            edges,
        })
    }
}

// The edges of a modality at all states, by the labels of its steps: one for each state that a step leads to, or else one to a sink.
fn edges_by(alloc: Global, system: &Lts, set: &[bool]) -> Result<u64, AllocError> {
    let mut targets = Vec::new(alloc);
    let mut edges = 0u64;
    for state in 0..system.states() {
        gather(system, state, set, &mut targets)?;
        edges = edges.saturating_add(targets.len().max(1) as u64);
    }
    Ok(edges)
}

// The states that a step by one of the labels leads to, each once.
fn gather(system: &Lts, state: u32, set: &[bool], targets: &mut Vec<u32>) -> Result<(), AllocError>
    requires { state < system.now.system.states }
{
    targets.clear();
    for step in system.from(state) {
        if set.get(step.label as usize) == Some(&true) {
            targets.push(step.target)?;
        }
    }
    targets.sort_unstable();
    targets.dedup();
    Ok(())
}
