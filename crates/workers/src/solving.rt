// Solving a game with several workers.

ghost use Rattle.std.specs.Prelude.{◌≡◌, ◌<◌, ◌⊎◌, ℕ, IfOk, length, max};
ghost use Rattle.std.specs.Arc.{arc_value};
ghost use Rattle.std.specs.Fork.{AcceptsEach, ChangesEach};
ghost use Rattle.measures.specs.Progress.{IsLeastTable};
ghost use Rattle.workers.specs.Floor.{IsOneGame};
ghost use Rattle.workers.specs.Jobs.{WasFilled};
ghost use Rattle.workers.specs.Turns.{HasWorked, own_vertices};

use crate::error::SolveError;
use crate::floor::Floor;
use crate::gate::Gate;
use crate::jobs::{Own, WorkerState, states};
use crate::marks::JobMarks;
use crate::rest::Rest;
use crate::watched::Watched;
use crate::worker::work;
use game::graph::Game;
use game::name::GameName;
use game::observer::{Observer, Silent};
use game::predecessors::Predecessors;
use measures::settle::solve_one_from;
use measures::table::{Settled, opening};
use std::alloc::{AllocError, Global};
use std::marker::Brand;
use std::sync::{Arc, Wait};
use std::thread;
use std::thread::Threads;
use tables::board::Board;

// Runs a worker's part for each of these, on a thread each.
#[tactic(auto, using(crate::proofs::Sent::turn_send))]
fn for_each_worker<D: Send, R: Threads + Sync, F: Fn(usize, &mut WorkerState<D>) + Sync>(
    rt: &R,
    states: &mut [WorkerState<D>],
    workers: usize,
    part: &F,
)
    requires workers { 0 < workers }
    requires accepts { AcceptsEach F.Fn part.now states.old }
    ensures { ChangesEach F.Fn part.now states.old states.new }
{
    thread::for_each_mut(rt, states, workers, part);
}

// Runs the workers over the board, and returns when all of them have ended. Where memory is refused none begins.
fn run<
    K: GameName + Send + Sync,
    B: Board + Sync,
    G: Gate,
    O: Observer + Sync,
    R: Threads + Wait + Sync,
>(
    rt: &R,
    alloc: Global,
    game: &Game,
    predecessors: &Predecessors,
    board: &B,
    workers: usize,
    watched: &Watched<'_, G, O>,
) -> Result<(), AllocError>
    requires one { IsOneGame K.game game.now (B.game board.now) predecessors.now }
    requires workers { 0 < workers }
    ensures { IfOk result (λ _. (number : ℕ) → number < workers → (B.is_full board.now ⊎ WasFilled K)
        ⊎ ((first last : B.Seat) × HasWorked K.game (λ v. Unit {0}) (own_vertices (length K.game.vertices) workers number)
        (B.did board.now first last) (λ jobs. Unit {0}))) }
{
    let (mut states, others) = states::<K>(alloc, game, workers)?;
    let pending = JobMarks::new(alloc, game.vertices())?;
    let (others, marks, rest) = (others.as_slice(), &pending, &Rest::new(workers));
    for_each_worker(
        rt,
        states.as_mut_slice(),
        workers,
        &|number: usize, state: &mut WorkerState<Own<K>>|
            requires one { IsOneGame K.game game.now (B.game board.now) predecessors.now }
            requires turn { state.now.turn.game ≡ K.game }
            ensures { (B.is_full board.entry.now ⊎ WasFilled K)
                ⊎ ((first last : B.Seat)
                × HasWorked K.game (λ v. Unit {0}) (own_vertices (length K.game.vertices) (max (length others.entry.now) 1) number)
                (B.did board.entry.now first last) (λ jobs. Unit {0})) }
        {
            let floor = Floor {
                game,
                predecessors,
                board,
                watched,
                others,
                marks,
                rest,
            };
            work(rt, &floor, number, state)
        },
    );
    Ok(())
}

/// The least progress table of a game, after so many workers lifted over a board. Whatever the board, the workers and the gate
/// did, and in whatever order, the end is the same.
///
/// # Errors
/// V1 where memory for the table is refused. Memory, a thread or a seat that a worker doesn't get is no error: what is left is
/// lifted at the end.
pub fn solve<B: Board + Drop + Sync, G: Gate, R: Threads + Wait + Sync>(
    rt: &R,
    alloc: Global,
    game: &Arc<Game, Global>,
    board: B,
    workers: usize,
    gate: &G,
) -> Result<Settled, SolveError>
    requires game { B.game board ≡ arc_value game.now }
    requires workers { 0 < workers }
    ensures game { IfOk result (λ s. s.game ≡ arc_value game.now) }
    ensures least { IfOk result (λ s. IsLeastTable (arc_value game.now) s.values) }
{
    let watched = Watched::new(gate, &Silent, game.vertices());
    solve_watched(rt, alloc, game, board, workers, &watched)
}

/// The least progress table of a game, after so many workers lifted over a board, of whose turns is told.
///
/// # Errors
/// V1 where memory for the table is refused.
pub(crate) fn solve_watched<
    B: Board + Drop + Sync,
    G: Gate,
    O: Observer + Sync,
    R: Threads + Wait + Sync,
>(
    rt: &R,
    alloc: Global,
    game: &Arc<Game, Global>,
    board: B,
    workers: usize,
    watched: &Watched<'_, G, O>,
) -> Result<Settled, SolveError>
    requires game { B.game board ≡ arc_value game.now }
    requires workers { 0 < workers }
    ensures game { IfOk result (λ s. s.game ≡ arc_value game.now) }
    ensures least { IfOk result (λ s. IsLeastTable (arc_value game.now) s.values) }
{
    let mut table = opening(alloc, game)?;
    let predecessors = table.predecessors();
    let _ = run::<Brand, B, G, O, R>(rt, alloc, game, predecessors, &board, workers, watched);
    board.finish(&mut table);
    Ok(solve_one_from(game, table))
}
