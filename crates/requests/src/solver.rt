// Solving a game as the options ask for.

ghost use Rattle.std.specs.Prelude.{◌≡◌, IfErr, IfOk, Some, length};
ghost use Rattle.std.specs.Arc.{arc_value};
ghost use Rattle.calculus.specs.Meaning.{MarksOf};
ghost use Rattle.game.specs.Game.{Game};
ghost use Rattle.game.specs.Wins.{Wins};
ghost use Rattle.workers.specs.Team.{IsTeamRefusal, MayBeRaised};
ghost use Rattle.workers.specs.declared.team.BoardKind.{BoardKind};
ghost use Rattle.requests.specs.Solver.{FitsBoard, IsUnsolved};

use crate::error::MuError;
use crate::request::Options;
use evidence::decide::certified_winners;
use game::graph::Game;
use game::observer::{Observer, Stage};
use measures::settle::even_wins;
use measures::table::Settled;
use std::alloc::{AllocError, Global};
use std::sync::Arc;
use workers::error::TeamError;
use workers::gate::{Gate, NoGate};
use workers::runtime::Runtime;
use workers::team::{Team, solve_by};

// The refusal of a team.
fn refusal(error: TeamError) -> MuError
    ensures { (board : BoardKind) (g : Game) → IsTeamRefusal board g error → IsUnsolved (Some board) g result }
{
    match error {
        TeamError::Board(error) => MuError::Table(error),
        TeamError::Solve(error) => MuError::Solve(error),
    }
}

/// The least progress table of a game, which the workers lift over the board that the options ask for: from the opening table on, or from one with top at
/// each vertex that isn't won, where it is told which are won. The gate is told of each turn, and an observer of what `workers::team::solve_by` tells.
///
/// # Errors
/// T1 where the packed board is asked for and the rank of top doesn't fit a word, and only there; T2 and V1 for memory.
pub fn solve_seen<G: Gate, O: Observer + Sync, R: Runtime>(
    rt: &R,
    alloc: Global,
    game: &Arc<Game, Global>,
    options: &Options,
    gate: &G,
    observer: &O,
    won: Option<&[bool]>,
) -> Result<Settled, MuError>
    requires { MayBeRaised (arc_value game.now) won }
    ensures game { IfOk result (λ s. s.game ≡ arc_value game.now) }
    ensures board { IfOk result (λ _. FitsBoard (Some options.now.board) (arc_value game.now)) }
    ensures refusal { IfErr result (IsUnsolved (Some options.now.board) (arc_value game.now)) }
{
    let team = Team {
        workers: options.workers,
        shards: options.shards,
        board: options.board,
    };
    match solve_by(rt, alloc, game, &team, gate, observer, won) {
        Ok(settled) => Ok(settled),
        Err(error) => Err(refusal(error)),
    }
}

/// A mark for each vertex, true where Even wins it. Over a board that is named workers lift. Else evidence of both players is guessed, and workers lift
/// where none is found that is good.
///
/// # Errors
/// Those of `solve_seen`, and U4.
pub fn winners_by<O: Observer + Sync, R: Runtime>(
    rt: &R,
    alloc: Global,
    game: &Arc<Game, Global>,
    options: &Options,
    observer: &O,
) -> Result<Vec<bool>, MuError>
    ensures exact { IfOk result (λ marks. MarksOf (length (arc_value game.now).vertices) marks.items (Wins (arc_value game.now))) }
    ensures board { IfOk result (λ _. FitsBoard (Some options.now.board) (arc_value game.now)) }
    ensures refusal { IfErr result (IsUnsolved (Some options.now.board) (arc_value game.now)) }
{
    if !options.board.is_named() {
        observer.sees(Stage::Searching {
            vertices: game.vertices(),
        });
        if let Some(marks) = certified_winners(alloc, game, observer.gauge()) {
            return Ok(marks);
        }
    }
    let settled = solve_seen(rt, alloc, game, options, &NoGate, observer, None)?;
    Ok(marks_of(alloc, game, &settled)?)
}

// A mark for each vertex of a solved game, true where Even wins it.
fn marks_of(alloc: Global, game: &Game, settled: &Settled) -> Result<Vec<bool>, AllocError>
    requires { settled.now.game ≡ game.now }
    ensures { IfOk result (λ marks. MarksOf (length game.now.vertices) marks.items (Wins game.now)) }
{
    let vertices = game.vertices();
    let mut marks = Vec::with_capacity(alloc, vertices as usize)?;
    for v in 0..vertices {
        marks.push(even_wins(settled, v))?;
    }
    Ok(marks)
}
