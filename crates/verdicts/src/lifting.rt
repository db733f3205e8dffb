// The states that satisfy a formula, by lifting the progress measures of its parity game.

ghost use Rattle.std.specs.Prelude.{◌≡◌, ◌<◌, ◌↔◌, IfOk, IfErr, IsTrue, Option, length};
ghost use Rattle.std.specs.Arc.{arc_value};
ghost use Rattle.calculus.specs.Closed.{closed_formula};
ghost use Rattle.calculus.specs.Meaning.{MarksOf};
ghost use Rattle.game.specs.Game.{Game};
ghost use Rattle.game.specs.Wins.{Wins};
ghost use Rattle.requests.specs.Check.{ByGame, AreMarks, IsArenaOf};
ghost use Rattle.requests.specs.Roots.{HasRoots, WinsRoot};
ghost use Rattle.requests.specs.Solver.{FitsBoard};
ghost use Rattle.workers.specs.declared.team.BoardKind.{BoardKind};
ghost use Rattle.verdicts.specs.Findings.{AreWinnersOf};

use calculus::closed::Closed;
use calculus::form::Normal;
use calculus::priorities::Priorities;
use game::graph::Game;
use laws::{chosen_is_admissible, even_wins_where_meant};
use lts::system::Lts;
use measures::settle::even_wins;
use measures::table::Settled;
use requests::error::MuError;
use std::alloc::{AllocError, Global};
use std::sync::Arc;
use workers::team::BoardKind;

/// The game of a normal form and its least progress table, with the rule by which it was made and the board that was asked for, if one was.
#[derive(Drop)]
pub struct SolvedGame {
    pub priorities: Priorities,
    pub board: Option<BoardKind>,
    pub form: Normal,
    pub game: Arc<Game, Global>,
    pub settled: Settled,
}

/// Who wins the vertices of a game.
#[derive(Clone, Copy)]
pub enum Winners<'a> {
    /// By its least progress table.
    Table(&'a Settled),
    /// By a mark for each vertex, true where Even wins it.
    Marks(&'a [bool]),
}

/// Whether Even wins a vertex.
fn even_wins_by(winners: Winners<'_>, game: &Game, v: u32) -> bool
    requires winners { AreWinnersOf game.now winners }
    requires vertex { v < length game.now.vertices }
    ensures { IsTrue result ↔ Wins game.now v }
{
    match winners {
        Winners::Table(settled) => even_wins(settled, v),
        Winners::Marks(marks) => marks[v as usize],
    }
}

/// A mark for each state, true where it satisfies the formula: where Even wins its vertex with the root node.
///
/// # Errors
/// U4.
pub fn state_marks(
    alloc: Global,
    system: &Lts,
    formula: &Closed,
    priorities: Priorities,
    game: &Arc<Game, Global>,
    winners: Winners<'_>,
) -> Result<Vec<bool>, MuError>
    requires arena { IsArenaOf priorities system.now.system (closed_formula formula.now) (arc_value game.now) }
    requires winners { AreWinnersOf (arc_value game.now) winners }
    ensures marks { IfOk result (λ marks. (board : Option BoardKind) → FitsBoard board (arc_value game.now)
        → AreMarks (ByGame priorities board) system.now.system (closed_formula formula.now) marks.items) }
    ensures refusal { IfErr result (λ e. e ≡ MuError.Memory) }
{
    chosen_is_admissible();
    even_wins_where_meant();
    let states = system.states();
    Ok(root_marks(alloc, states, game, winners)?)
}

/// A mark for each state, true where Even wins its vertex with the root node.
fn root_marks(
    alloc: Global,
    states: u32,
    game: &Game,
    winners: Winners<'_>,
) -> Result<Vec<bool>, AllocError>
    requires winners { AreWinnersOf game.now winners }
    requires named { HasRoots states game.now }
    ensures { IfOk result (λ marks. MarksOf states marks.items (WinsRoot game.now)) }
{
    game.known();
    let mut marks = Vec::with_capacity(alloc, states as usize)?;
    for state in 0..states {
        marks.push(even_wins_by(winners, game, game.vertex_of(state, 0)))?;
    }
    Ok(marks)
}
