// The states of a system that satisfy a formula, of texts that are lent.

ghost use Rattle.std.specs.Prelude.{IfSome, MatchResult, Some};
ghost use Rattle.std.specs.Arc.{arc_value};
ghost use Rattle.calculus.specs.Closed.{closed_formula};
ghost use Rattle.requests.specs.Check.{AreMarks, BySets, ByGame, IsArenaOf, IsBeyond};
ghost use Rattle.verdicts.specs.Findings.{IsMarkedGame};

use crate::lifting::{Winners, state_marks};
use crate::ranked::ranked_marks;
use calculus::closed::Closed;
use game::graph::Game;
use game::observer::{Observer, Stage};
use lts::system::Lts;
use meaning::plain::plain_states;
use requests::arena::arena_of;
use requests::error::MuError;
use requests::request::Options;
use requests::solver::winners_by;
use std::alloc::Global;
use std::sync::Arc;
use workers::runtime::Runtime;

/// A mark for each state, true where it satisfies the formula, by sets of states.
///
/// # Errors
/// U4.
pub fn plain_marks(alloc: Global, system: &Lts, formula: &Closed) -> Result<Vec<bool>, MuError>
    ensures { let l = system.now.system in let f = closed_formula formula.now in
        MatchResult result (λ marks. AreMarks BySets l f marks.items) (IsBeyond BySets l f) }
{
    Ok(plain_states(alloc, system, formula)?)
}

/// A mark for each state, true where it satisfies the formula, by the game: by a ranking of it, where one that is guessed is good, and then it isn't stored.
///
/// # Errors
/// Those of the normal form, of the game, of its board and of its workers, unchanged; U4.
pub fn game_marks<O: Observer + Sync, H: Runtime>(
    rt: &H,
    alloc: Global,
    system: &Lts,
    formula: &Closed,
    options: &Options,
    observer: &O,
) -> Result<Vec<bool>, MuError>
    ensures { let l = system.now.system in let f = closed_formula formula.now in let way = ByGame options.now.priorities (Some options.now.board) in
        MatchResult result (λ marks. AreMarks way l f marks.items) (IsBeyond way l f) }
{
    match ranked_marks(rt, alloc, system, formula, options, observer) {
        Some(marks) => Ok(marks),
        None => Ok(marked_game(rt, alloc, system, formula, None, options, observer)?.marks),
    }
}

/// The game of a system and a formula, and a mark for each state, true where it satisfies the formula.
#[derive(Drop)]
pub struct MarkedGame {
    pub game: Arc<Game, Global>,
    pub marks: Vec<bool>,
}

/// The game, which is stored, with these marks, or with those that are found in it.
///
/// # Errors
/// Those of `game_marks`.
pub fn marked_game<O: Observer + Sync, H: Runtime>(
    rt: &H,
    alloc: Global,
    system: &Lts,
    formula: &Closed,
    marks: Option<Vec<bool>>,
    options: &Options,
    observer: &O,
) -> Result<MarkedGame, MuError>
    requires { let l = system.now.system in let f = closed_formula formula.now in
        IfSome marks (λ marks. AreMarks (ByGame options.now.priorities (Some options.now.board)) l f marks.items) }
    ensures { let l = system.now.system in let f = closed_formula formula.now in let way = ByGame options.now.priorities (Some options.now.board) in
        MatchResult result (IsMarkedGame options.now.priorities options.now.board l f) (IsBeyond way l f) }
{
    observer.sees(Stage::Building {
        states: system.states(),
    });
    let game = arena_of(
        rt,
        alloc,
        system,
        formula,
        options.priorities,
        observer.gauge(),
    )?;
    let game = Arc::new(alloc, game)?;
    let marks = match marks {
        Some(marks) => marks,
        None => marks_in(rt, alloc, system, formula, &game, options, observer)?,
    };
    Ok(MarkedGame { game, marks })
}

/// A mark for each state, true where it satisfies the formula, in the game of both.
fn marks_in<O: Observer + Sync, H: Runtime>(
    rt: &H,
    alloc: Global,
    system: &Lts,
    formula: &Closed,
    game: &Arc<Game, Global>,
    options: &Options,
    observer: &O,
) -> Result<Vec<bool>, MuError>
    requires { IsArenaOf options.now.priorities system.now.system (closed_formula formula.now) (arc_value game.now) }
    ensures { let l = system.now.system in let f = closed_formula formula.now in let way = ByGame options.now.priorities (Some options.now.board) in
        MatchResult result (λ marks. AreMarks way l f marks.items) (IsBeyond way l f) }
{
    let won = winners_by(rt, alloc, game, options, observer)?;
    let winners = Winners::Marks(&won);
    state_marks(alloc, system, formula, options.priorities, game, winners)
}
