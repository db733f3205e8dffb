// What a check by a game finds out before it writes.

ghost use Rattle.std.specs.Prelude.{◌≡◌, IfOk, IfErr, ℕ, List, Some, None, Option};
ghost use Rattle.std.specs.Arc.{arc_value};
ghost use Rattle.calculus.specs.Closed.{closed_formula};
ghost use Rattle.calculus.specs.Normal.{normal_nodes};
ghost use Rattle.calculus.specs.Rules.{nodes_with};
ghost use Rattle.workers.specs.declared.team.BoardKind.{BoardKind};
ghost use Rattle.requests.specs.Causes.{HaveCauses};
ghost use Rattle.requests.specs.Check.{ByGame, AreSpelled, HasForm, RefusesCheck, IsBeyond};
ghost use Rattle.verdicts.specs.Findings.{AreFindings, ArePosed, formula_found, system_of, way_in};
ghost use Rattle.requests.specs.Solver.{FitsBoard, IsUnsolved};
ghost use Rattle.requests.specs.Writers.{AreKept, Lent};

use crate::lifting::{SolvedGame, Winners, state_marks};
use calculus::form::Normal;
use calculus::priorities::Priorities;
use evidence::decide::certified_winners;
use game::build::build_seen;
use game::graph::Game;
use game::observer::{Observer, Silent, Stage};
use measures::settle::solve_one;
use measures::table::Settled;
use normal::make::normal_with;
use requests::error::MuError;
use requests::request::Options;
use requests::solver::solve_seen;
use requests::texts::{Texts, read_both};
use requests::watch::Watcher;
use std::alloc::Global;
use std::hash::BuildHasher;
use std::sync::Arc;
use std::thread::Threads;
use text::Memory;
use text::source::Source;
use workers::gate::{Gate, NoGate};
use workers::runtime::Runtime;
use workers::team::BoardKind;

/// What a check by a game finds out, with all that its texts need but evidence.
#[derive(Drop)]
pub struct Findings {
    pub texts: Box<Texts>,
    pub solution: SolvedGame,
    pub marks: Vec<bool>,
}

/// Both texts, the formula's normal form, and their game, which is to be solved.
#[derive(Drop)]
pub struct GameToSolve {
    pub texts: Box<Texts>,
    pub priorities: Priorities,
    pub form: Normal,
    pub game: Arc<Game, Global>,
}

/// Reads both texts, and finds out on one thread which states satisfy the formula.
///
/// # Errors
/// Those of the readers, of the normal form and of the game, unchanged; U3 where a read of the formula failed, U4 for memory
/// in the engine.
pub fn find_alone<L: BuildHasher + Drop, R: Source + Drop, S: Source + Drop, H: Threads + Sync>(
    rt: &H,
    alloc: Global,
    hasher: L,
    aut: R,
    formula: S,
    priorities: Priorities,
) -> Result<Findings, MuError>
    ensures found { IfOk result AreFindings }
    ensures way { IfOk result (λ found. way_in found ≡ ByGame priorities None) }
    ensures spelled { (first second : List ℕ) → R.remaining aut ≡ Some first → S.remaining formula ≡ Some second
        → IfOk result (λ found. AreSpelled first second (system_of found) (formula_found found)) }

    ensures refusal { (first second : List ℕ) → R.remaining aut ≡ Some first → S.remaining formula ≡ Some second
        → (writers : List Lent) → AreKept writers → IfErr result (RefusesCheck (ByGame priorities None) first second writers) }
    ensures cause { IfErr result (HaveCauses R.can_fail S.can_fail) }
{
    let posed = read_and_build(rt, alloc, hasher, aut, formula, priorities)?;
    find_by_one(alloc, posed)
}

/// Reads both texts, and finds out by the workers, over the board that the options ask for, which states satisfy the formula. They lift from the
/// opening table on, without the help of a guess, and the gate is told of each turn of several workers.
///
/// # Errors
/// Those of `find_alone`, and those of the board and of the workers' table: T1 where the packed board can't be had, and only there.
pub fn find_with<L: BuildHasher + Drop, R: Source + Drop, S: Source + Drop, T: Gate, H: Runtime>(
    rt: &H,
    alloc: Global,
    hasher: L,
    aut: R,
    formula: S,
    options: &Options,
    gate: &T,
) -> Result<Findings, MuError>
    ensures found { IfOk result AreFindings }
    ensures way { IfOk result (λ found. way_in found ≡ ByGame options.now.priorities (Some options.now.board)) }
    ensures spelled { (first second : List ℕ) → R.remaining aut ≡ Some first → S.remaining formula ≡ Some second
        → IfOk result (λ found. AreSpelled first second (system_of found) (formula_found found)) }

    ensures refusal { (first second : List ℕ) → R.remaining aut ≡ Some first → S.remaining formula ≡ Some second
        → (writers : List Lent) → AreKept writers → IfErr result (RefusesCheck (ByGame options.now.priorities (Some options.now.board)) first second writers) }
    ensures cause { IfErr result (HaveCauses R.can_fail S.can_fail) }
{
    let posed = read_and_build(rt, alloc, hasher, aut, formula, options.priorities)?;
    find_by_workers(rt, alloc, posed, options, gate)
}

/// The value in a box.
pub fn boxed<T: Drop>(alloc: Global, value: T) -> Result<Box<T>, Memory>
    ensures { IfOk result (λ held. held.value ≡ value) }
{
    Ok(Box::new(alloc, value)?)
}

/// What is found out of these texts by solving their game, over the board that the options ask for. An observer is told what is being built and lifted.
///
/// # Errors
/// Those of the normal form, of the game, of the board and of the workers' table; U4.
pub fn find_by_game<O: Watcher, H: Runtime>(
    rt: &H,
    alloc: Global,
    texts: Box<Texts>,
    options: &Options,
    observer: &O,
) -> Result<Findings, MuError>
    ensures found { IfOk result AreFindings }
    ensures way { IfOk result (λ found. way_in found ≡ ByGame options.now.priorities (Some options.now.board)) }
    ensures texts { IfOk result (λ found. found.texts.value ≡ texts.value) }
    ensures refusal { IfErr result (IsBeyond (ByGame options.now.priorities (Some options.now.board)) texts.value.system.system
        (closed_formula texts.value.formula)) }
{
    let posed = build_of(rt, alloc, texts, options.priorities, observer)?;
    find_posed(rt, alloc, posed, options, observer)
}

/// Reads both texts, and makes their game.
fn read_and_build<L: BuildHasher + Drop, R: Source + Drop, S: Source + Drop, H: Threads + Sync>(
    rt: &H,
    alloc: Global,
    hasher: L,
    aut: R,
    formula: S,
    priorities: Priorities,
) -> Result<GameToSolve, MuError>
    ensures posed { IfOk result ArePosed }
    ensures rule { IfOk result (λ posed. posed.priorities ≡ priorities) }
    ensures spelled { (first second : List ℕ) → R.remaining aut ≡ Some first → S.remaining formula ≡ Some second
        → IfOk result (λ posed. AreSpelled first second posed.texts.value.system.system (closed_formula posed.texts.value.formula)) }

    ensures refusal { (first second : List ℕ) → R.remaining aut ≡ Some first → S.remaining formula ≡ Some second
        → (board : Option BoardKind) (writers : List Lent) → AreKept writers → IfErr result (RefusesCheck (ByGame priorities board) first second writers) }
    ensures cause { IfErr result (HaveCauses R.can_fail S.can_fail) }
{
    let texts = read_both(alloc, hasher, aut, formula)?;
    let boxed = boxed(alloc, texts)?;
    build_of(rt, alloc, boxed, priorities, &Silent)
}

/// Makes the normal form of these texts, and their game.
fn build_of<O: Observer, H: Threads + Sync>(
    rt: &H,
    alloc: Global,
    texts: Box<Texts>,
    priorities: Priorities,
    observer: &O,
) -> Result<GameToSolve, MuError>
    ensures posed { IfOk result ArePosed }
    ensures rule { IfOk result (λ posed. posed.priorities ≡ priorities) }
    ensures texts { IfOk result (λ posed. posed.texts.value ≡ texts.value) }
    ensures refusal { IfErr result (IsBeyond (ByGame priorities None) texts.value.system.system (closed_formula texts.value.formula)) }
{
    let form = normal_with(alloc, &texts.formula, priorities).map_err(MuError::Normal)?;
    build_with(rt, alloc, texts, priorities, form, observer)
}

/// Makes the game of these texts with their normal form.
///
/// # Errors
/// Those of the game; U4.
pub fn build_with<O: Observer, H: Threads + Sync>(
    rt: &H,
    alloc: Global,
    texts: Box<Texts>,
    priorities: Priorities,
    form: Normal,
    observer: &O,
) -> Result<GameToSolve, MuError>
    requires nodes { normal_nodes form ≡ nodes_with priorities (closed_formula texts.value.formula) }
    requires form { HasForm priorities (closed_formula texts.value.formula) }

    ensures posed { IfOk result ArePosed }
    ensures rule { IfOk result (λ posed. posed.priorities ≡ priorities) }
    ensures texts { IfOk result (λ posed. posed.texts.value ≡ texts.value) }

    ensures refusal { IfErr result (IsBeyond (ByGame priorities None) texts.value.system.system (closed_formula texts.value.formula)) }
{
    observer.sees(Stage::Building {
        states: texts.system.states(),
    });
    let game = build_seen(rt, alloc, &texts.system, &form, observer.gauge()).map_err(
        MuError::Build,
    )?;
    let game = Arc::new(alloc, game)?;
    Ok(GameToSolve {
        texts,
        priorities,
        form,
        game,
    })
}

/// What is found out of these texts on one thread.
fn find_by_one(alloc: Global, posed: GameToSolve) -> Result<Findings, MuError>
    requires { ArePosed posed }

    ensures found { IfOk result AreFindings }
    ensures way { IfOk result (λ found. way_in found ≡ ByGame posed.priorities None) }
    ensures texts { IfOk result (λ found. found.texts.value ≡ posed.texts.value) }

    ensures refusal { IfErr result (λ e. e ≡ MuError.Memory) }
{
    let settled = solve_one(alloc, &posed.game)?;
    find_solved(alloc, posed, None, settled)
}

/// What is found out of these texts by workers, who lift from the opening table on.
fn find_by_workers<T: Gate, H: Runtime>(
    rt: &H,
    alloc: Global,
    posed: GameToSolve,
    options: &Options,
    gate: &T,
) -> Result<Findings, MuError>
    requires { ArePosed posed }

    ensures found { IfOk result AreFindings }
    ensures way { IfOk result (λ found. way_in found ≡ ByGame posed.priorities (Some options.now.board)) }
    ensures texts { IfOk result (λ found. found.texts.value ≡ posed.texts.value) }

    ensures refusal { IfErr result (IsUnsolved (Some options.now.board) (arc_value posed.game)) }
{
    let settled = solve_seen(rt, alloc, &posed.game, options, gate, &Silent, None)?;
    find_solved(alloc, posed, Some(options.board), settled)
}

/// What is found out of these texts, over the board that the options ask for.
fn find_posed<O: Observer + Sync, H: Runtime>(
    rt: &H,
    alloc: Global,
    posed: GameToSolve,
    options: &Options,
    observer: &O,
) -> Result<Findings, MuError>
    requires { ArePosed posed }

    ensures found { IfOk result AreFindings }
    ensures way { IfOk result (λ found. way_in found ≡ ByGame posed.priorities (Some options.now.board)) }
    ensures texts { IfOk result (λ found. found.texts.value ≡ posed.texts.value) }

    ensures refusal { IfErr result (IsUnsolved (Some options.now.board) (arc_value posed.game)) }
{
    let settled = settle_posed(rt, alloc, &posed, options, observer)?;
    find_solved(alloc, posed, Some(options.board), settled)
}

/// The least progress table. Over a board that is named workers lift it from the opening table on, and else from a table that has top where certified evidence
/// says that Odd wins.
fn settle_posed<O: Observer + Sync, H: Runtime>(
    rt: &H,
    alloc: Global,
    posed: &GameToSolve,
    options: &Options,
    observer: &O,
) -> Result<Settled, MuError>
    ensures game { IfOk result (λ s. s.game ≡ arc_value posed.now.game) }
    ensures board { IfOk result (λ _. FitsBoard (Some options.now.board) (arc_value posed.now.game)) }
    ensures refusal { IfErr result (IsUnsolved (Some options.now.board) (arc_value posed.now.game)) }
{
    let game = &posed.game;
    if options.board.is_named() {
        return solve_seen(rt, alloc, game, options, &NoGate, observer, None);
    }
    let won = certified_winners(alloc, game, observer.gauge());
    solve_seen(rt, alloc, game, options, &NoGate, observer, won.as_deref())
}

/// What is found out where the game is solved.
fn find_solved(
    alloc: Global,
    posed: GameToSolve,
    board: Option<BoardKind>,
    settled: Settled,
) -> Result<Findings, MuError>
    requires posed { ArePosed posed }
    requires board { FitsBoard board (arc_value posed.game) }
    requires settled { settled.game ≡ arc_value posed.game }

    ensures found { IfOk result AreFindings }
    ensures way { IfOk result (λ found. way_in found ≡ ByGame posed.priorities board) }
    ensures texts { IfOk result (λ found. found.texts.value ≡ posed.texts.value) }
    ensures game { IfOk result (λ found. arc_value found.solution.game ≡ arc_value posed.game) }

    ensures refusal { IfErr result (λ e. e ≡ MuError.Memory) }
{
    let GameToSolve {
        texts,
        priorities,
        form,
        game,
    } = posed;
    let Texts { system, formula } = &*texts;
    let winners = Winners::Table(&settled);
    let marks = state_marks(alloc, system, formula, priorities, &game, winners)?;
    Ok(Findings {
        texts,
        solution: SolvedGame {
            priorities,
            board,
            form,
            game,
            settled,
        },
        marks,
    })
}
