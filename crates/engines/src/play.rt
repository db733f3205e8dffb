// The play from the initial state on, by evidence of the winner: of a path into a loop, where one is found, and else of all that the winner wins.

ghost use Rattle.std.specs.Prelude.{◌≡◌, ◌<◌, IfOk, IfErr, IfSome, Some, false, length, slice_index_or};
ghost use Rattle.std.specs.Arc.{arc_value};
ghost use Rattle.calculus.specs.Closed.{closed_formula};
ghost use Rattle.calculus.specs.Normal.{normal_nodes};
ghost use Rattle.calculus.specs.declared.priorities.Priorities.{Priorities};
ghost use Rattle.game.specs.Arena.{arena};
ghost use Rattle.requests.specs.Check.{ByGame};
ghost use Rattle.workers.specs.declared.team.BoardKind.{BoardKind};
ghost use Rattle.verdicts.specs.Findings.{AreFindings, ArePosed, IsRankedFound, way_in};
ghost use Rattle.engines.specs.Play.{HasNoPlay, IsPlay, IsPlayFound, IsUnshown, system_played};
ghost use Rattle.engines.specs.Prepared.{IsWinning};

use crate::prepared::winning_evidence;
use calculus::form::Normal;
use evidence::error::EvidenceError;
use evidence::evidence::Evidence;
use game::graph::Game;
use game::observer::{Observer, Stage};
use lassos::making::one_way_evidence;
use lts::{Lts, Memory};
use rankings::sheet::Sheet;
use requests::error::MuError;
use requests::request::Options;
use requests::texts::Texts;
use requests::watch::Watcher;
use std::alloc::Global;
use std::sync::Arc;
use verdicts::evidence_text::LeastMeasures;
use verdicts::findings::{Findings, GameToSolve, boxed, build_with, find_by_game};
use verdicts::lifting::SolvedGame;
use verdicts::proposing::least_of;
use verdicts::ranked::RankedFound;
use witness::part::{has_root, root_vertex};
use workers::runtime::Runtime;

/// Both texts, the formula's normal form and the game of both, evidence of who wins the initial state's vertex with the root, and a mark for each state, true
/// where it satisfies the formula.
#[derive(Drop)]
pub struct PlayFound {
    pub texts: Box<Texts>,
    pub form: Normal,
    pub game: Arc<Game, Global>,
    pub evidence: Evidence,
    pub marks: Vec<bool>,
}

/// Finds the play: by who wins each vertex in a ranking, where there is one, and else by solving the game.
///
/// # Errors
/// Those of the normal form, of the game, of the board and of the workers' table; E5, U4.
pub(crate) fn play_by<U: Watcher, H: Runtime>(
    rt: &H,
    alloc: Global,
    texts: Texts,
    ranked: Option<RankedFound>,
    options: &Options,
    watcher: &U,
) -> Result<PlayFound, MuError>
    requires { IfSome ranked (IsRankedFound options.now.priorities options.now.board texts.system.system (closed_formula texts.formula)) }
    ensures play { IfOk result (IsPlayFound options.now.priorities options.now.board) }
    ensures texts { IfOk result (λ found. found.texts.value ≡ texts) }
    ensures refusal { IfErr result (HasNoPlay options.now.priorities options.now.board texts.system.system (closed_formula texts.formula)) }
{
    let texts = boxed(alloc, texts)?;
    match ranked {
        Some(ranked) => play_by_ranking(rt, alloc, texts, ranked, options, watcher),
        None => play_by_game(rt, alloc, texts, options, watcher),
    }
}

/// The play by solving the game.
fn play_by_game<U: Watcher, H: Runtime>(
    rt: &H,
    alloc: Global,
    texts: Box<Texts>,
    options: &Options,
    watcher: &U,
) -> Result<PlayFound, MuError>
    ensures play { IfOk result (IsPlayFound options.now.priorities options.now.board) }
    ensures texts { IfOk result (λ found. found.texts.value ≡ texts.value) }
    ensures refusal { IfErr result (HasNoPlay options.now.priorities options.now.board texts.value.system.system (closed_formula texts.value.formula)) }
{
    let found = find_by_game(rt, alloc, texts, options, watcher)?;
    watcher.sees(Stage::MakingEvidence {
        vertices: found.solution.game.vertices(),
    });
    let evidence = winning_evidence(alloc, &found)?;
    Ok(play_in(found, evidence))
}

/// The play by who wins each vertex in a ranking.
fn play_by_ranking<U: Watcher, H: Runtime>(
    rt: &H,
    alloc: Global,
    texts: Box<Texts>,
    ranked: RankedFound,
    options: &Options,
    watcher: &U,
) -> Result<PlayFound, MuError>
    requires { IsRankedFound options.now.priorities options.now.board texts.value.system.system (closed_formula texts.value.formula) ranked }
    ensures play { IfOk result (IsPlayFound options.now.priorities options.now.board) }
    ensures texts { IfOk result (λ found. found.texts.value ≡ texts.value) }
    ensures refusal { IfErr result (HasNoPlay options.now.priorities options.now.board texts.value.system.system (closed_formula texts.value.formula)) }
{
    let RankedFound { form, sheet, marks } = ranked;
    let posed = build_with(rt, alloc, texts, options.priorities, form, watcher)?;
    watcher.sees(Stage::MakingEvidence {
        vertices: posed.game.vertices(),
    });
    let evidence = ranked_evidence(alloc, &posed, &sheet)?;
    let GameToSolve {
        texts,
        form,
        game,
        ..
    } = posed;
    match evidence {
        Some(evidence) => Ok(PlayFound {
            texts,
            form,
            game,
            evidence,
            marks,
        }),
        None => play_by_game(rt, alloc, texts, options, watcher),
    }
}

/// Evidence of the winner, where a ranking says who wins each vertex: of a play that goes one way from each vertex, where one is found, and else by the least
/// measures, where these are.
fn ranked_evidence(
    alloc: Global,
    posed: &GameToSolve,
    sheet: &Sheet,
) -> Result<Option<Evidence>, MuError>
    requires { ArePosed posed.now }
    ensures play { IfOk result (λ found. IfSome found (IsPlay posed.now.texts.value.system.system (normal_nodes posed.now.form) (arc_value posed.now.game))) }
    ensures refusal { IfErr result IsUnshown }
{
    let GameToSolve {
        texts,
        form,
        game,
        ..
    } = posed;
    let (system, game): (&Lts, &Game) = (&texts.system, game);
    let even_wins = sheet.even_wins(alloc, system.states())?;
    match lasso(alloc, system, form, game, &even_wins)? {
        Some(evidence) => Ok(Some(evidence)),
        None => Ok(least_evidence(alloc, system, form, game).map_err(MuError::Evidence)?),
    }
}

/// Evidence of the winner by the least measures, where these are found.
fn least_evidence(
    alloc: Global,
    system: &Lts,
    form: &Normal,
    game: &Game,
) -> Result<Option<Evidence>, EvidenceError>
    requires { game.now ≡ arena system.now.system (normal_nodes form.now) }
    ensures play { IfOk result (λ found. IfSome found (IsPlay system.now.system (normal_nodes form.now) game.now)) }
    ensures memory { IfErr result (λ e. e ≡ EvidenceError.Memory) }
{
    let Some((proposals, moves)) = least_of(alloc, system, form) else {
        return Ok(None);
    };
    form.known();
    game.known();
    let least = LeastMeasures {
        proposals: &proposals,
        moves: &moves,
        player: proposals.winner(root_vertex(system, form, game)),
    };
    let evidence = least.evidence(alloc, game)?;
    evidence.known();
    Ok(has_root(system, form, game, &evidence).then_some(evidence))
}

/// Evidence of a play that goes one way from each vertex, where one is found by a guess of who wins each vertex.
pub(crate) fn lasso(
    alloc: Global,
    system: &Lts,
    form: &Normal,
    game: &Game,
    even_wins: &[bool],
) -> Result<Option<Evidence>, Memory>
    requires { game.now ≡ arena system.now.system (normal_nodes form.now) }
    ensures { IfOk result (λ found. IfSome found (IsPlay system.now.system (normal_nodes form.now) game.now)) }
{
    match one_way_evidence(alloc, system, form, game, even_wins)? {
        Some(evidence) => {
            evidence.known();
            Ok(Some(evidence))
        }
        None => Ok(None),
    }
}

/// The play by evidence in a game that is solved.
fn play_in(found: Findings, evidence: Evidence) -> PlayFound
    requires found { AreFindings found }
    requires winning { IsWinning found evidence }
    ensures play { (rule : Priorities) (board : BoardKind) → way_in found ≡ ByGame rule (Some board) → IsPlayFound rule board result }
    ensures texts { result.texts.value ≡ found.texts.value }
{
    let Findings {
        texts,
        solution,
        marks,
        ..
    } = found;
    let SolvedGame { form, game, .. } = solution;
    PlayFound {
        texts,
        form,
        game,
        evidence,
        marks,
    }
}

/// Whether the initial state satisfies the formula.
pub(crate) fn initial_answer(found: &PlayFound) -> bool
    requires { length found.now.marks.items ≡ (system_played found.now).states }
    ensures inside { (system_played found.now).initial < (system_played found.now).states }
    ensures mark { result ≡ slice_index_or found.now.marks.items (system_played found.now).initial false }
{
    found.marks[found.texts.system.initial() as usize]
}
