// What a check makes of its findings before it begins to write.

ghost use Rattle.std.specs.Prelude.{◌≡◌, ◌<◌, IfOk, IfErr, IfSome, IsTrue, option_map, slice_index_or, false};
ghost use Rattle.std.specs.Arc.{arc_value};
ghost use Rattle.std.specs.Option.{is_some};
ghost use Rattle.engines.specs.declared.prepared.WitnessText.{WitnessText};
ghost use Rattle.calculus.specs.Closed.{closed_formula};
ghost use Rattle.calculus.specs.Normal.{normal_nodes};
ghost use Rattle.calculus.specs.Rules.{nodes_with};
ghost use Rattle.calculus.specs.declared.priorities.Priorities.{Priorities};
ghost use Rattle.engines.specs.Play.{IsPlay, IsUnshown};
ghost use Rattle.engines.specs.Prepared.{AreBoth, ArePrepared, AreShown, IsUnprepared, IsWinning, Outcome, is_made, outcome_of};
ghost use Rattle.verdicts.specs.Findings.{AreFindings, IsLeastFound, system_of};
ghost use Rattle.workers.specs.declared.team.BoardKind.{BoardKind};

use crate::play::lasso;
use calculus::form::Normal;
use evidence::error::EvidenceError;
use evidence::evidence::Evidence;
use evidence::make::{even_evidence, odd_evidence_from};
use evidence::pair::EvidencePair;
use game::graph::Game;
use laws::chosen_is_admissible;
use laws::games::one_wins;
use lts::{Memory, Transition};
use measures::table::Settled;
use requests::error::MuError;
use requests::request::{Wanted, WitnessForm};
use requests::texts::Texts;
use std::alloc::{AllocError, Global};
use verdicts::findings::Findings;
use verdicts::lifting::SolvedGame;
use verdicts::pairs::evidence_pair;
use verdicts::proposing::LeastFound;
use witness::part::witness;

/// A witness, and the form in which it is written.
#[derive(Drop)]
pub struct WitnessText {
    pub form: WitnessForm,
    pub part: Vec<Transition>,
}

/// The evidence of both players.
#[derive(Drop)]
pub enum BothEvidence<'a> {
    /// None is wanted.
    Neither,
    /// That of a game that is stored.
    Made(EvidencePair),
    /// What it is written from where no game is stored.
    Least(&'a LeastFound),
}

/// Which texts are wanted, and what is written before the report.
#[derive(Drop)]
pub struct Prepared<'a> {
    pub wanted: Wanted,
    pub game: Option<&'a Game>,
    pub evidence: BothEvidence<'a>,
    pub shown: Option<WitnessText>,
}

/// Makes what is wanted before the report of a game that is solved.
///
/// # Errors
/// E5, and U4 for a witness, where memory runs out.
pub(crate) fn prepare<'a>(
    alloc: Global,
    found: &'a Findings,
    wanted: Wanted,
) -> Result<Prepared<'a>, MuError>
    requires { AreFindings found.now }
    ensures prepared { IfOk result (ArePrepared (outcome_of found.now)) }
    ensures wanted { IfOk result (λ prepared. prepared.wanted ≡ wanted) }
    ensures refusal { IfErr result (IsUnprepared wanted) }
{
    let evidence = pair_where(alloc, found, wanted.evidence)?;
    let shown = shown_where(alloc, found, wanted.witness)?;
    Ok(Prepared {
        wanted,
        game: game_where(&found.solution.game, wanted.game),
        evidence,
        shown,
    })
}

/// The game, if it is wanted.
pub(crate) fn game_where(game: &Game, wanted: bool) -> Option<&Game>
    ensures wanted { is_some result ≡ wanted }
    ensures game { IfSome result (λ g. g.now ≡ game.now) }
{
    if wanted { Some(game) } else { None }
}

/// What evidence is written from, if the least measures are found.
pub(crate) fn by_least(least: Option<&LeastFound>) -> BothEvidence<'_>
    ensures made { is_made result ≡ is_some least.entry }
    ensures both { (x : Outcome) (board : BoardKind)
        → IfSome least.entry (λ found. IsLeastFound x.rule board x.texts.system.system (closed_formula x.texts.formula) found.now) → AreBoth x result }
{
    match least {
        Some(found) => BothEvidence::Least(found),
        None => BothEvidence::Neither,
    }
}

/// The evidence of both players, if it is wanted.
fn pair_where<'a>(
    alloc: Global,
    found: &Findings,
    wanted: bool,
) -> Result<BothEvidence<'a>, MuError>
    requires { AreFindings found.now }
    ensures both { IfOk result (AreBoth (outcome_of found.now)) }
    ensures made { IfOk result (λ evidence. is_made evidence ≡ wanted) }
    ensures refusal { IfErr result (λ e. IsTrue wanted × (e ≡ MuError.Evidence EvidenceError.Memory)) }
{
    if !wanted {
        return Ok(BothEvidence::Neither);
    }
    Ok(BothEvidence::Made(evidence_pair(alloc, found)?))
}

/// A witness, if it is wanted.
fn shown_where(
    alloc: Global,
    found: &Findings,
    form: Option<WitnessForm>,
) -> Result<Option<WitnessText>, MuError>
    requires { AreFindings found.now }
    ensures shown { IfOk result (λ shown. IfSome shown (λ x. AreShown found.now.solution.priorities found.now.texts.value x.part.items)) }
    ensures form { IfOk result (λ shown. option_map (λ (x : WitnessText). x.form) shown ≡ form) }
    ensures refusal { IfErr result (λ e. IsTrue (is_some form) × IsUnshown e) }
{
    let Some(form) = form else {
        return Ok(None);
    };
    let evidence = winning_evidence(alloc, found)?;
    let part = part_by(alloc, found, &evidence)?;
    Ok(Some(WitnessText { form, part }))
}

/// Evidence of the winner: of a play that goes one way from each vertex, where one is found, and else of all that the winner wins.
pub(crate) fn winning_evidence(alloc: Global, found: &Findings) -> Result<Evidence, MuError>
    requires { AreFindings found.now }
    ensures winning { IfOk result (IsWinning found.now) }
    ensures refusal { IfErr result IsUnshown }
{
    match one_way(alloc, found)? {
        Some(evidence) => Ok(evidence),
        None => winner_evidence(alloc, found).map_err(MuError::Evidence),
    }
}

/// Evidence of a play that goes one way from each vertex, where one is found.
fn one_way(alloc: Global, found: &Findings) -> Result<Option<Evidence>, MuError>
    requires { AreFindings found.now }
    ensures winning { IfOk result (λ evidence. IfSome evidence (IsWinning found.now)) }
    ensures refusal { IfErr result IsUnshown }
{
    let SolvedGame {
        form,
        game,
        settled,
        ..
    } = &found.solution;
    let system = &found.texts.system;
    let even_wins = even_marks(alloc, game, settled)?;
    Ok(lasso(alloc, system, form, game, &even_wins)?)
}

/// A mark for each vertex, true where Even wins it.
fn even_marks(alloc: Global, game: &Game, settled: &Settled) -> Result<Vec<bool>, AllocError>
    requires { settled.now.game ≡ game.now }
{
    let mut marks = Vec::with_capacity(alloc, game.vertices() as usize)?;
    for v in 0..game.vertices() {
        marks.push(!settled.is_top(v))?;
    }
    Ok(marks)
}

/// The evidence of the player who wins the initial state's vertex with the root node.
fn winner_evidence(alloc: Global, found: &Findings) -> Result<Evidence, EvidenceError>
    requires { AreFindings found.now }
    ensures winning { IfOk result (IsWinning found.now) }
    ensures memory { IfErr result (λ e. e ≡ EvidenceError.Memory) }
{
    one_wins();
    let SolvedGame { game, settled, .. } = &found.solution;
    let game: &Game = game;
    game.known();
    if initial_mark(found) {
        let evidence = even_evidence(alloc, game, settled)?;
        evidence.known();
        Ok(evidence)
    } else {
        let evidence = odd_evidence_from(alloc, game, settled)?;
        evidence.known();
        Ok(evidence)
    }
}

/// The transitions that the play takes by evidence, in a game that was solved.
fn part_by(alloc: Global, found: &Findings, evidence: &Evidence) -> Result<Vec<Transition>, MuError>
    requires found { AreFindings found.now }
    requires winning { IsWinning found.now evidence.now }
    ensures shown { IfOk result (λ part. AreShown found.now.solution.priorities found.now.texts.value part.items) }
    ensures refusal { IfErr result IsUnshown }
{
    let SolvedGame { form, game, .. } = &found.solution;
    Ok(part_of_play(alloc, &found.texts, form, game, evidence)?)
}

/// The transitions that the play takes by evidence.
pub(crate) fn part_of_play(
    alloc: Global,
    texts: &Texts,
    form: &Normal,
    game: &Game,
    evidence: &Evidence,
) -> Result<Vec<Transition>, Memory>
    requires { IsPlay texts.now.system.system (normal_nodes form.now) game.now evidence.now }
    ensures { IfOk result (λ part. (rule : Priorities) → normal_nodes form.now ≡ nodes_with rule (closed_formula texts.now.formula)
        → AreShown rule texts.now part.items) }
{
    chosen_is_admissible();
    witness(alloc, &texts.system, form, game, evidence)
}

/// Whether the initial state satisfies the formula.
fn initial_mark(found: &Findings) -> bool
    requires { AreFindings found.now }
    ensures inside { found.now.texts.value.system.system.initial < found.now.texts.value.system.system.states }
    ensures mark { result ≡ slice_index_or found.now.marks.items found.now.texts.value.system.system.initial false }
{
    found.marks[found.texts.system.initial() as usize]
}
