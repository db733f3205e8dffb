// Why the initial state satisfies a formula, or doesn't: the verdict and a play that shows it, as a person reads it.

ghost use Rattle.std.specs.Prelude.{◌≡◌, ◌<◌, ◌≤◌, ◌++◌, ℕ, List, Some, IfOk, IfErr, IfSome, IsTrue, false, length, map};
ghost use Rattle.std.specs.Arc.{arc_value};
ghost use Rattle.text.specs.Pieces.{line_end};
ghost use Rattle.calculus.specs.Closed.{closed_formula};
ghost use Rattle.text.specs.Wrote.{Wrote};
ghost use Rattle.requests.specs.Causes.{HaveCauses};
ghost use Rattle.requests.specs.Check.{AreSpelled};
ghost use Rattle.calculus.specs.Normal.{normal_nodes};
ghost use Rattle.game.specs.Arena.{arena};
ghost use Rattle.evidence.specs.Evidence.{IsGood, has as has_entry};
ghost use Rattle.witness.specs.Witness.{root_of};
ghost use Rattle.verdicts.specs.Findings.{IsRankedFound};
ghost use Rattle.why.specs.Story.{has_branch as has_branch_of, modality_of, story_text, verdict_text};
ghost use Rattle.engines.specs.Play.{IsPlay, IsPlayFound, formula_played, system_played};
ghost use Rattle.engines.specs.Reasons.{IsApart, IsToldBy, TellsReasons, most_visits as most_visits_of, reasons};
ghost use Rattle.engines.specs.StrictReasons.{TellsWhyBy};

use crate::everywhere::{alike_states, tell_answer};
use crate::play::{PlayFound, initial_answer, play_by};
use calculus::form::Normal;
use calculus::limits::MOST_NODES;
use evidence::evidence::Evidence;
use game::graph::Game;
use game::observer::{Observer, Stage};
use lts::{Lts, Memory, Piece, WriteFault, put_pieces};
use requests::error::MuError;
use requests::report::write_formula_line;
use requests::request::Why;
use requests::texts::{Texts, read_asked};
use requests::watch::Watcher;
use std::alloc::Global;
use std::hash::BuildHasher;
use text::sink::Sink;
use text::source::Source;
use verdicts::ranked::{RankedFound, ranked_found};
use why::setting::{has_branch, heads, modality_texts, told_within, verdict};
use why::visit::Visit;
use why::walk::telling;
use why::writer::{Story, write_story};
use witness::part::root_vertex;
use workers::runtime::Runtime;

/// The visits that tell a play: the text of the modality of each node of the normal form, how many visits are made at most, which of them a run comes back
/// to, and how many are told.
#[derive(Drop)]
pub(crate) struct PlayVisits {
    pub(crate) modalities: Vec<Vec<u8>>,
    pub(crate) most: usize,
    pub(crate) visits: Vec<Visit>,
    pub(crate) heads: Vec<bool>,
    pub(crate) count: usize,
}

/// Writes the formula, whether the initial state satisfies it, and the play by the winner's evidence from the initial state on. It answers whether the
/// initial state satisfies the formula. Nothing is written before all memory was taken. Where it is strict, each word of the formula has to be on a
/// transition.
///
/// # Errors
/// Those of `check_asked` where it writes a witness alone.
pub fn tell_why<
    L: BuildHasher + Drop,
    R: Source + Drop,
    S: Source + Drop,
    W: Sink,
    U: Watcher,
    H: Runtime,
>(
    rt: &H,
    alloc: Global,
    request: &Why<'_>,
    hasher: L,
    aut: R,
    formula: S,
    out: &mut W,
    watcher: &U,
) -> Result<bool, MuError>
    ensures tells { let r = request.now in TellsWhyBy r.strict r.options.priorities (Some r.options.board) r.limit (R.remaining aut)
        (S.remaining formula) (W.taken out.old) (W.taken out.new) result }
    ensures cause { IfErr result (HaveCauses R.can_fail S.can_fail) }
{
    let texts = read_asked(alloc, hasher, aut, formula, request.strict, watcher)?;
    tell_read(rt, alloc, texts, request, out, watcher)
}

/// Tells why, of texts that were read. Where one line tells it by a ranking, no game is stored.
fn tell_read<W: Sink, U: Watcher, H: Runtime>(
    rt: &H,
    alloc: Global,
    texts: Texts,
    request: &Why<'_>,
    out: &mut W,
    watcher: &U,
) -> Result<bool, MuError>
    ensures tells { (first second : List ℕ) → AreSpelled first second texts.system.system (closed_formula texts.formula)
        → let r = request.now in TellsReasons r.options.priorities (Some r.options.board) r.limit first second (W.taken out.old)
        (W.taken out.new) result }
    ensures cause { IfErr result (HaveCauses false false) }
{
    let Texts { system, formula } = &texts;
    let ranked = ranked_found(rt, alloc, system, formula, &request.options, watcher);
    if let Some(found) = &ranked
        && let Some(count) = alike_states(alloc, system, &found.form, &found.marks)?
    {
        return tell_answer(&texts, &found.marks, count, out);
    }
    tell_by_play(rt, alloc, texts, ranked, request, out, watcher)
}

/// Tells why, by the play, or in one line where that is enough by the marks that were found with it.
fn tell_by_play<W: Sink, U: Watcher, H: Runtime>(
    rt: &H,
    alloc: Global,
    texts: Texts,
    ranked: Option<RankedFound>,
    request: &Why<'_>,
    out: &mut W,
    watcher: &U,
) -> Result<bool, MuError>
    requires { IfSome ranked (IsRankedFound request.now.options.priorities request.now.options.board texts.system.system (closed_formula texts.formula)) }
    ensures tells { (first second : List ℕ) → AreSpelled first second texts.system.system (closed_formula texts.formula)
        → let r = request.now in TellsReasons r.options.priorities (Some r.options.board) r.limit first second (W.taken out.old)
        (W.taken out.new) result }
    ensures cause { IfErr result (HaveCauses false false) }
{
    let found = play_by(rt, alloc, texts, ranked, &request.options, watcher)?;
    let (texts, marks) = (&*found.texts, &found.marks);
    if let Some(count) = alike_states(alloc, &texts.system, &found.form, marks)? {
        return tell_answer(texts, marks, count, out);
    }
    tell_found(alloc, &found, request, out, watcher)
}

/// Tells why, where the play was found.
fn tell_found<W: Sink, U: Watcher>(
    alloc: Global,
    found: &PlayFound,
    request: &Why<'_>,
    out: &mut W,
    watcher: &U,
) -> Result<bool, MuError>
    requires found { IsPlayFound request.now.options.priorities request.now.options.board found.now }
    requires apart { IsApart request.now.options.priorities found.now }
    ensures tells { (first second : List ℕ) → AreSpelled first second (system_played found.now) (formula_played found.now)
        → let r = request.now in TellsReasons r.options.priorities (Some r.options.board) r.limit first second (W.taken out.old)
        (W.taken out.new) result }
    ensures cause { IfErr result (HaveCauses false false) }
{
    let told = told_of(alloc, found, request.limit)?;
    watcher.sees(Stage::Writing);
    let answer = initial_answer(found);
    match put_reasons(found, answer, &told, out) {
        Ok(()) => Ok(answer),
        Err(fault) => Err(MuError::Write(fault)),
    }
}

/// What is told of the play.
fn told_of(alloc: Global, found: &PlayFound, limit: u32) -> Result<PlayVisits, Memory>
    requires { IsPlay (system_played found.now) (normal_nodes found.now.form) (arc_value found.now.game) found.now.evidence }
    ensures { IfOk result (IsToldBy (system_played found.now) (normal_nodes found.now.form) (arc_value found.now.game) found.now.evidence.evidence limit) }
{
    let PlayFound {
        texts,
        form,
        game,
        evidence,
        ..
    } = found;
    tell_by(alloc, &texts.system, form, game, evidence, limit)
}

/// What is told of the play by evidence, in the game of a system and a normal form.
fn tell_by(
    alloc: Global,
    system: &Lts,
    form: &Normal,
    game: &Game,
    evidence: &Evidence,
    limit: u32,
) -> Result<PlayVisits, Memory>
    requires game { game.now ≡ arena system.now.system (normal_nodes form.now) }
    requires same { evidence.now.game ≡ game.now }
    requires good { IsGood game.now evidence.now.evidence }
    requires root { IsTrue (has_entry evidence.now.evidence (root_of system.now.system (normal_nodes form.now))) }

    ensures { IfOk result (IsToldBy system.now.system (normal_nodes form.now) game.now evidence.now.evidence limit) }
{
    let root = root_vertex(system, form, game);
    let most = most_visits(limit);
    let visits = telling(alloc, system, form, game, evidence, root, most)?;
    let heads = heads(alloc, &visits)?;
    let count = told_within(form, &visits, &heads, limit);
    let modalities = modality_texts(alloc, form)?;
    Ok(PlayVisits {
        modalities,
        most,
        visits,
        heads,
        count,
    })
}

/// How many visits are made at most.
fn most_visits(limit: u32) -> usize
    ensures many { result ≡ most_visits_of limit }
    ensures some { 0 < result }
{
    if limit == 0 {
        usize::MAX
    } else {
        (MOST_NODES + 1) * (limit as usize + 1)
    }
}

/// Writes what is told, and that this is the answer.
fn put_reasons<W: Sink>(
    found: &PlayFound,
    answer: bool,
    told: &PlayVisits,
    out: &mut W,
) -> Result<(), WriteFault>
    requires texts { map (λ text. text.items) told.now.modalities.items ≡ map modality_of (normal_nodes found.now.form) }
    requires within { told.now.count ≤ length told.now.visits.items }
    ensures { Wrote (W.taken out.old) (W.taken out.new) result
        (reasons (formula_played found.now) answer (system_played found.now) (normal_nodes found.now.form) told.now.most told.now.visits.items
        told.now.heads.items told.now.count) }
{
    write_formula_line(&found.texts.formula, out)?;
    put_verdict(answer, told, out)?;
    put_story(found, told, out)
}

/// Writes whether the initial state satisfies the formula, and whether one run shows it or several do.
fn put_verdict<W: Sink>(answer: bool, told: &PlayVisits, out: &mut W) -> Result<(), WriteFault>
    ensures { Wrote (W.taken out.old) (W.taken out.new) result (verdict_text answer (has_branch_of told.now.visits.items) ++ line_end) }
{
    let several = has_branch(&told.visits);
    put_pieces(
        out,
        &[Piece::Bytes(verdict(answer, several)), Piece::Bytes(b"\n")],
    )
}

/// Writes the lines of the visits.
fn put_story<W: Sink>(found: &PlayFound, told: &PlayVisits, out: &mut W) -> Result<(), WriteFault>
    requires texts { map (λ text. text.items) told.now.modalities.items ≡ map modality_of (normal_nodes found.now.form) }
    requires within { told.now.count ≤ length told.now.visits.items }
    ensures { Wrote (W.taken out.old) (W.taken out.new) result
        (story_text (system_played found.now) (normal_nodes found.now.form) told.now.most told.now.visits.items told.now.heads.items told.now.count) }
{
    let story = Story {
        system: &found.texts.system,
        normal: &found.form,
        modalities: &told.modalities,
        visits: &told.visits,
        heads: &told.heads,
        count: told.count,
        most: told.most,
    };
    write_story(&story, out)
}
