// The engine that the program calls: from both texts to the report.

ghost use Rattle.std.specs.Prelude.{◌≡◌, ℕ, false, List, Some, IfErr, MatchResult};
ghost use Rattle.calculus.specs.Closed.{closed_formula};
ghost use Rattle.requests.specs.Causes.{HaveCauses};
ghost use Rattle.requests.specs.Check.{Way, BySets, ByGame, AreMarks, AreSpelled, AnswersCheck, IsBeyond, IsErrorOf};
ghost use Rattle.requests.specs.Command.{wanted_in, way_of};
ghost use Rattle.requests.specs.Strict.{ChecksBy};
ghost use Rattle.requests.specs.Writers.{lent_writers, report_writer};

use crate::outputs::answer_wanted;
use crate::parts::{check_game, check_least, check_play};
use game::observer::{Observer, Stage};
use lts::put;
use requests::error::MuError;
use requests::report::report_text;
use requests::request::{Check, Options, ReportForm, Wanted};
use requests::texts::{Texts, read_asked};
use requests::watch::Watcher;
use requests::writers::Writers;
use std::alloc::Global;
use std::hash::BuildHasher;
use text::sink::Sink;
use text::source::Source;
use verdicts::findings::{boxed, find_by_game};
use verdicts::marks::{game_marks, plain_marks};
use verdicts::proposing::least_found;
use verdicts::ranked::ranked_marks;
use workers::runtime::Runtime;

/// The check that a command asks for: by sets of states where it is plain, and then it writes the report alone; else by a game, with
/// what is wanted. Each text has a writer; nothing is written to those of texts that aren't wanted. Where it is strict, each word of the
/// formula has to be on a transition. Of the witness it is proved that it has the system's states and initial state, and just the
/// transitions that the play takes from there by the winner's evidence, and that the formula holds at the initial state exactly where it
/// does in the system. A watcher is told of each stage.
///
/// # Errors
/// Those of `check_plain`, or of `check`; L1 where it is strict. E5 also where there is no memory for a witness.
pub fn check_asked<
    L: BuildHasher + Drop,
    R: Source + Drop,
    S: Source + Drop,
    G: Sink,
    E: Sink,
    O: Sink,
    V: Sink,
    W: Sink,
    U: Watcher,
    H: Runtime,
>(
    rt: &H,
    alloc: Global,
    request: &Check<'_>,
    wanted: Wanted,
    hasher: L,
    aut: R,
    formula: S,
    writers: &mut Writers<G, E, O, V, W>,
    watcher: &U,
) -> Result<bool, MuError>
    ensures checks { ChecksBy request.now.strict (way_of request.now) (R.remaining aut) (S.remaining formula)
        (lent_writers G.taken E.taken O.taken V.taken W.taken (wanted_in request.now wanted) writers.old writers.new) result }
    ensures cause { IfErr result (HaveCauses R.can_fail S.can_fail) }
{
    let texts = read_asked(alloc, hasher, aut, formula, request.strict, watcher)?;
    check_read(rt, alloc, request, wanted, texts, writers, watcher)
}

/// Checks what was read, as a command asks for it.
fn check_read<G: Sink, E: Sink, O: Sink, V: Sink, W: Sink, U: Watcher, H: Runtime>(
    rt: &H,
    alloc: Global,
    request: &Check<'_>,
    wanted: Wanted,
    texts: Texts,
    writers: &mut Writers<G, E, O, V, W>,
    watcher: &U,
) -> Result<bool, MuError>
    ensures answers { (first second : List ℕ) → AreSpelled first second texts.system.system (closed_formula texts.formula)
        → AnswersCheck (way_of request.now) first second
        (lent_writers G.taken E.taken O.taken V.taken W.taken (wanted_in request.now wanted) writers.old writers.new) result }
    ensures cause { IfErr result (HaveCauses false false) }
{
    if request.plain {
        return report_plain(alloc, &texts, wanted.report, &mut writers.report, watcher);
    }
    let options = &request.options;
    check_by_game(rt, alloc, texts, options, wanted, writers, watcher)
}

/// Checks by sets of states what was read, and writes the report.
pub(crate) fn report_plain<W: Sink, U: Watcher>(
    alloc: Global,
    texts: &Texts,
    form: ReportForm,
    out: &mut W,
    watcher: &U,
) -> Result<bool, MuError>
    ensures answers { (first second : List ℕ) → AreSpelled first second texts.now.system.system (closed_formula texts.now.formula)
        → AnswersCheck BySets first second (report_writer form (W.taken out.old) (W.taken out.new)) result }
    ensures plain { IfErr result (IsErrorOf BySets) }
    ensures cause { IfErr result (HaveCauses false false) }
{
    watcher.sees(Stage::Evaluating {
        states: texts.system.states(),
    });
    let marks = plain_marks(alloc, &texts.system, &texts.formula);
    watcher.sees(Stage::Writing);
    report(alloc, texts, marks, form, out)
}

/// Writes the report with these marks, whichever way they were found, and answers the initial state's mark.
fn report<W: Sink>(
    alloc: Global,
    texts: &Texts,
    marks: Result<Vec<bool>, MuError>,
    form: ReportForm,
    out: &mut W,
) -> Result<bool, MuError>
    requires { let l = texts.now.system.system in let f = closed_formula texts.now.formula in
        (way : Way) × MatchResult marks (λ marks. AreMarks way l f marks.items) (IsBeyond way l f) }
    ensures answers { let l = texts.now.system.system in let f = closed_formula texts.now.formula in
        (way : Way) (first second : List ℕ) → MatchResult marks (λ marks. AreMarks way l f marks.items) (IsBeyond way l f)
        → AreSpelled first second l f → AnswersCheck way first second (report_writer form (W.taken out.old) (W.taken out.new)) result }
    ensures errors { let l = texts.now.system.system in let f = closed_formula texts.now.formula in
        (way : Way) → MatchResult marks (λ marks. AreMarks way l f marks.items) (IsBeyond way l f) → IfErr result (IsErrorOf way) }
    ensures cause { IfErr result (HaveCauses false false) }
{
    let marks = marks?;
    let initial = texts.system.initial() as usize;
    let text = report_text(alloc, &texts.system, &texts.formula, &marks, form)?;
    // By a match, whose arms are the cases of the proof.
    match put(out, &text) {
        Ok(()) => Ok(marks[initial]),
        Err(fault) => Err(MuError::Write(fault)),
    }
}

/// Checks by a game what was read, and writes what is wanted.
fn check_by_game<G: Sink, E: Sink, O: Sink, V: Sink, W: Sink, U: Watcher, H: Runtime>(
    rt: &H,
    alloc: Global,
    texts: Texts,
    options: &Options,
    wanted: Wanted,
    writers: &mut Writers<G, E, O, V, W>,
    watcher: &U,
) -> Result<bool, MuError>
    ensures answers { (first second : List ℕ) → AreSpelled first second texts.system.system (closed_formula texts.formula)
        → AnswersCheck (ByGame options.now.priorities (Some options.now.board)) first second
        (lent_writers G.taken E.taken O.taken V.taken W.taken wanted writers.old writers.new) result }
    ensures cause { IfErr result (HaveCauses false false) }
{
    if wanted.is_nothing() {
        let out = &mut writers.report;
        return report_by_game(rt, alloc, &texts, options, wanted.report, out, watcher);
    }
    if wanted.evidence {
        return match least_found(alloc, &texts, options, watcher) {
            Some(least) => check_least(rt, alloc, texts, options, &least, wanted, writers, watcher),
            None => check_solved(rt, alloc, texts, options, wanted, writers, watcher),
        };
    }
    match wanted.witness {
        Some(form) => check_play(
            rt, alloc, texts, options, None, wanted, form, writers, watcher,
        ),
        None => {
            let Texts { system, formula } = &texts;
            let marks = ranked_marks(rt, alloc, system, formula, options, watcher);
            check_game(
                rt, alloc, &texts, options, marks, None, wanted, writers, watcher,
            )
        }
    }
}

/// Checks what was read by solving its game, and writes what is wanted.
fn check_solved<G: Sink, E: Sink, O: Sink, V: Sink, W: Sink, U: Watcher, H: Runtime>(
    rt: &H,
    alloc: Global,
    texts: Texts,
    options: &Options,
    wanted: Wanted,
    writers: &mut Writers<G, E, O, V, W>,
    watcher: &U,
) -> Result<bool, MuError>
    ensures answers { (first second : List ℕ) → AreSpelled first second texts.system.system (closed_formula texts.formula)
        → AnswersCheck (ByGame options.now.priorities (Some options.now.board)) first second
        (lent_writers G.taken E.taken O.taken V.taken W.taken wanted writers.old writers.new) result }
    ensures cause { IfErr result (HaveCauses false false) }
{
    let texts = boxed(alloc, texts)?;
    let found = find_by_game(rt, alloc, texts, options, watcher)?;
    answer_wanted(
        alloc,
        &found,
        wanted,
        &mut writers.game,
        &mut writers.even,
        &mut writers.odd,
        &mut writers.witness,
        &mut writers.report,
        watcher,
    )
}

/// Checks by a game what was read, and writes the report alone, for which it is enough to know who wins. Where a guess says it, and is good, no
/// worker lifts.
fn report_by_game<W: Sink, U: Watcher, H: Runtime>(
    rt: &H,
    alloc: Global,
    texts: &Texts,
    options: &Options,
    form: ReportForm,
    out: &mut W,
    watcher: &U,
) -> Result<bool, MuError>
    ensures answers { (first second : List ℕ) → AreSpelled first second texts.now.system.system (closed_formula texts.now.formula)
        → AnswersCheck (ByGame options.now.priorities (Some options.now.board)) first second
        (report_writer form (W.taken out.old) (W.taken out.new)) result }
    ensures cause { IfErr result (HaveCauses false false) }
{
    let marks = game_marks(rt, alloc, &texts.system, &texts.formula, options, watcher);
    watcher.sees(Stage::Writing);
    report(alloc, texts, marks, form, out)
}
