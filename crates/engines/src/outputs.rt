// The texts of a check, written in their order: the game, Even's evidence, Odd's, the witness, the report.

ghost use Rattle.std.specs.Prelude.{◌≡◌, ◌∷◌, [], ℕ, Bool, false, List, Some, IfErr, IfSome, MatchResult, Ok, Err, length, slice_index_or};
ghost use Rattle.systems.specs.Numbered.{IsInside};
ghost use Rattle.calculus.specs.Closed.{closed_formula};
ghost use Rattle.engines.specs.Prepared.{AreBoth, ArePrepared, AreShown, IsTextFound, Outcome, game_played, is_made};
ghost use Rattle.verdicts.specs.Findings.{AreFindings, IsLeastFound, IsPairOf, formula_found, system_of, way_in};
ghost use Rattle.workers.specs.declared.team.BoardKind.{BoardKind};
ghost use Rattle.requests.specs.Causes.{HaveCauses};
ghost use Rattle.requests.specs.Check.{AnswersCheck, AreMarks, AreSpelled, ByGame};
ghost use Rattle.requests.specs.Writers.{AreWritten, EvenText, OddText, ReportText, all_writers, kind_where, lent_for, report_writer, witness_kind};

use crate::prepared::{BothEvidence, Prepared, WitnessText, prepare};
use evidence::law::best_exists;
use evidence::pair::EvidencePair;
use evidence::writer::write_evidence;
use game::observer::{Observer, Stage};
use game::player::Player;
use lts::writer::write_part;
use lts::{WriteFault, put};
use pgsolver::writer::write_game;
use requests::error::MuError;
use requests::report::report_text;
use requests::request::{Wanted, WitnessForm};
use requests::texts::Texts;
use requests::watch::Watcher;
use std::alloc::Global;
use text::sink::Sink;
use verdicts::evidence_text::LeastMeasures;
use verdicts::findings::Findings;
use verdicts::proposing::LeastFound;
use witness::drawing::write_drawing;

/// Makes what is wanted of these findings, writes it, and answers. Nothing is written before all is made.
pub(crate) fn answer_wanted<G: Sink, E: Sink, O: Sink, V: Sink, W: Sink, U: Watcher>(
    alloc: Global,
    found: &Findings,
    wanted: Wanted,
    game: &mut G,
    even: &mut E,
    odd: &mut O,
    witness: &mut V,
    out: &mut W,
    watcher: &U,
) -> Result<bool, MuError>
    requires { AreFindings found.now }
    ensures answers { (first second : List ℕ) → AreSpelled first second (system_of found.now) (formula_found found.now)
        → AnswersCheck (way_in found.now) first second (all_writers wanted (G.taken game.old) (G.taken game.new)
        (E.taken even.old) (E.taken even.new) (O.taken odd.old) (O.taken odd.new) (V.taken witness.old) (V.taken witness.new)
        (W.taken out.old) (W.taken out.new)) result }
    ensures cause { IfErr result (HaveCauses false false) }
{
    if wanted.evidence || wanted.witness.is_some() {
        watcher.sees(Stage::MakingEvidence {
            vertices: found.solution.game.vertices(),
        });
    }
    let prepared = prepare(alloc, found, wanted)?;
    let (texts, marks) = (&*found.texts, found.marks.as_slice());
    answer_prepared(
        alloc, texts, marks, &prepared, game, even, odd, witness, out, watcher,
    )
}

/// Writes what is made, and the report, and answers. Nothing is written before the report is made.
pub(crate) fn answer_prepared<G: Sink, E: Sink, O: Sink, V: Sink, W: Sink, U: Watcher>(
    alloc: Global,
    texts: &Texts,
    marks: &[bool],
    prepared: &Prepared<'_>,
    game: &mut G,
    even: &mut E,
    odd: &mut O,
    witness: &mut V,
    out: &mut W,
    watcher: &U,
) -> Result<bool, MuError>
    requires shown { IfSome prepared.now.shown (λ shown. IsInside texts.now.system shown.part.items) }
    requires marks { length marks.now ≡ texts.now.system.system.states }

    ensures answers { (x : Outcome) (first second : List ℕ) → x.texts ≡ texts.now → x.marks ≡ marks.now → ArePrepared x prepared.now
        → AreMarks (ByGame x.rule x.board) x.texts.system.system (closed_formula x.texts.formula) x.marks
        → AreSpelled first second x.texts.system.system (closed_formula x.texts.formula)
        → AnswersCheck (ByGame x.rule x.board) first second (all_writers prepared.now.wanted (G.taken game.old) (G.taken game.new)
        (E.taken even.old) (E.taken even.new) (O.taken odd.old) (O.taken odd.new) (V.taken witness.old) (V.taken witness.new)
        (W.taken out.old) (W.taken out.new)) result }
    ensures cause { IfErr result (HaveCauses false false) }
{
    let form = prepared.wanted.report;
    let report = report_text(alloc, &texts.system, &texts.formula, marks, form)?;
    watcher.sees(Stage::Writing);
    let wrote = put_wanted(texts, prepared, &report, game, even, odd, witness, out);
    answer_marked(texts, marks, wrote)
}

/// The initial state's mark, where all was written.
fn answer_marked(
    texts: &Texts,
    marks: &[bool],
    wrote: Result<(), WriteFault>,
) -> Result<bool, MuError>
    requires { length marks.now ≡ texts.now.system.system.states }
    ensures { MatchResult wrote (λ _. result ≡ Ok (slice_index_or marks.now texts.now.system.system.initial false))
        (λ fault. result ≡ Err (MuError.Write fault)) }
{
    wrote.map_err(MuError::Write)?;
    Ok(marks[texts.system.initial() as usize])
}

/// Writes the texts that are wanted, and then the report.
fn put_wanted<G: Sink, E: Sink, O: Sink, V: Sink, W: Sink>(
    texts: &Texts,
    prepared: &Prepared<'_>,
    report: &[u8],
    game: &mut G,
    even: &mut E,
    odd: &mut O,
    witness: &mut V,
    out: &mut W,
) -> Result<(), WriteFault>
    requires { IfSome prepared.now.shown (λ shown. IsInside texts.now.system shown.part.items) }
    ensures { (x : Outcome) → x.texts ≡ texts.now → ArePrepared x prepared.now → IsTextFound x (ReportText prepared.now.wanted.report) report.now
        → AreWritten (IsTextFound x) (all_writers prepared.now.wanted (G.taken game.old) (G.taken game.new)
        (E.taken even.old) (E.taken even.new) (O.taken odd.old) (O.taken odd.new) (V.taken witness.old) (V.taken witness.new)
        (W.taken out.old) (W.taken out.new)) result }
{
    match prepared.game {
        Some(played) => {
            write_game(played, game)?;
            put_after_game(texts, prepared, report, even, odd, witness, out)
        }
        None => put_after_game(texts, prepared, report, even, odd, witness, out),
    }
}

/// Writes the texts that are wanted from the evidence on, and the report.
fn put_after_game<E: Sink, O: Sink, V: Sink, W: Sink>(
    texts: &Texts,
    prepared: &Prepared<'_>,
    report: &[u8],
    even: &mut E,
    odd: &mut O,
    witness: &mut V,
    out: &mut W,
) -> Result<(), WriteFault>
    requires { IfSome prepared.now.shown (λ shown. IsInside texts.now.system shown.part.items) }
    ensures { (x : Outcome) → x.texts ≡ texts.now → ArePrepared x prepared.now → IsTextFound x (ReportText prepared.now.wanted.report) report.now → AreWritten (IsTextFound x)
        (lent_for (kind_where prepared.now.wanted.evidence EvenText) (E.taken even.old) (E.taken even.new)
        ∷ (lent_for (kind_where prepared.now.wanted.evidence OddText) (O.taken odd.old) (O.taken odd.new)
        ∷ (lent_for (witness_kind prepared.now.wanted.witness) (V.taken witness.old) (V.taken witness.new)
        ∷ report_writer prepared.now.wanted.report (W.taken out.old) (W.taken out.new)))) result }
{
    put_both(&prepared.evidence, even, odd)?;
    put_after_evidence(texts, prepared, report, witness, out)
}

/// Writes the evidence of both players, if there is some.
fn put_both<E: Sink, O: Sink>(
    evidence: &BothEvidence<'_>,
    even: &mut E,
    odd: &mut O,
) -> Result<(), WriteFault>
    ensures { (x : Outcome) → AreBoth x evidence.now → AreWritten (IsTextFound x)
        (lent_for (kind_where (is_made evidence.now) EvenText) (E.taken even.old) (E.taken even.new)
        ∷ (lent_for (kind_where (is_made evidence.now) OddText) (O.taken odd.old) (O.taken odd.new) ∷ [])) result }
{
    match evidence {
        BothEvidence::Neither => Ok(()),
        BothEvidence::Made(pair) => put_pair(pair, even, odd),
        BothEvidence::Least(least) => put_least(least, even, odd),
    }
}

/// Writes the evidence of both players.
fn put_pair<E: Sink, O: Sink>(
    pair: &EvidencePair,
    even: &mut E,
    odd: &mut O,
) -> Result<(), WriteFault>
    ensures { (x : Outcome) → IsPairOf (game_played x) pair.now → AreWritten (IsTextFound x)
        (lent_for EvenText (E.taken even.old) (E.taken even.new) ∷ (lent_for OddText (O.taken odd.old) (O.taken odd.new) ∷ [])) result }
{
    write_evidence(&pair.even, even)?;
    write_evidence(&pair.odd, odd)
}

/// Writes the evidence of both players, where no game is stored.
fn put_least<E: Sink, O: Sink>(
    least: &LeastFound,
    even: &mut E,
    odd: &mut O,
) -> Result<(), WriteFault>
    ensures { (x : Outcome) (board : BoardKind) → IsLeastFound x.rule board x.texts.system.system (closed_formula x.texts.formula) least.now
        → AreWritten (IsTextFound x)
        (lent_for EvenText (E.taken even.old) (E.taken even.new) ∷ (lent_for OddText (O.taken odd.old) (O.taken odd.new) ∷ [])) result }
{
    best_exists();
    least.form.known();
    let evens = LeastMeasures {
        proposals: &least.proposals,
        moves: &least.moves,
        player: Player::Even,
    };
    evens.write(even)?;
    let odds = LeastMeasures {
        player: Player::Odd,
        ..evens
    };
    odds.write(odd)
}

/// Writes the witness, if it is wanted, and the report.
fn put_after_evidence<V: Sink, W: Sink>(
    texts: &Texts,
    prepared: &Prepared<'_>,
    report: &[u8],
    witness: &mut V,
    out: &mut W,
) -> Result<(), WriteFault>
    requires { IfSome prepared.now.shown (λ shown. IsInside texts.now.system shown.part.items) }
    ensures { (x : Outcome) → x.texts ≡ texts.now → ArePrepared x prepared.now → IsTextFound x (ReportText prepared.now.wanted.report) report.now
        → AreWritten (IsTextFound x) (lent_for (witness_kind prepared.now.wanted.witness) (V.taken witness.old) (V.taken witness.new)
        ∷ report_writer prepared.now.wanted.report (W.taken out.old) (W.taken out.new)) result }
{
    match &prepared.shown {
        Some(shown) => {
            put_witness(texts, shown, witness)?;
            put(out, report)
        }
        None => put(out, report),
    }
}

/// Writes the witness in its form.
fn put_witness<V: Sink>(texts: &Texts, shown: &WitnessText, out: &mut V) -> Result<(), WriteFault>
    requires { IsInside texts.now.system shown.now.part.items }
    ensures { (x : Outcome) → x.texts ≡ texts.now → AreShown x.rule x.texts shown.now.part.items
        → AreWritten (IsTextFound x) (lent_for (witness_kind (Some shown.now.form)) (V.taken out.old) (V.taken out.new) ∷ []) result }
{
    match shown.form {
        WitnessForm::System => write_part(&texts.system, &shown.part, out),
        WitnessForm::Drawing => write_drawing(&texts.system, &shown.part, out),
    }
}
