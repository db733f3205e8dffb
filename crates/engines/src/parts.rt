// A check by a game that writes parts which are found one by one: marks of the states, the game, the play and the least measures.

ghost use Rattle.std.specs.Prelude.{◌≡◌, ℕ, false, true, List, Some, None, IfErr, IfSome};
ghost use Rattle.std.specs.Option.{is_some};
ghost use Rattle.calculus.specs.Closed.{closed_formula};
ghost use Rattle.requests.specs.Causes.{HaveCauses};
ghost use Rattle.requests.specs.Check.{AnswersCheck, AreMarks, AreSpelled, ByGame};
ghost use Rattle.requests.specs.Writers.{lent_writers};
ghost use Rattle.verdicts.specs.Findings.{IsLeastFound};

use crate::outputs::answer_prepared;
use crate::play::play_by;
use crate::prepared::{BothEvidence, Prepared, WitnessText, by_least, game_where, part_of_play};
use requests::error::MuError;
use requests::request::{Options, Wanted, WitnessForm};
use requests::texts::Texts;
use requests::watch::Watcher;
use requests::writers::Writers;
use std::alloc::Global;
use text::sink::Sink;
use verdicts::marks::marked_game;
use verdicts::proposing::{LeastFound, least_marks};
use verdicts::ranked::ranked_found;
use workers::runtime::Runtime;

/// Checks what was read by the least measures of its game, from which evidence is written. The game is stored where it is wanted, or a witness.
pub(crate) fn check_least<G: Sink, E: Sink, O: Sink, V: Sink, W: Sink, U: Watcher, H: Runtime>(
    rt: &H,
    alloc: Global,
    texts: Texts,
    options: &Options,
    least: &LeastFound,
    wanted: Wanted,
    writers: &mut Writers<G, E, O, V, W>,
    watcher: &U,
) -> Result<bool, MuError>
    requires least { IsLeastFound options.now.priorities options.now.board texts.system.system (closed_formula texts.formula) least.now }
    requires evidence { wanted.evidence ≡ true }

    ensures answers { (first second : List ℕ) → AreSpelled first second texts.system.system (closed_formula texts.formula)
        → AnswersCheck (ByGame options.now.priorities (Some options.now.board)) first second
        (lent_writers G.taken E.taken O.taken V.taken W.taken wanted writers.old writers.new) result }
    ensures cause { IfErr result (HaveCauses false false) }
{
    if let Some(form) = wanted.witness {
        let known = Some(least);
        return check_play(
            rt, alloc, texts, options, known, wanted, form, writers, watcher,
        );
    }
    let marks = least_marks(alloc, &texts, options, least)?;
    if wanted.game {
        let (marks, known) = (Some(marks), Some(least));
        return check_game(
            rt, alloc, &texts, options, marks, known, wanted, writers, watcher,
        );
    }
    let prepared = Prepared {
        wanted,
        game: None,
        evidence: BothEvidence::Least(least),
        shown: None,
    };
    answer_prepared(
        alloc,
        &texts,
        &marks,
        &prepared,
        &mut writers.game,
        &mut writers.even,
        &mut writers.odd,
        &mut writers.witness,
        &mut writers.report,
        watcher,
    )
}

/// Checks what was read with the game stored, whose text is written where it is wanted, and evidence where the least measures are known. The states have these
/// marks, or are marked by the game.
pub(crate) fn check_game<G: Sink, E: Sink, O: Sink, V: Sink, W: Sink, U: Watcher, H: Runtime>(
    rt: &H,
    alloc: Global,
    texts: &Texts,
    options: &Options,
    marks: Option<Vec<bool>>,
    least: Option<&LeastFound>,
    wanted: Wanted,
    writers: &mut Writers<G, E, O, V, W>,
    watcher: &U,
) -> Result<bool, MuError>
    requires marks { IfSome marks (λ marks. AreMarks (ByGame options.now.priorities (Some options.now.board)) texts.now.system.system
        (closed_formula texts.now.formula) marks.items) }
    requires least { IfSome least (λ found. IsLeastFound options.now.priorities options.now.board texts.now.system.system
        (closed_formula texts.now.formula) found.now) }
    requires evidence { is_some least ≡ wanted.evidence }
    requires witness { wanted.witness ≡ None }

    ensures answers { (first second : List ℕ) → AreSpelled first second texts.now.system.system (closed_formula texts.now.formula)
        → AnswersCheck (ByGame options.now.priorities (Some options.now.board)) first second
        (lent_writers G.taken E.taken O.taken V.taken W.taken wanted writers.old writers.new) result }
    ensures cause { IfErr result (HaveCauses false false) }
{
    let Texts { system, formula } = texts;
    let found = marked_game(rt, alloc, system, formula, marks, options, watcher)?;
    let prepared = Prepared {
        wanted,
        game: game_where(&found.game, wanted.game),
        evidence: by_least(least),
        shown: None,
    };
    answer_prepared(
        alloc,
        texts,
        &found.marks,
        &prepared,
        &mut writers.game,
        &mut writers.even,
        &mut writers.odd,
        &mut writers.witness,
        &mut writers.report,
        watcher,
    )
}

/// Checks what was read by a play, of which a witness is written in this form, and evidence where the least measures are known.
pub(crate) fn check_play<G: Sink, E: Sink, O: Sink, V: Sink, W: Sink, U: Watcher, H: Runtime>(
    rt: &H,
    alloc: Global,
    texts: Texts,
    options: &Options,
    least: Option<&LeastFound>,
    wanted: Wanted,
    form: WitnessForm,
    writers: &mut Writers<G, E, O, V, W>,
    watcher: &U,
) -> Result<bool, MuError>
    requires least { IfSome least (λ found. IsLeastFound options.now.priorities options.now.board texts.system.system (closed_formula texts.formula) found.now) }
    requires evidence { is_some least ≡ wanted.evidence }
    requires form { wanted.witness ≡ Some form }

    ensures answers { (first second : List ℕ) → AreSpelled first second texts.system.system (closed_formula texts.formula)
        → AnswersCheck (ByGame options.now.priorities (Some options.now.board)) first second
        (lent_writers G.taken E.taken O.taken V.taken W.taken wanted writers.old writers.new) result }
    ensures cause { IfErr result (HaveCauses false false) }
{
    let Texts { system, formula } = &texts;
    let ranked = ranked_found(rt, alloc, system, formula, options, watcher);
    let found = play_by(rt, alloc, texts, ranked, options, watcher)?;
    let part = part_of_play(
        alloc,
        &found.texts,
        &found.form,
        &found.game,
        &found.evidence,
    )?;
    let prepared = Prepared {
        wanted,
        game: game_where(&found.game, wanted.game),
        evidence: by_least(least),
        shown: Some(WitnessText { form, part }),
    };
    answer_prepared(
        alloc,
        &found.texts,
        &found.marks,
        &prepared,
        &mut writers.game,
        &mut writers.even,
        &mut writers.odd,
        &mut writers.witness,
        &mut writers.report,
        watcher,
    )
}
