// The engine of the command `solve`.

ghost use Rattle.std.specs.Prelude.{◌≡◌, ℕ, IfErr, false, true, List, Some, MatchResult};
ghost use Rattle.std.specs.Arc.{arc_value};
ghost use Rattle.std.specs.Option.{is_some};
ghost use Rattle.text.specs.Cause.{HasCause};
ghost use Rattle.game.specs.Game.{Game};
ghost use Rattle.evidence.specs.Pair.{AreFull};
ghost use Rattle.requests.specs.Writers.{AreWritten, report_writer};
ghost use Rattle.requests.specs.declared.request.ReportForm.TheVariants.{Whole};
ghost use Rattle.commands.specs.Causes.{game_unread};
ghost use Rattle.commands.specs.Spelled.{IsGameOf};
ghost use Rattle.commands.specs.Solves.{AnswersSolve, GivesNoGame, IsSolveText, Solves, solve_writers};

use crate::answer::answered;
use crate::solution::evidence_by;
use crate::winner_text::{are_winners, even_marks, write_winners};
use evidence::pair::EvidencePair;
use evidence::writer::write_evidence;
use game::graph::Game;
use game::observer::{Observer, Silent, Stage};
use lts::WriteFault;
use pgsolver::read_game;
use requests::error::MuError;
use requests::request::{Options, Solve};
use requests::solver::winners_by;
use std::alloc::Global;
use std::sync::Arc;
use text::sink::Sink;
use text::source::Source;
use workers::runtime::Runtime;

/// Writes who wins each vertex of the game that a text spells, and how many of them Even wins. The answer is true. Over a board that the
/// options name the workers lift; else evidence of both players is guessed and tested, and they lift where none is good.
///
/// # Errors
/// Those of the reader, unchanged; T1 where the packed board is asked for and can't be had, and only there; T2, V1 and U4 for
/// memory; W1 where a write failed. After a refusal that is not W1 nothing was written.
pub fn solve_text<R: Source + Drop, W: Sink, H: Runtime>(
    rt: &H,
    alloc: Global,
    game: R,
    options: &Options,
    out: &mut W,
) -> Result<bool, MuError>
    ensures solves { Solves options.now.board (R.remaining game) (report_writer Whole (W.taken out.old) (W.taken out.new)) result }
    ensures cause { IfErr result (HasCause R.can_fail game_unread) }
{
    let game = read_shared(alloc, game)?;
    solve_and_write(rt, alloc, &game, options, out, &Silent)
}

/// Solves as `solve_text` does by the options of a request, and before that writes, where it is asked for, evidence of all that
/// Even wins and of all that Odd wins, each to its writer. An observer is told what is being searched, lifted and written.
///
/// # Errors
/// Those of `solve_text`, and E5 where evidence is asked for and memory is wanting for it.
pub fn solve_asked<R: Source + Drop, E: Sink, O: Sink, W: Sink, U: Observer + Sync, H: Runtime>(
    rt: &H,
    alloc: Global,
    request: &Solve<'_>,
    game: R,
    even: &mut E,
    odd: &mut O,
    out: &mut W,
    observer: &U,
) -> Result<bool, MuError>
    ensures solves { Solves request.now.options.board (R.remaining game) (solve_writers (is_some request.now.evidence)
        (E.taken even.old) (E.taken even.new) (O.taken odd.old) (O.taken odd.new) (W.taken out.old) (W.taken out.new)) result }
    ensures cause { IfErr result (HasCause R.can_fail game_unread) }
{
    let game = read_shared(alloc, game)?;
    let options = &request.options;
    if request.evidence.is_some() {
        prove_and_write(rt, alloc, &game, options, even, odd, out, observer)
    } else {
        solve_and_write(rt, alloc, &game, options, out, observer)
    }
}

/// Reads the game, which the workers share.
fn read_shared<R: Source + Drop>(alloc: Global, game: R) -> Result<Arc<Game, Global>, MuError>
    ensures reads { (text : List ℕ) → R.remaining game ≡ Some text
        → MatchResult result (λ game. IsGameOf text (arc_value game)) (GivesNoGame text) }
    ensures cause { IfErr result (HasCause R.can_fail game_unread) }
{
    let game = read_game(alloc, game).map_err(MuError::Game)?;
    Ok(Arc::new(alloc, game)?)
}

/// Solves the game, and writes who wins each vertex.
fn solve_and_write<W: Sink, U: Observer + Sync, H: Runtime>(
    rt: &H,
    alloc: Global,
    game: &Arc<Game, Global>,
    options: &Options,
    out: &mut W,
    observer: &U,
) -> Result<bool, MuError>
    ensures answers { (text : List ℕ) → IsGameOf text (arc_value game.now)
        → AnswersSolve options.now.board text (report_writer Whole (W.taken out.old) (W.taken out.new)) result }
    ensures cause { IfErr result (HasCause false game_unread) }
{
    let marks = winners_by(rt, alloc, game, options, observer)?;
    observer.sees(Stage::Writing);
    are_winners(game, &marks);
    answered(write_winners(&marks, out), true)
}

/// Makes evidence of all that each player wins, and writes both texts of it and who wins each vertex.
fn prove_and_write<E: Sink, O: Sink, W: Sink, U: Observer + Sync, H: Runtime>(
    rt: &H,
    alloc: Global,
    game: &Arc<Game, Global>,
    options: &Options,
    even: &mut E,
    odd: &mut O,
    out: &mut W,
    observer: &U,
) -> Result<bool, MuError>
    ensures answers { (text : List ℕ) → IsGameOf text (arc_value game.now) → AnswersSolve options.now.board text (solve_writers true (E.taken even.old)
        (E.taken even.new) (O.taken odd.old) (O.taken odd.new) (W.taken out.old) (W.taken out.new)) result }
    ensures cause { IfErr result (HasCause false game_unread) }
{
    let pair = evidence_by(rt, alloc, game, options, observer)?;
    observer.sees(Stage::Writing);
    let marks = even_marks(alloc, game, &pair.even)?;
    answered(put_all(&pair, &marks, even, odd, out), true)
}

/// Writes the three texts, one after another.
fn put_all<E: Sink, O: Sink, W: Sink>(
    pair: &EvidencePair,
    marks: &[bool],
    even: &mut E,
    odd: &mut O,
    out: &mut W,
) -> Result<(), WriteFault>
    ensures { (g : Game) → AreFull g pair.now → AreWritten (IsSolveText g marks.now) (solve_writers true
        (E.taken even.old) (E.taken even.new) (O.taken odd.old) (O.taken odd.new) (W.taken out.old) (W.taken out.new)) result }
{
    write_evidence(&pair.even, even)?;
    write_evidence(&pair.odd, odd)?;
    write_winners(marks, out)
}
