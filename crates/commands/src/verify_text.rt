// The engines of the command `verify`.

ghost use Rattle.std.specs.Prelude.{◌≡◌, ◌||◌, ℕ, IfErr, List, Some, false};
ghost use Rattle.commands.specs.Causes.{AreCaused};
ghost use Rattle.commands.specs.Spelled.{IsEvidenceOf, IsGameOf};
ghost use Rattle.commands.specs.Answers.{Answers};
ghost use Rattle.commands.specs.Verifies.{AreVerified, IsVerified, RefusesBoth, RefusesVerify, Verifies, VerifiesBoth};

use crate::answer::answered;
use evidence::evidence::Evidence;
use evidence::reader::read_evidence;
use evidence::verdict::{Both, Verdict};
use evidence::verify::{check_both, verify};
use evidence::writer::{write_both, write_verdict};
use game::graph::Game;
use pgsolver::read_game;
use requests::error::MuError;
use std::alloc::Global;
use text::sink::Sink;
use text::source::Source;

/// Writes whether evidence is good for a game, or its least vertex with a fault and the least of its faults. It answers whether
/// it is good; its player then wins each vertex of its set. The game is read first.
///
/// # Errors
/// Those of the readers, unchanged; W1 where a write failed. After a refusal that is not W1 nothing was written.
pub fn verify_text<R: Source + Drop, S: Source + Drop, W: Sink>(
    alloc: Global,
    game: R,
    evidence: S,
    out: &mut W,
) -> Result<bool, MuError>
    ensures verifies { Verifies (R.remaining game) (S.remaining evidence) (W.taken out.old) (W.taken out.new) result }
    ensures cause { IfErr result (AreCaused R.can_fail S.can_fail) }
{
    let game = read_game(alloc, game).map_err(MuError::Game)?;
    let evidence = read_evidence(alloc, evidence, &game).map_err(MuError::Evidence)?;
    judge(&game, &evidence, out)
}

/// Writes the verdict, and answers whether it is good.
fn judge<W: Sink>(game: &Game, evidence: &Evidence, out: &mut W) -> Result<bool, MuError>
    requires { evidence.now.game ≡ game.now }
    ensures answers { (first second : List ℕ) → IsGameOf first game.now → IsEvidenceOf game.now second evidence.now.evidence
        → Answers (IsVerified first second) (RefusesVerify first second) (W.taken out.old) (W.taken out.new) result }
    ensures cause { IfErr result (AreCaused false false) }
{
    let verdict = verify(game, evidence);
    answered(
        write_verdict(evidence, verdict, out),
        matches!(verdict, Verdict::Good),
    )
}

/// Writes whether two pieces of evidence are good, of different players, and together of every vertex of a game, or the first
/// thing that is wrong. It answers whether they are; each then holds exactly the vertices that its player wins. The game is read
/// first, then the first piece and then the second.
///
/// # Errors
/// Those of the readers, unchanged; W1 where a write failed. After a refusal that is not W1 nothing was written.
pub fn verify_both_text<R: Source + Drop, S: Source + Drop, T: Source + Drop, W: Sink>(
    alloc: Global,
    game: R,
    first: S,
    second: T,
    out: &mut W,
) -> Result<bool, MuError>
    ensures verifies { VerifiesBoth (R.remaining game) (S.remaining first) (T.remaining second) (W.taken out.old) (W.taken out.new) result }
    ensures cause { IfErr result (AreCaused R.can_fail (S.can_fail || T.can_fail)) }
{
    let game = read_game(alloc, game).map_err(MuError::Game)?;
    let first = read_evidence(alloc, first, &game).map_err(MuError::Evidence)?;
    let second = read_evidence(alloc, second, &game).map_err(MuError::Evidence)?;
    judge_both(&game, &first, &second, out)
}

/// Writes what is told of both, and answers whether it is yes.
fn judge_both<W: Sink>(
    game: &Game,
    first: &Evidence,
    second: &Evidence,
    out: &mut W,
) -> Result<bool, MuError>
    requires first { first.now.game ≡ game.now }
    requires second { second.now.game ≡ game.now }
    ensures answers { (text one other : List ℕ) → IsGameOf text game.now → IsEvidenceOf game.now one first.now.evidence
        → IsEvidenceOf game.now other second.now.evidence
        → Answers (AreVerified text one other) (RefusesBoth text one other) (W.taken out.old) (W.taken out.new) result }
    ensures cause { IfErr result (AreCaused false false) }
{
    let both = check_both(game, first, second);
    answered(
        write_both(first, second, both, out),
        matches!(both, Both::Yes),
    )
}
