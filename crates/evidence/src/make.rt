// Evidence of all that each player wins.

ghost use Rattle.std.specs.Prelude.{◌≡◌, ◌<◌, ◌≤◌, ◌↔◌, ℕ, IsOkUnless, IsTrue, IfOk, length};
ghost use Rattle.game.specs.Game.{dual as dual_of, greatest};
ghost use Rattle.game.specs.Wins.{OddWins, Wins};
ghost use Rattle.evidence.specs.Checking.{IsMoveAt};
ghost use Rattle.measures.specs.StoredProposal.{game_for};
ghost use Rattle.evidence.specs.Best.{IsBestOf, IsEvenOf, IsOddOf};
ghost use Rattle.evidence.specs.Evidence.{IsGood, has};

use crate::error::EvidenceError;
use crate::evidence::Evidence;
use calculus::limits::GREATEST_PRIORITY;
use game::dual::dual;
use game::graph::Game;
use game::player::Player;
use laws::games::{dual_wins, not_both_win};
use measures::settle::{even_wins, solve_one, solve_one_from};
use measures::table::{PlainTable, Settled, opening};
use std::alloc::Global;
use text::Memory;

// Where Even goes on from a vertex, if it is Even's.
fn best_move(game: &Game, settled: &Settled, v: u32) -> Option<u32>
    requires same { settled.now.game ≡ game.now }
    requires vertex { v < length game.now.vertices }
    ensures { IsMoveAt game.now settled.now.values v result }
{
    match game.owner(v) {
        Player::Even => Some(settled.best_successor(game, v)),
        Player::Odd => None,
    }
}

// Evidence for a player of the vertices at which the least measures of the player's game aren't top: of the game itself for Even, of its dual for Odd.
fn evidence_of(
    alloc: Global,
    game: &Game,
    measured: &Game,
    settled: &Settled,
    player: Player,
) -> Result<Evidence, Memory>
    requires measured { measured.now ≡ game_for player game.now }
    requires settled { settled.now.game ≡ measured.now }
    ensures game { IfOk result (λ e. e.game ≡ game.now) }
    ensures best { IfOk result (λ e. IsBestOf player game.now e.evidence) }
{
    measured.known();
    settled.known();
    let mut evidence = Evidence::none(alloc, game, player)?;
    for v in 0..measured.vertices() {
        if !settled.is_top(v) {
            evidence.put(v, best_move(measured, settled, v), settled.counts(v));
        }
    }
    Ok(evidence)
}

/// Evidence of all that Even wins, by the least progress table: its measures are the ranks, and Even goes on to the least
/// of the successors with the least `prog`.
///
/// # Errors
/// Out of memory, E5, and nothing else.
#[tactic(auto, using(crate::proofs::BestGood::even_is_good))]
pub fn even_evidence(
    alloc: Global,
    game: &Game,
    settled: &Settled,
) -> Result<Evidence, EvidenceError>
    requires { settled.now.game ≡ game.now }

    ensures game { IfOk result (λ e. e.game ≡ game.now) }

    ensures memory { IsOkUnless result EvidenceError.Memory }
    ensures even { IfOk result (λ e. IsEvenOf game.now e.evidence) }
    ensures good { IfOk result (λ e. IsGood game.now e.evidence) }
    ensures exact { IfOk result (λ e. (v : ℕ) → IsTrue (has e.evidence v) ↔ Wins game.now v) }
{
    game.known();
    Ok(evidence_of(alloc, game, game, settled, Player::Even)?)
}

/// Evidence of all that Odd wins: Even's of the dual game, by its least progress table, read for Odd.
///
/// # Errors
/// Out of memory, E5, and nothing else.
#[tactic(auto, using(crate::proofs::BestGood::odd_is_good))]
pub fn odd_evidence_of(
    alloc: Global,
    game: &Game,
    turned: &Game,
    settled: &Settled,
) -> Result<Evidence, EvidenceError>
    requires few { greatest game.now ≤ GREATEST_PRIORITY }
    requires turned { turned.now ≡ dual_of game.now }
    requires settled { settled.now.game ≡ turned.now }

    ensures game { IfOk result (λ e. e.game ≡ game.now) }

    ensures memory { IsOkUnless result EvidenceError.Memory }
    ensures odd { IfOk result (λ e. IsOddOf game.now e.evidence) }
    ensures good { IfOk result (λ e. IsGood game.now e.evidence) }
    ensures exact { IfOk result (λ e. (v : ℕ) → IsTrue (has e.evidence v) ↔ OddWins game.now v) }
{
    game.known();
    Ok(evidence_of(alloc, game, turned, settled, Player::Odd)?)
}

// Leaves top in a table of the dual game where Even wins the game itself.
fn raise_dual(game: &Game, settled: &Settled, table: &mut PlainTable, v: u32)
    requires table { table.old.game ≡ dual_of game.now }
    requires settled { settled.now.game ≡ game.now }
    requires vertex { v < length game.now.vertices }
    ensures { table.new.game ≡ table.old.game }
{
    not_both_win();
    dual_wins();
    if even_wins(settled, v) {
        table.raise_lost(v);
    }
}

// The least progress table of the dual game, which is lifted from top where Even wins the game itself.
fn solve_dual(
    alloc: Global,
    game: &Game,
    settled: &Settled,
    turned: &Game,
) -> Result<Settled, Memory>
    requires turned { turned.now ≡ dual_of game.now }
    requires settled { settled.now.game ≡ game.now }
    ensures { IfOk result (λ s. s.game ≡ turned.now) }
{
    let vertices = game.vertices();
    let mut table = opening(alloc, turned)?;
    for v in 0..vertices {
        raise_dual(game, settled, &mut table, v);
    }
    Ok(solve_one_from(turned, table))
}

/// Evidence of all that Odd wins in a game that is solved: Even's of the dual game, which is lifted from top where Even wins the game itself, read for Odd.
///
/// # Errors
/// Out of memory, E5, and nothing else.
pub fn odd_evidence_from(
    alloc: Global,
    game: &Game,
    settled: &Settled,
) -> Result<Evidence, EvidenceError>
    requires few { greatest game.now ≤ GREATEST_PRIORITY }
    requires settled { settled.now.game ≡ game.now }

    ensures game { IfOk result (λ e. e.game ≡ game.now) }

    ensures memory { IsOkUnless result EvidenceError.Memory }
    ensures odd { IfOk result (λ e. IsOddOf game.now e.evidence) }
    ensures good { IfOk result (λ e. IsGood game.now e.evidence) }
    ensures exact { IfOk result (λ e. (v : ℕ) → IsTrue (has e.evidence v) ↔ OddWins game.now v) }
{
    let Ok(turned) = dual(alloc, game) else {
        return Err(EvidenceError::Memory);
    };
    let other = solve_dual(alloc, game, settled, &turned)?;
    odd_evidence_of(alloc, game, &turned, &other)
}

/// Evidence of all that Odd wins: Even's of the dual game, which is solved by lifting, read for Odd.
///
/// # Errors
/// Out of memory, E5, and nothing else.
pub fn odd_evidence(alloc: Global, game: &Game) -> Result<Evidence, EvidenceError>
    requires { greatest game.now ≤ GREATEST_PRIORITY }

    ensures game { IfOk result (λ e. e.game ≡ game.now) }

    ensures memory { IsOkUnless result EvidenceError.Memory }
    ensures odd { IfOk result (λ e. IsOddOf game.now e.evidence) }
    ensures good { IfOk result (λ e. IsGood game.now e.evidence) }
    ensures exact { IfOk result (λ e. (v : ℕ) → IsTrue (has e.evidence v) ↔ OddWins game.now v) }
{
    let Ok(turned) = dual(alloc, game) else {
        return Err(EvidenceError::Memory);
    };
    let settled = solve_one(alloc, &turned)?;
    odd_evidence_of(alloc, game, &turned, &settled)
}
