// Evidence that is made of a guess of winners, moves and ranks.

ghost use Rattle.std.specs.Prelude.{◌≡◌, IfOk, IfSome, length};
ghost use Rattle.evidence.specs.Pair.{AreOf};
ghost use Rattle.evidence.specs.Evidence.{counted};

use crate::evidence::Evidence;
use crate::pair::EvidencePair;
use game::gauge::Gauge;
use game::graph::Game;
use game::player::Player;
use game_search::guess::Guess;
use std::alloc::Global;
use text::Memory;

// Evidence of all that a player is guessed to win. A move to what is no vertex is left out.
fn evidence_of(
    alloc: Global,
    game: &Game,
    guess: &Guess,
    player: Player,
) -> Result<Evidence, Memory>
    ensures game { IfOk result (λ e. e.game ≡ game.now) }
    ensures player { IfOk result (λ e. e.evidence.player ≡ player) }
{
    let mut evidence = Evidence::none(alloc, game, player)?;
    let mut rank = vec![in alloc; 0; evidence.width()]?;
    let ranks = guess.ranks(alloc, player, evidence.width());
    let vertices = game.vertices();
    for v in 0..vertices {
        if guess.winner(v) == player {
            ranks.put(v, rank.as_mut_slice());
            let next = guess.next(v).filter(|next| *next < vertices);
            evidence.put(v, next, rank.as_slice());
        }
    }
    Ok(evidence)
}

// Evidence of all that each player is guessed to win. There is none where the guess took too long, or where memory runs out.
pub(crate) fn guessed_pair(
    alloc: Global,
    game: &Game,
    gauge: Option<&Gauge>,
) -> Option<EvidencePair>
    ensures { IfSome result (AreOf game.now) }
{
    let guess = Guess::of(alloc, game, gauge)?;
    let even = evidence_of(alloc, game, &guess, Player::Even).ok()?;
    let odd = evidence_of(alloc, game, &guess, Player::Odd).ok()?;
    Some(EvidencePair { even, odd })
}
