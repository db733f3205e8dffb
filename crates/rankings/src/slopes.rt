// How numbers are compared at the vertices of one priority.

ghost use Rattle.std.specs.Prelude.{◌≡◌, ◌↔◌, ◌/◌, ◌^◌, ◌<◌, ◌≤◌, ℕ, IsTrue};
ghost use Rattle.game.specs.Wins.{IsOf};
ghost use Rattle.rankings.specs.Ranking.{GoesOnWell, Ranking, winner_of};
ghost use Rattle.rankings.specs.Slopes.{AreSlopes};

use crate::slope::{Slope, Slopes};
use game::player::Player;

/// The player that a number says wins.
#[inline(always)]
pub(crate) fn winner(number: u64) -> Player
    ensures { result ≡ winner_of number }
{
    if number % 2 == 1 {
        Player::Odd
    } else {
        Player::Even
    }
}

// Whether a priority is of this player's parity.
pub(crate) fn is_of(player: Player, priority: u32) -> bool
    ensures { IsTrue result ↔ IsOf player priority }
{
    match player {
        Player::Even => priority % 2 == 0,
        Player::Odd => priority % 2 == 1,
    }
}

/// Whether what counts of a number doesn't rise from one to the next, and falls where it has to.
#[inline(always)]
pub(crate) fn descends(slope: Slope, own: u64, next: u64) -> bool
    ensures { IsTrue result ↔ ((next / 2 ^ slope.shift ≤ own / 2 ^ slope.shift)
        × (IsTrue slope.falls → next / 2 ^ slope.shift < own / 2 ^ slope.shift)) }
{
    let (own, next) = (own >> slope.shift, next >> slope.shift);
    if slope.falls { next < own } else { next <= own }
}

impl Slopes {
    /// Whether the play goes on well from a vertex with one number at one with the next.
    #[inline(always)]
    pub(crate) fn let_follow(self, own: u64, next: u64) -> bool
        ensures { (r : Ranking) (p : ℕ) → AreSlopes r p self → (IsTrue result ↔ GoesOnWell r (winner_of own) p own next) }
    {
        let slope = match winner(own) {
            Player::Even => self.even,
            Player::Odd => self.odd,
        };
        own % 2 == next % 2 && descends(slope, own, next)
    }
}
