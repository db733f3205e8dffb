// The components of a game, and how far their counts go.

ghost use Rattle.std.specs.Prelude.{◌≡◌, ◌≤◌, length};
ghost use Rattle.measures.specs.Measure.{components};
ghost use Rattle.measures.specs.Progs.{bounds as bounds_of};

use crate::measure::COMPONENTS;
use arrayvec::ArrayVec;
use game::dual::greatest_priority;
use game::graph::Game;

/// The greatest count of each component: how many vertices have its priority.
pub fn bounds(game: &Game) -> ArrayVec<u32, 16>
    ensures { result.items ≡ bounds_of game.now }
{
    game.known();
    let mut bounds = ArrayVec::new();
    for p in (0..greatest_priority(game)).rev() {
        if p % 2 == 0 {
            bounds.push(game.count(p + 1));
        }
    }
    bounds
}

/// How many components a game has, and so how many counts each of its measures but top.
#[tactic(auto, using(crate::proofs::Plain::bounds_long, crate::proofs::Plain::bounds_few))]
pub fn width(game: &Game) -> usize
    ensures value { result ≡ length (components game.now) }
    ensures few { result ≤ COMPONENTS }
{
    game.known();
    bounds(game).len()
}
