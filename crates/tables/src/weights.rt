// Weights of ranks, found once for a board.

ghost use Rattle.std.specs.Prelude.{◌≡◌, ◌<◌, ◌≤◌, ◌%◌, length};
ghost use Rattle.measures.specs.Lifting.{height, of_rank as measure_of_rank};
ghost use Rattle.measures.specs.Progs.{IsProgAt};
ghost use Rattle.measures.specs.declared.rank.TheConstants.{RANK_LIMIT};
ghost use Rattle.tables.specs.Weights.{AreWeights};

use arrayvec::ArrayVec;
use game::dual::greatest_priority;
use game::graph::Game;

/// The weights of a game: for each even priority how many lists have a count for each odd priority below it.
pub(crate) fn weights(game: &Game) -> ArrayVec<u64, 17>
    requires { height game.now < RANK_LIMIT }
    ensures { AreWeights game.now result.items }
{
    game.known();
    let mut weights = ArrayVec::new();
    let mut weight: u64 = 1;
    weights.push(weight);
    for half in 0..greatest_priority(game) / 2 {
        weight *= u64::from(game.count(2 * half + 1)) + 1;
        weights.push(weight);
    }
    weights
}

// What is left of a number that is cut to whole weights. Most numbers are small or weights are one, and then nothing is divided.
fn rest_of(number: u64, weight: u64) -> u64
    requires { 0 < weight }
    ensures { result ≡ number % weight }
{
    if weight == 1 {
        0
    } else if number < weight {
        number
    } else {
        number % weight
    }
}

/// What a vertex asks for where its play goes on at a measure of this rank, as a rank.
pub(crate) fn prog_rank(game: &Game, weights: &[u64], top: u64, v: u32, number: u64) -> u64
    requires weights { AreWeights game.now weights.now }
    requires top { top ≡ height game.now }
    requires few { height game.now < RANK_LIMIT }
    requires vertex { v < length game.now.vertices }
    requires number { number ≤ height game.now }

    ensures low { result ≤ height game.now }
    ensures prog { IsProgAt game.now v (measure_of_rank game.now number) (measure_of_rank game.now result) }
{
    if number == top {
        return top;
    }
    let priority = game.priority(v);
    let weight = weights[usize::from(priority / 2)];
    let floor = number - rest_of(number, weight);
    if priority % 2 == 0 {
        floor
    } else {
        top.min(floor + weight)
    }
}
