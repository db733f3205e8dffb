// Measures as numbers: the rank of a measure is the number of the measures that are less.

ghost use Rattle.std.specs.Prelude.{◌≡◌, ◌<◌, ◌≤◌, ◌↔◌, length, IfSome, IsSome};
ghost use Rattle.std.specs.List.{AllZip};
ghost use Rattle.measures.specs.Lifting.{code, decode, height, of_rank as measure_of_rank, rank as rank_of, lists_up_to};
ghost use Rattle.measures.specs.Measure.{IsBelow, IsMeasure, IsRank, Measure};

use crate::bounds::bounds;
use crate::measure::{COMPONENTS, Measure};
use arrayvec::ArrayVec;
use game::graph::Game;

/// Ranks are below it.
pub const RANK_LIMIT: u64 = 1 << 62;

// How many lists of counts are within these bounds, where they are fewer than the limit.
fn number_within(bounds: &[u32]) -> Option<u64>
    ensures few { IsSome result ↔ (lists_up_to (λ b. b) bounds.now < RANK_LIMIT) }
    ensures value { IfSome result (λ n. n ≡ lists_up_to (λ b. b) bounds.now) }
{
    let mut number: u64 = 1;
    for bound in bounds {
        match number.checked_mul(u64::from(*bound) + 1) {
            Some(more) if more < RANK_LIMIT => number = more,
            _ => return None,
        }
    }
    Some(number)
}

// How many of these lists are less than this one.
fn number_of(bounds: &[u32], counts: &[u32]) -> u64
    requires within { AllZip (λ count bound. count ≤ bound) counts.now bounds.now }
    requires few { lists_up_to (λ b. b) bounds.now < RANK_LIMIT }
    ensures { result ≡ code (λ b. b) bounds.now counts.now }
{
    let mut number: u64 = 0;
    for k in 0..bounds.len() {
        number = number * (u64::from(bounds[k]) + 1) + u64::from(counts[k]);
    }
    number
}

// The list of which so many are less. `within` is how many there are.
fn counts_of_number(bounds: &[u32], within: u64, number: u64) -> ArrayVec<u32, 16>
    requires few { length bounds.now ≤ COMPONENTS }
    requires within { within ≡ lists_up_to (λ b. b) bounds.now }
    requires number { number < within }
    ensures { result.items ≡ decode (λ b. b) bounds.now number }
{
    let mut counts = ArrayVec::new();
    let mut weight = within;
    let mut rest = number;
    for bound in bounds {
        weight /= u64::from(*bound) + 1;
        counts.push((rest / weight) as u32);
        rest %= weight;
    }
    counts
}

/// The rank of top, where it is below the limit. Every other measure's is less.
pub fn top_rank(game: &Game) -> Option<u64>
    ensures few { IsSome result ↔ (height game.now < RANK_LIMIT) }
    ensures value { IfSome result (λ n. n ≡ height game.now) }
{
    number_within(bounds(game).as_slice())
}

/// How many measures of the game are less. A measure has a lesser rank than another exactly where it is less.
pub fn rank(game: &Game, m: &Measure) -> u64
    requires few { height game.now < RANK_LIMIT }
    requires measure { IsMeasure game.now m.now }

    ensures value { result ≡ rank_of game.now m.now }
    ensures lesser { IsRank game.now m.now result }
    ensures order { (other : Measure) → IsMeasure game.now other → (IsBelow m.now other ↔ (result < rank_of game.now other)) }
    ensures measure { measure_of_rank game.now result ≡ m.now }
{
    if m.is_top() {
        return top_rank(game).unwrap();
    }
    number_of(bounds(game).as_slice(), m.counts())
}

/// The measure of this rank.
pub fn of_rank(game: &Game, rank: u64) -> Measure
    requires few { height game.now < RANK_LIMIT }
    requires rank { rank ≤ height game.now }

    ensures value { result ≡ measure_of_rank game.now rank }
    ensures measure { IsMeasure game.now result }
    ensures rank { rank_of game.now result ≡ rank }
{
    let within = top_rank(game).unwrap();
    if rank == within {
        return Measure::top();
    }
    let bounds = bounds(game);
    Measure::of_counts(counts_of_number(bounds.as_slice(), within, rank).as_slice())
}
