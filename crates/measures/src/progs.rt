// The least measure that a vertex asks for.

ghost use Rattle.std.specs.Prelude.{◌≡◌, ◌<◌, ◌≤◌, ◌↔◌, ◌++◌, ◌∷◌, ◌+◌, ◌-◌, ◌^◌, [], length, slice_index, slice_index_or, take, IfNone, IfSome, IsTrue};
ghost use Rattle.std.specs.List.{AllByRecursion, AllZip};
ghost use Rattle.measures.specs.Measure.{Counts, IsMeasure, Top};
ghost use Rattle.measures.specs.Progress.{IsBestFor};
ghost use Rattle.measures.specs.Progs.{AreAtBounds, IsBetter, IsDemandOf, IsLiftOf, IsProgAt, IsProgUnder};

use crate::bounds::bounds;
use crate::measure::{COMPONENTS, Measure, copy_of};
use arrayvec::ArrayVec;
use game::graph::Game;
use game::player::Player;
use std::cmp::Ordering;

// The last of the first `kept` components whose count is less than its bound.
fn last_with_room(bounds: &[u32], counts: &[u32], kept: usize) -> Option<usize>
    requires bounds { kept ≤ length bounds.now }
    requires counts { kept ≤ length counts.now }

    ensures none { IfNone result (AreAtBounds bounds.now counts.now 0 kept) }
    ensures inside { IfSome result (λ k. k < kept) }
    ensures room { IfSome result (λ k. slice_index counts.now k < slice_index bounds.now k) }
    ensures full { IfSome result (λ k. AreAtBounds bounds.now counts.now (k + 1) kept) }
{
    for k in (0..kept).rev() {
        if counts[k] < bounds[k] {
            return Some(k);
        }
    }
    None
}

/// The least measure that at a vertex of this priority reaches these counts, in a game with these bounds.
pub(crate) fn prog_of(bounds: &[u32], priority: u8, counts: &[u32]) -> Measure
    requires few { length bounds.now ≤ COMPONENTS }
    requires counts { length counts.now ≡ length bounds.now }
    ensures { IsProgUnder bounds.now priority (Counts counts.now) result }
{
    let kept = bounds.len().saturating_sub(priority as usize / 2);
    if priority % 2 == 0 {
        return Measure::padded(copy_of(&counts[..kept]), bounds.len());
    }
    match last_with_room(bounds, counts, kept) {
        Some(k) => Measure::padded(raised(counts, k), bounds.len()),
        None => Measure::top(),
    }
}

// The counts before one of them, and one more there.
fn raised(counts: &[u32], at: usize) -> ArrayVec<u32, 16>
    requires inside { at < length counts.now }
    requires few { length counts.now ≤ COMPONENTS }
    requires room { slice_index counts.now at < 2 ^ 32 - 1 }
    ensures { result.items ≡ take at counts.now ++ (slice_index counts.now at + 1) ∷ [] }
{
    let mut raised = copy_of(&counts[..at]);
    raised.push(counts[at] + 1);
    raised
}

/// The least measure that a vertex may have where its play goes on at one with this measure: at least as great in the
/// counts at or above the vertex's priority, and greater where that priority is odd.
#[tactic(auto, using(crate::proofs::Bests::prog_at_top, crate::proofs::Bests::prog_at_counts, crate::proofs::Bests::counts_bounds))]
pub fn prog(game: &Game, v: u32, m: &Measure) -> Measure
    requires vertex { v < length game.now.vertices }
    requires measure { IsMeasure game.now m.now }
    ensures { IsProgAt game.now v m.now result }
{
    if m.is_top() {
        return Measure::top();
    }
    let bounds = bounds(game);
    prog_of(bounds.as_slice(), game.priority(v), m.counts())
}

/// Whether a player would rather go on with the first measure than with the second.
pub(crate) fn is_better(player: Player, order: Ordering) -> bool
    ensures { IsTrue result ↔ IsBetter player order }
{
    match player {
        Player::Even => order.is_lt(),
        Player::Odd => order.is_gt(),
    }
}

// Whether there is a count for each bound, and none above it.
#[tactic(auto, using(crate::proofs::Within::within_from))]
pub(crate) fn are_within(counts: &[u32], bounds: &[u32]) -> bool
    ensures { IsTrue result ↔ AllZip (λ count bound. count ≤ bound) counts.now bounds.now }
{
    if counts.len() != bounds.len() {
        return false;
    }
    for k in 0..counts.len() {
        if counts[k] > bounds[k] {
            return false;
        }
    }
    true
}

/// Whether a measure is one of the game's: top, or for each component a count within its bound.
pub fn is_measure(game: &Game, m: &Measure) -> bool
    ensures { IsTrue result ↔ IsMeasure game.now m.now }
{
    m.is_top() || are_within(m.counts(), bounds(game).as_slice())
}

// The place of the measure with which the player goes on.
fn best_place(player: Player, measures: &[Measure]) -> usize
    requires { 0 < length measures.now }
    ensures inside { result < length measures.now }
    ensures best { IsBestFor player measures.now (slice_index_or measures.now result Top) }
{
    let mut best = 0;
    for k in 1..measures.len() {
        if is_better(player, measures[k].compare(&measures[best])) {
            best = k;
        }
    }
    best
}

/// What a vertex asks for where its successors have these measures.
pub fn demand(game: &Game, v: u32, successors: &[Measure]) -> Measure
    requires vertex { v < length game.now.vertices }
    requires some { 0 < length successors.now }
    requires measures { AllByRecursion (IsMeasure game.now) successors.now }
    ensures { IsDemandOf game.now v successors.now result }
{
    let best = &successors[best_place(game.owner(v), successors)];
    prog(game, v, best)
}

/// What a vertex with a measure of its own rises to, where its successors have these.
pub fn lift(game: &Game, v: u32, own: &Measure, successors: &[Measure]) -> Measure
    requires vertex { v < length game.now.vertices }
    requires some { 0 < length successors.now }
    requires measures { AllByRecursion (IsMeasure game.now) successors.now }
    ensures { IsLiftOf game.now v own.now successors.now result }
{
    let risen = demand(game, v, successors);
    if own.is_below(&risen) {
        risen
    } else {
        own.copied()
    }
}
