// The checker of evidence.

ghost use Rattle.std.specs.Prelude.{◌≡◌, ◌<◌, ◌≤◌, ◌↔◌, ℕ, None, Some, IsTrue, count_by, length, nat_le};
ghost use Rattle.std.specs.List.{AllByRecursion};
ghost use Rattle.game.specs.Game.{Game, Vertex, opponent, vertex};
ghost use Rattle.game.specs.Wins.{IsOf, WinsBy};
ghost use Rattle.evidence.specs.Checking.{AreBelow, AreInside, Decides, IsAlong, IsFaultAt, IsLeastFault, IsLeftOver};
ghost use Rattle.evidence.specs.Evidence.{Descends, Entry, counted, entry_at, has};
ghost use Rattle.evidence.specs.Verdict.{IsBoth, IsVerdict};
ghost use Rattle.evidence.specs.View.{rank_width};

use crate::evidence::Evidence;
use crate::verdict::{Both, Fault, Verdict};
use game::graph::Game;
use game::player::Player;

// How many counts of a rank stand at or above a priority.
fn kept(player: Player, priority: u8, width: usize) -> usize
    requires { priority < 255 }
    ensures within { result ≤ width }
    ensures kept { (g : Game) → length (counted player g) ≡ width → result ≡ count_by (λ q. nat_le priority q) (counted player g) }
{
    let below = match player {
        Player::Even => priority / 2,
        Player::Odd => (priority + 1) / 2,
    };
    width.saturating_sub(below as usize)
}

// Whether a priority is of the other parity, so that the rank has to fall there.
fn falls(player: Player, priority: u8) -> bool
    ensures { IsTrue result ↔ IsOf (opponent player) priority }
{
    match player {
        Player::Even => priority % 2 == 1,
        Player::Odd => priority % 2 == 0,
    }
}

// Whether a rank descends to the next one, at a vertex of this priority.
fn descends(player: Player, priority: u8, rank: &[u32], next: &[u32]) -> bool
    requires priority { priority < 255 }
    requires same { length next.now ≡ length rank.now }
    ensures { (g : Game) → length (counted player g) ≡ length rank.now → (IsTrue result ↔ Descends player g priority rank.now next.now) }
{
    let kept = kept(player, priority, rank.len());
    let order = next[..kept].cmp(&rank[..kept]);
    if falls(player, priority) {
        order.is_lt()
    } else {
        order.is_le()
    }
}

// Whether all of these vertices are in the set.
fn are_inside(evidence: &Evidence, targets: &[u32]) -> bool
    requires { AllByRecursion (λ t. t < length evidence.now.game.vertices) targets.now }
    ensures { IsTrue result ↔ AreInside evidence.now.evidence targets.now }
{
    for t in targets {
        if !evidence.has(*t) {
            return false;
        }
    }
    true
}

// Whether the rank descends from a vertex of this priority to one, if that is in the set.
fn is_below(evidence: &Evidence, priority: u8, rank: &[u32], t: u32) -> bool
    requires priority { priority < 255 }
    requires rank { length rank.now ≡ rank_width evidence.now }
    requires target { t < length evidence.now.game.vertices }
    ensures { IsTrue result ↔ ((y : Entry) → entry_at evidence.now.evidence t ≡ Some y
        → Descends evidence.now.evidence.player evidence.now.game priority rank.now y.rank) }
{
    evidence.known();
    match evidence.get(t) {
        Some(next) => descends(evidence.player(), priority, rank, next.rank),
        None => true,
    }
}

// Whether it does to all of these.
fn are_below(evidence: &Evidence, priority: u8, rank: &[u32], targets: &[u32]) -> bool
    requires priority { priority < 255 }
    requires rank { length rank.now ≡ rank_width evidence.now }
    requires inside { AllByRecursion (λ t. t < length evidence.now.game.vertices) targets.now }
    ensures { IsTrue result ↔ AreBelow evidence.now.game evidence.now.evidence priority rank.now targets.now }
{
    for t in targets {
        if !is_below(evidence, priority, rank, *t) {
            return false;
        }
    }
    true
}

// The least fault along edges to these, if there is one.
fn fault_along(evidence: &Evidence, priority: u8, rank: &[u32], targets: &[u32]) -> Option<Fault>
    requires priority { priority < 255 }
    requires rank { length rank.now ≡ rank_width evidence.now }
    requires inside { AllByRecursion (λ t. t < length evidence.now.game.vertices) targets.now }
    ensures { IsAlong evidence.now.game evidence.now.evidence priority rank.now targets.now result }
{
    if !are_inside(evidence, targets) {
        Some(Fault::Leaves)
    } else if !are_below(evidence, priority, rank, targets) {
        Some(Fault::Rank)
    } else {
        None
    }
}

// Whether two players are one.
pub(crate) fn is_same(player: Player, other: Player) -> bool
    ensures { IsTrue result ↔ (player ≡ other) }
{
    player == other
}

// The least fault of an entry with a move, if it has one.
fn fault_with_move(
    game: &Game,
    evidence: &Evidence,
    v: u32,
    rank: &[u32],
    next: u32,
) -> Option<Fault>
    requires same { evidence.now.game ≡ game.now }
    requires vertex { v < length game.now.vertices }
    requires entry { entry_at evidence.now.evidence v ≡ Some record { move = Some next; rank = rank.now } }
    ensures { (x : Vertex) → vertex game.now v ≡ Some x → IsLeastFault game.now evidence.now.evidence x (record { move = Some next; rank = rank.now }) result }
{
    game.known();
    evidence.known();
    if is_same(game.owner(v), evidence.player()) && game.successors(v).contains(&next) {
        fault_along(evidence, game.priority(v), rank, &[next])
    } else {
        Some(Fault::Move)
    }
}

// The least fault of an entry without one.
fn fault_without(game: &Game, evidence: &Evidence, v: u32, rank: &[u32]) -> Option<Fault>
    requires same { evidence.now.game ≡ game.now }
    requires vertex { v < length game.now.vertices }
    requires entry { entry_at evidence.now.evidence v ≡ Some record { move = None; rank = rank.now } }
    ensures { (x : Vertex) → vertex game.now v ≡ Some x → IsLeastFault game.now evidence.now.evidence x (record { move = None; rank = rank.now }) result }
{
    game.known();
    evidence.known();
    if is_same(game.owner(v), evidence.player()) {
        Some(Fault::Move)
    } else {
        fault_along(evidence, game.priority(v), rank, game.successors(v))
    }
}

// The least fault at a vertex, if one stands there.
pub(crate) fn fault_at(game: &Game, evidence: &Evidence, v: u32) -> Option<Fault>
    requires same { evidence.now.game ≡ game.now }
    requires vertex { v < length game.now.vertices }
    ensures { IsFaultAt game.now evidence.now.evidence v result }
{
    let entry = evidence.get(v)?;
    match entry.next {
        Some(next) => fault_with_move(game, evidence, v, entry.rank, next),
        None => fault_without(game, evidence, v, entry.rank),
    }
}

/// Whether evidence is good. It takes no memory, and looks at each edge of the set at most twice.
pub fn verify(game: &Game, evidence: &Evidence) -> Verdict
    requires { evidence.now.game ≡ game.now }
    ensures verdict { IsVerdict game.now evidence.now.evidence result }
    ensures wins { result ≡ Verdict.Good → (v : ℕ) → IsTrue (has evidence.now.evidence v) → WinsBy evidence.now.evidence.player game.now v }
{
    evidence.known();
    for v in 0..game.vertices() {
        if let Some(fault) = fault_at(game, evidence, v) {
            return Verdict::Faulty(v, fault);
        }
    }
    Verdict::Good
}

// The least vertex that is in neither set.
fn left_out(game: &Game, first: &Evidence, second: &Evidence) -> Option<u32>
    requires first { first.now.game ≡ game.now }
    requires second { second.now.game ≡ game.now }
    ensures { IsLeftOver game.now first.now.evidence second.now.evidence result }
{
    for v in 0..game.vertices() {
        if !first.has(v) && !second.has(v) {
            return Some(v);
        }
    }
    None
}

/// Whether two pieces of evidence are good and of different players, and no vertex is in neither. It takes no memory.
pub fn check_both(game: &Game, first: &Evidence, second: &Evidence) -> Both
    requires first { first.now.game ≡ game.now }
    requires second { second.now.game ≡ game.now }
    ensures both { IsBoth game.now first.now.evidence second.now.evidence result }
    ensures decides { result ≡ Both.Yes → Decides game.now first.now.evidence second.now.evidence }
{
    first.known();
    second.known();
    if let Verdict::Faulty(v, fault) = verify(game, first) {
        return Both::First(v, fault);
    }
    if let Verdict::Faulty(v, fault) = verify(game, second) {
        return Both::Second(v, fault);
    }
    if is_same(first.player(), second.player()) {
        return Both::OnePlayer;
    }
    match left_out(game, first, second) {
        Some(v) => Both::LeftOut(v),
        None => Both::Yes,
    }
}
