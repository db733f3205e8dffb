// Families of games whose winners are known, and are argued beside each. Ladders and cliques are those that Friedmann and
// Lange compared solvers by in 2009; in climbs lifting alone goes through each measure, as in Jurdzinski's bound of 2000.

ghost use Rattle.std.specs.Prelude.{◌<◌, ◌≤◌};

use crate::common::{certified, holds_of, is_lifted, is_marked};
use game::graph::{Game, GameBuilder};
use game::player::Player;
use samples::games::push_row;
use samples::holds;
use samples::host::Host;
use std::process::Abort;

// The vertices that Even wins.
#[derive(Clone, Copy)]
enum EvenWins {
    All,
    None,
    Own,
}

// Evidence is guessed of just those in a game whose size is this, the checker accepts it, and lifting says the same, where it is asked.
fn are_won(rt: &impl Host, game: Game, wins: EvenWins, lifts: bool, size: u32) {
    let marks = certified(rt, &game);
    let mut is_won = marks.len() == game.vertices() as usize;
    for v in 0..game.vertices() {
        is_won &= is_marked(marks.as_slice(), v)
            == match wins {
                EvenWins::All => true,
                EvenWins::None => false,
                EvenWins::Own => matches!(game.owner(v), Player::Even),
            };
    }
    holds_of(rt, is_won, "at", size);
    let is_same = !lifts || is_lifted(rt, &game, marks.as_slice());
    holds_of(rt, is_same, "lifted at", size);
    drop(marks);
    drop(game);
}

// Even has the even vertices, and Odd the odd ones.
pub(crate) fn owner_of(v: u32) -> Player {
    match v % 2 {
        0 => Player::Even,
        _ => Player::Odd,
    }
}

// A game gets one more vertex.
pub(crate) fn push(
    rt: &impl Abort,
    builder: &mut GameBuilder,
    owner: Player,
    priority: u8,
    successors: &[u32],
) {
    push_row(builder, owner, priority, successors).expect(rt, "memory");
}

// A ring of rungs: a vertex of Even with priority 0, and one of Odd with priority 1. From each the play goes on to one of the
// two after it. So each player can stay at the own vertices, whose priority is good.
fn ladder(rt: &impl Host, rungs: u32) -> Game
    requires some { 1 < rungs }
    requires few { rungs ≤ 1_000_000 }
{
    let mut builder = GameBuilder::new(rt.alloc());
    let vertices = 2 * rungs;
    for v in 0..vertices {
        let (near, far) = ((v + 1) % vertices, (v + 2) % vertices);
        let next = [near.min(far), near.max(far)];
        push(rt, &mut builder, owner_of(v), (v % 2) as u8, &next);
    }
    builder.finish().expect(rt, "a game")
}

#[test]
fn on_a_ladder_each_wins_the_own_vertices(rt: HostRuntime) {
    for rungs in 2..40 {
        are_won(&rt, ladder(&rt, rungs), EvenWins::Own, true, rungs);
    }
    are_won(&rt, ladder(&rt, 50_000), EvenWins::Own, false, 50_000);
}

// Each vertex has its number as priority, and leads to all others.
fn clique(rt: &impl Host, vertices: u32) -> Game
    requires { vertices ≤ 33 }
{
    let mut builder = GameBuilder::new(rt.alloc());
    let mut others = Vec::new(rt.alloc());
    for v in 0..vertices {
        others.clear();
        for t in 0..vertices {
            if t != v {
                others.push(t).expect(rt, "memory");
            }
        }
        push(rt, &mut builder, owner_of(v), v as u8, others.as_slice());
    }
    drop(others);
    builder.finish().expect(rt, "a game")
}

// Of two vertices the play meets both. Of three, Odd has one and must leave it, and Even goes between her two. Of more, each
// player goes between two of the own.
#[test]
fn in_a_clique_who_has_two_vertices_wins_them(rt: HostRuntime) {
    are_won(&rt, clique(&rt, 2), EvenWins::None, true, 2);
    are_won(&rt, clique(&rt, 3), EvenWins::All, true, 3);
    for vertices in 4..=33 {
        are_won(&rt, clique(&rt, vertices), EvenWins::Own, true, vertices);
    }
}

// A climb: a way of rows, and a round. The way ends at a vertex that leads to itself. Before it come so many vertices of the
// greatest odd priority, before those as many of the next, and so on, each leading to the one before. In the round Even
// goes either to the beginning of the way or to a vertex of priority 1 that leads back. So the winner at the way's end wins
// everywhere: Even has to leave the round at some time. Lifting alone goes round it once for each measure below the one at
// the beginning of the way.
fn climb(rt: &impl Host, rows: u8, width: u32, is_evens: bool) -> Game
    requires { rows < 16 }
{
    let mut builder = GameBuilder::new(rt.alloc());
    let end = 2 * rows + u8::from(!is_evens);
    push(rt, &mut builder, Player::Odd, end, &[0]);
    let mut last = 0_u32;
    for row in (0..rows).rev() {
        for _ in 0..width {
            push(rt, &mut builder, owner_of(last), 2 * row + 1, &[last]);
            last = last.wrapping_add(1);
        }
    }
    let (round, back) = (last.wrapping_add(1), last.wrapping_add(2));
    push(rt, &mut builder, Player::Even, 0, &[last, back]);
    push(rt, &mut builder, Player::Odd, 1, &[round]);
    builder.finish().expect(rt, "a game")
}

// The winner at the end wins all vertices of a climb.
fn climbs_are_won(rt: &impl Host, rows: u8, width: u32, lifts: bool) {
    holds!(rt; rows < 16);
    for (is_evens, wins) in [(true, EvenWins::All), (false, EvenWins::None)] {
        are_won(rt, climb(rt, rows, width, is_evens), wins, lifts, width);
    }
}

#[test]
fn who_wins_at_the_end_of_a_way_wins_the_climb(rt: HostRuntime) {
    for (rows, width) in [(1, 50), (2, 12), (3, 6), (4, 3)] {
        climbs_are_won(&rt, rows, width, true);
    }
}

// On these lifting would take years.
#[test]
fn large_climbs_are_won_by_good_evidence(rt: HostRuntime) {
    for (rows, width) in [(4, 100), (4, 20_000), (15, 1_000)] {
        climbs_are_won(&rt, rows, width, false);
    }
}

// One stair: a way of ten vertices, a vertex of Odd where it ends, and two of Even, from which the play goes to the next stair or back.
fn push_stair(rt: &impl Abort, builder: &mut GameBuilder, stair: u32)
    requires { stair < 3000 }
{
    let first = 13 * stair;
    let end = first + 10;
    for place in 0..10 {
        let next = first + place + 1;
        let row = [next, end];
        let steps = if next < end { 2 } else { 1 };
        push(rt, builder, owner_of(place), 1, &row[..steps]);
    }
    push(rt, builder, Player::Odd, 2, &[first, end, end + 1]);
    push(rt, builder, Player::Even, 3, &[end + 2]);
    let back = first.saturating_sub(13);
    match stair {
        0 => push(rt, builder, Player::Even, 0, &[end + 2]),
        2_999 => push(rt, builder, Player::Even, 0, &[back, first]),
        _ => push(rt, builder, Player::Even, 0, &[back, first + 13]),
    }
}

// Even stays at the last vertex of the first stair, and all others fall to Even one by one.
#[test]
fn stairs_fall_one_by_one(rt: HostRuntime) {
    let mut builder = GameBuilder::new(rt.alloc());
    for stair in 0..3_000 {
        push_stair(&rt, &mut builder, stair);
    }
    let game = builder.finish().expect(&rt, "a game");
    are_won(&rt, game, EvenWins::All, false, 3_000);
}

// How many ways lead from a hub.
const WAYS: u32 = 20_000;

// A hub leads to each of so many vertices of priority 1, and these lead to each other in turn, through vertices where the play may stay. After the
// hub comes a way. All are Odd's, who can't come through a priority of 1 again and again.
#[test]
fn a_hub_of_many_ways_is_evens(rt: HostRuntime) {
    let mut builder = GameBuilder::new(rt.alloc());
    let mut ways = Vec::new(rt.alloc());
    for way in 0..WAYS {
        push(&rt, &mut builder, Player::Odd, 1, &[WAYS + way]);
        ways.push(way).expect(&rt, "memory");
    }
    push(&rt, &mut builder, Player::Odd, 0, &[WAYS]);
    for way in 1..WAYS {
        push(&rt, &mut builder, Player::Odd, 0, &[way - 1, WAYS + way]);
    }
    push(&rt, &mut builder, Player::Odd, 0, ways.as_slice());
    drop(ways);
    for v in 2 * WAYS..3 * WAYS {
        push(&rt, &mut builder, Player::Odd, 0, &[v, v + 1]);
    }
    let game = builder.finish().expect(&rt, "a game");
    are_won(&rt, game, EvenWins::All, false, WAYS);
}
