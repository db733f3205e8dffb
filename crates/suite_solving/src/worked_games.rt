// Workers on the games of formulas, over either board, from the opening table on. They are one, two or eight; two of them wait at their first
// turns until both have come.

use crate::common::*;
use crate::many_workers::{all_end_well, is_left};
use samples::meeting::Meeting;
use samples::ring_games::STAY;

/// The game of the texts, of which the opening table leaves something to lift.
fn left_game(rt: &impl Host, system: &str, formula: &str) -> Arc<Game> {
    let game = arena(rt, system, formula);
    holds!(rt; is_left(rt, &game), formula);
    game
}

fn all_end_well_on(rt: &impl Host, system: &str, formula: &str) {
    let game = left_game(rt, system, formula);
    all_end_well(rt, &game, 16);
    all_end_well(rt, &game, WORDS);
}

// Systems of two states, and formulas whose fixpoints depend on each other: two of them, of either kind outermost, and three.
#[test]
fn workers_settle_fixpoints_that_depend_on_each_other(rt: HostRuntime) {
    all_end_well_on(&rt, RING, OFTEN);
    all_end_well_on(&rt, RING, "mu Y. nu X. (<a>X || <b>Y)");
    all_end_well_on(&rt, STAY, "mu Z. nu Y. mu X. (<a>Z || <b>Y)");
}

// The game of 25,002 vertices that asks on a ring whether `a`, which one state alone has, stays ahead. Measures climb there one by one.
fn settle_a_long_ring(rt: &impl Host, shards: u32) {
    let game = long_arena(rt, AHEAD);
    holds!(rt; is_left(rt, &game));
    all_end_well(rt, &game, shards)
}

#[test]
fn workers_settle_a_long_ring_over_shards(rt: HostRuntime) {
    settle_a_long_ring(&rt, 16)
}

#[test]
fn workers_settle_a_long_ring_over_words(rt: HostRuntime) {
    settle_a_long_ring(&rt, WORDS)
}

// Two workers come to their first turns, each before the other may go on.
fn meet(rt: &impl Host, game: &Arc<Game>, shards: u32) {
    let gate = Meeting::new();
    holds!(rt; lifted(rt, game, shards, 2, &gate).is_ok());
    holds!(rt; gate.took_place());
}

#[test]
fn two_workers_meet(rt: HostRuntime) {
    let game = left_game(&rt, RING, OFTEN);
    meet(&rt, &game, 16);
    meet(&rt, &game, WORDS);
}
