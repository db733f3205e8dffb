// Games that were worked out by hand, by their texts in PGSolver's format.

ghost use Rattle.std.specs.Prelude.{◌<◌, ◌≤◌};

use crate::common::{form, game, is_either, is_written, system};
use crate::game_texts::text_of;
use game::build::build_split;
use game::error::BuildError;
use game::graph::Game;
use game::player::Player;
use samples::games::{GameRow, made};
use samples::holds;
use samples::host::Host;
use samples::ring_games::STEP;
use samples::texts::{RING, form_of, system_read};
use std::alloc::{AllocError, Global};

// The game, or the refusal.
fn shown(alloc: Global, game: Result<Game, BuildError>) -> Result<String, AllocError> {
    match game {
        Ok(game) => text_of(alloc, &game),
        Err(error) => error.to_string(alloc),
    }
}

// The game of `<a>true` on the ring, where the states are cut into so many ranges, or the refusal; `None` also where memory runs out for the texts.
fn split(rt: &impl Host, ranges: u32) -> Option<String>
    requires { 1 ≤ ranges }
{
    let lts = system_read(rt.alloc(), RING).ok()?;
    let form = form_of(rt.alloc(), "<a>true")?;
    let game = build_split(rt, rt.alloc(), &lts, &form, ranges, None);
    shown(rt.alloc(), game).ok()
}

// Each growth may be refused: then nothing but that is told. tests/refusals refuses each in turn.
#[test]
fn out_of_memory_for_any_split_is_told_as_such(rt: HostRuntime) {
    for ranges in 1..3 {
        is_either(&rt, split(&rt, ranges), STEP, "B2");
    }
}

// The vertex of each state with each node.
#[test]
fn vertices_are_known_by_their_names(rt: HostRuntime) {
    let (lts, form) = (system(&rt, RING), form(&rt, "<a>true"));
    let game = game(&rt, &lts, &form);
    holds!(&rt; lts.states() == 2 && form.count() == 2);
    holds!(&rt; game.vertex_of(0, 1) == 3 && game.vertex_of(1, 0) == 4);
    let rows = game.state_rows(1);
    holds!(&rt; rows.start == 4 && rows.end == 6);
    is_written(&rt, &game, STEP);
    drop(game);
    drop(form);
    drop(lts);
}

const LAST: GameRow = (Player::Odd, 1, &[1]);

// Of two vertices the second leads to itself, and the first to it and itself, or else its priority is too great, or it leads nowhere.
static GAMES: [(bool, &[GameRow]); 3] = [
    (true, &[(Player::Even, 0, &[0, 1]), LAST]),
    (false, &[(Player::Even, 33, &[0, 1]), LAST]),
    (false, &[(Player::Even, 0, &[]), LAST]),
];

#[test]
fn what_is_no_game_is_told(rt: HostRuntime) {
    for (wanted, rows) in &GAMES {
        let game = made(&rt, rows).expect(&rt, "memory");
        holds!(&rt; game.is_some_and(|game| game.count(1) == 1) == *wanted);
    }
}
