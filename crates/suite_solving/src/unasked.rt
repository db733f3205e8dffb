// What takes no memory. Of two tests that stand side by side, as `x` and `x_and_y`, the first makes something, and the second makes it and uses it:
// tests/refusals counts how often both request memory, which has to be the same. Where it is `x_with_y` the second may request it 199 times more.

ghost use Rattle.std.specs.Prelude.{◌≡◌, ◌<◌, length};

use crate::common::*;
use evidence::evidence::Evidence;
use evidence::reader::read_evidence;
use evidence::verdict::{Both, Verdict};
use evidence::verify::{check_both, verify};
use evidence::writer::write_evidence;
use game::dual::{dual, greatest_priority};
use lts::read_aut;
use lts::writer::write_aut;
use pgsolver::write_game;
use samples::readers::SlowReader;
use samples::texts::{repeated_text, system_read, unseeded};
use tables::shard::Shard;

// A table of a game, which is settled or left as it is.
fn of_table(rt: &impl Host, settles: bool) {
    let game = game_of(rt, TWO_STEPS.as_bytes());
    let mut table = opened(rt, &game);
    if settles {
        settle(&game, &mut table);
    }
    holds!(rt; is_settled(&game, &table) == settles);
}

#[test]
fn a_table_is_made(rt: HostRuntime) {
    of_table(&rt, false)
}

#[test]
fn a_table_is_made_and_settled(rt: HostRuntime) {
    of_table(&rt, true)
}

// A shard of every second vertex, which is raised at one to the settled table's top or left as it is.
fn of_shard<K: GameName>(rt: &impl Host, game: &Game, source: &PlainTable, raises: bool)
    requires named { game.now ≡ K.game }
    requires same { source.now.game ≡ K.game }
    requires vertex { 2 < length source.now.game.vertices }
{
    let mut shard = Shard::<K>::new(rt.alloc(), game, 0, 2).expect(rt, "memory");
    holds!(rt; !shard.has(3));
    holds!(rt; shard.has(2));
    let top = source.value(2);
    holds!(rt; top.is_top() && !shard.read(2).is_top());
    if raises {
        holds!(rt; shard.raise(2, &top));
        holds!(rt; shard.read(2).is_top());
    }
}

// Of a game.
fn of_settled(rt: &impl Host, raises: bool) {
    let game = game_of(rt, TWO_STEPS.as_bytes());
    let source = settled(rt, &game);
    holds!(rt; 2 < game.vertices());
    of_shard::<Brand>(rt, &game, &source, raises)
}

#[test]
fn a_shard_is_made(rt: HostRuntime) {
    of_settled(&rt, false)
}

#[test]
fn a_shard_is_made_and_raised(rt: HostRuntime) {
    of_settled(&rt, true)
}

// Odd leads her loop of priority 2 by way of Even's of priority 1, and both are Even's: the evidence is written out by hand.
const GAME: &str = "parity 1;\n0 2 0 1;\n1 1 1 0;\n";

const EVEN: &str = "evidence even\n0 1 (0)\n1 - (1)\n";

const ODD: &str = "evidence odd\n";

fn evidence_read(rt: &impl Host, game: &Game, text: &str) -> Evidence
    ensures { result.game ≡ game.now }
{
    read_evidence(rt.alloc(), text.as_bytes(), game).expect(rt, "evidence")
}

// Evidence of both players, which is checked or left as it is.
fn of_evidence(rt: &impl Host, checks: bool) {
    let game = game_of(rt, GAME.as_bytes());
    let even = evidence_read(rt, &game, EVEN);
    let odd = evidence_read(rt, &game, ODD);
    if checks {
        holds!(rt; verify(&game, &even) == Verdict::Good);
        holds!(rt; check_both(&game, &even, &odd) == Both::Yes);
    }
}

#[test]
fn evidence_is_made(rt: HostRuntime) {
    of_evidence(&rt, false)
}

#[test]
fn evidence_is_made_and_checked(rt: HostRuntime) {
    of_evidence(&rt, true)
}

// A system, a game and evidence, and room for their texts, which are written one behind another or not.
fn of_texts(rt: &impl Host, writes: bool) {
    let system = system_read(rt.alloc(), RING).expect(rt, "a system");
    let game = game_of(rt, GAME.as_bytes());
    let even = evidence_read(rt, &game, EVEN);
    let mut out = Vec::with_capacity(rt.alloc(), 1_000).expect(rt, "memory");
    if writes {
        holds!(rt; write_aut(&system, &mut out).is_ok());
        holds!(rt; write_game(&game, &mut out).is_ok());
        holds!(rt; write_evidence(&even, &mut out).is_ok());
        holds!(rt; out.len() == RING.len() + GAME.len() + EVEN.len());
        holds!(rt; out.starts_with(RING.as_bytes()) && out.ends_with(EVEN.as_bytes()));
    }
}

#[test]
fn texts_are_made(rt: HostRuntime) {
    of_texts(&rt, false)
}

#[test]
fn texts_are_made_and_written(rt: HostRuntime) {
    of_texts(&rt, true)
}

// A text with so many blanks before its transition.
fn system_text(rt: &impl Host, blanks: usize) -> String {
    let text = repeated_text(rt.alloc(), "des (0,1,2)\n", " ", blanks, "(0,\"a\",1)\n");
    text.expect(rt, "memory")
}

// A text with many blanks and one without, of which one is read, some bytes at a time.
fn of_system(rt: &impl Host, has_blanks: bool, step: usize) {
    let (blanks, none) = (system_text(rt, 100_000), system_text(rt, 0));
    let text = if has_blanks { &blanks } else { &none };
    let reader = SlowReader::whole(text.as_bytes(), step);
    let system = read_aut(rt.alloc(), unseeded(), reader).expect(rt, "a system");
    holds!(rt; system.states() == 2 && system.all().len() == 1);
}

#[test]
fn a_system_is_read(rt: HostRuntime) {
    of_system(&rt, false, 1_000_000)
}

#[test]
fn a_system_is_read_and_comes_byte_by_byte(rt: HostRuntime) {
    of_system(&rt, false, 1)
}

#[test]
fn a_system_is_read_and_has_many_blanks(rt: HostRuntime) {
    of_system(&rt, true, 1_000_000)
}

#[test]
fn a_system_is_read_and_has_many_blanks_in_pieces(rt: HostRuntime) {
    of_system(&rt, true, 7)
}

// The text of a game of 25,002 vertices, which is read; and its dual, or not.
fn of_game(rt: &impl Host, has_dual: bool) {
    let arena = long_arena(rt, AHEAD);
    let mut text = Vec::new(rt.alloc());
    holds!(rt; write_game(&arena, &mut text).is_ok());
    let game = game_of(rt, text.as_slice());
    holds!(rt; game.vertices() == 25_002);
    holds!(rt; greatest_priority(&game) <= 31);
    if has_dual {
        let dual = dual(rt.alloc(), &game).expect(rt, "memory");
        holds!(rt; dual.vertices() == 25_002);
    }
}

#[test]
fn a_game_is_read(rt: HostRuntime) {
    of_game(&rt, false)
}

#[test]
fn a_game_is_read_with_its_dual(rt: HostRuntime) {
    of_game(&rt, true)
}
