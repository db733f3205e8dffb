// Evidence: what is made of all that each player wins, its texts, and what a checker says of them. These are the worked examples of docs/FORMATS.md and two
// small games, all worked out by hand by Jurdziński 2000. tests/commands and tests/hostile ask the built program for many more verdicts and refusals.

ghost use Rattle.std.specs.Prelude.{◌≡◌};

use crate::common::{Format, Written, even_of, is_cut, is_read, is_written, odd_of, ring_game};
use evidence::evidence::Evidence;
use evidence::reader::read_evidence;
use evidence::verdict::{Both, Verdict};
use evidence::verify::{check_both, verify};
use evidence::writer::{write_both, write_evidence, write_verdict};
use game::dual::{dual, greatest_priority};
use game::graph::{Game, GameBuilder};
use game::player::Player;
use samples::games::{GameRow, game_of_rows, push_row};
use samples::holds;
use samples::host::Host;
use samples::ring_games::{EVEN_OF_OFTEN_A, EVEN_OF_STEP, ODD_OF_OFTEN_A, ODD_OF_STEP};
use samples::texts::repeated_text;
use samples::writers::{AMPLE, Narrow};
use std::alloc::{AllocError, Global};
use std::io::Read;
use std::process::Abort;

// The games of these have six vertices and sixteen.
const STEP: &str = "<a>true";

const OFTEN_A: &str = "nu X. mu Y. (<a>X || <b>Y)";

impl Written for Evidence {
    fn is_written(&self, out: &mut Narrow) -> bool {
        write_evidence(self, out).is_ok()
    }
}

// Both pieces are good, none is of both players, and they are of two players whom no vertex escapes.
fn are_both(rt: &impl Abort, game: &Game, even: &Evidence, odd: &Evidence)
    requires even { even.now.game ≡ game.now }
    requires odd { odd.now.game ≡ game.now }
{
    holds!(rt; even.player() == Player::Even && odd.player() == Player::Odd);
    holds!(rt; verify(game, even) == Verdict::Good && verify(game, odd) == Verdict::Good);
    holds!(rt; check_both(game, even, even) == Both::OnePlayer);
    holds!(rt; check_both(game, odd, odd) == Both::OnePlayer);
    holds!(rt; check_both(game, even, odd) == Both::Yes);
    holds!(rt; check_both(game, odd, even) == Both::Yes);
}

// What is made of each player is good, and is written so.
fn gives_both(rt: &impl Host, game: Game, even_text: &str, odd_text: &str) {
    let even = even_of(rt, &game);
    holds!(rt; greatest_priority(&game) <= 31);
    let odd = odd_of(rt, &game);
    are_both(rt, &game, &even, &odd);
    is_written(rt, &even, even_text);
    is_written(rt, &odd, odd_text);
    drop(odd);
    drop(even);
    drop(game);
}

#[test]
fn evidence_of_the_examples(rt: HostRuntime) {
    gives_both(&rt, ring_game(&rt, STEP), EVEN_OF_STEP, ODD_OF_STEP);
    gives_both(
        &rt,
        ring_game(&rt, OFTEN_A),
        EVEN_OF_OFTEN_A,
        ODD_OF_OFTEN_A,
    );
}

// Small games, and the evidence of each.
static SMALL: [(&[GameRow], &str, &str); 2] = [
    (
        &[
            (Player::Even, 0, &[0, 1]),
            (Player::Odd, 1, &[0, 1]),
            (Player::Odd, 2, &[0, 2]),
        ],
        "evidence even\n0 0 (0)\n2 - (0)\n",
        "evidence odd\n1 1 (0,0)\n",
    ),
    (
        &[
            (Player::Odd, 1, &[1, 2]),
            (Player::Even, 0, &[0]),
            (Player::Even, 0, &[2]),
        ],
        "evidence even\n2 2 (0)\n",
        "evidence odd\n0 1 (0)\n1 - (1)\n",
    ),
];

#[test]
fn evidence_of_small_games(rt: HostRuntime) {
    for (rows, even, odd) in &SMALL {
        let game = game_of_rows(&rt, rows).expect(&rt, "a game");
        gives_both(&rt, game, even, odd);
    }
}

// Its lines stand in another order than they are written in, and its last end is missing.
const TURNED: &str = "evidence even\n5 0 (0)\n0 0 (0)\n3 0 (0)\n2 5 (0)";

// What a checker says of evidence, and of both pieces. A vertex of the set goes on to another one, and has this rank; another one isn't in the set.
#[test]
fn verdicts_of_a_step(rt: HostRuntime) {
    let game = ring_game(&rt, STEP);
    let even = read_evidence(rt.alloc(), TURNED.as_bytes(), &game).expect(&rt, "even");
    let odd = read_evidence(rt.alloc(), ODD_OF_STEP.as_bytes(), &game).expect(&rt, "odd");
    holds!(&rt; even.len() == 4 && odd.len() == 2);
    let mut out = Narrow::new(rt.alloc(), 3, AMPLE);
    holds!(&rt; write_verdict(&even, verify(&game, &even), &mut out).is_ok());
    holds!(&rt; write_both(&even, &odd, check_both(&game, &even, &odd), &mut out).is_ok());
    let wanted = b"verified even 4 of 6\nverified both even 4 odd 2 of 6\n".as_slice();
    holds!(&rt; out.taken.as_slice() == wanted);
    drop(out);
    is_written(&rt, &even, EVEN_OF_STEP);
    holds!(&rt; 1 < game.vertices());
    holds!(&rt; 2 < game.vertices());
    holds!(&rt; even.has(2) && !even.has(1) && even.get(1).is_none());
    let entry = even.get(2).expect(&rt, "an entry");
    holds!(&rt; entry.next == Some(5) && entry.rank == [0].as_slice());
    drop(odd);
    drop(even);
    drop(game);
}

// That evidence in a game is read, or the refusal.
#[derive(Drop)]
struct EvidenceIn<'a> {
    game: &'a Game,
}

impl Format for EvidenceIn<'_> {
    fn shown<R: Read + Drop>(&self, alloc: Global, reader: R) -> Result<String, AllocError> {
        match read_evidence(alloc, reader, self.game) {
            Ok(_) => String::from_str(alloc, "read"),
            Err(error) => error.to_string(alloc),
        }
    }
}

// Texts that have one part 300 times, and how they are refused. A number of any length is a number.
static REFUSED: [(&str, &str, &str, &str); 16] = [
    ("", "", "", "E1 at line 1"),
    ("evidence even", " ", "\n", "E1 at line 1"),
    ("evidence eve", "n", "\n", "E1 at line 1"),
    ("evidence even\r\n", "", "", "E1 at line 1"),
    ("evidence even\n5 13 (16777217)\n", "", "", "E2 at line 2"),
    ("evidence even\n5 13 (0)\r\n", "", "", "E2 at line 2"),
    ("evidence odd\n1 - (0)\n", "", "", "E2 at line 2"),
    ("evidence even\n0 0 (0)\n0 0 (1)\n", "", "", "E3 at line 3"),
    ("evidence even\n5", "7", " 13 (0)\n", "E3 at line 2"),
    ("evidence even\n5 1", "3", " (0)\n", "E3 at line 2"),
    ("evidence even\n5", "7", " 13 (0)", "E3 at line 2"),
    ("evidence even\n0", "7", " 13 (0)\n", "E2 at line 2"),
    ("evidence even\n5", "7", " 13 (0\n", "E2 at line 2"),
    ("evidence even\n5 13 (1", "0", ")\n", "E2 at line 2"),
    ("evidence even\n5 13 (0)", " ", "\n", "E2 at line 2"),
    ("evidence even\n5 13", "-", " (0)\n", "E2 at line 2"),
];

#[test]
fn texts_are_refused_in_any_pieces(rt: HostRuntime) {
    let game = ring_game(&rt, OFTEN_A);
    for (front, part, back, wanted) in &REFUSED {
        let text = repeated_text(rt.alloc(), front, part, 300, back).expect(&rt, "memory");
        is_read(&rt, &EvidenceIn { game: &game }, &text, wanted);
        drop(text);
    }
    drop(game);
}

// What evidence is read doesn't depend on the pieces in which it comes, and each read fails in turn.
#[test]
fn evidence_is_read_by_pieces(rt: HostRuntime) {
    let game = ring_game(&rt, OFTEN_A);
    let format = EvidenceIn { game: &game };
    is_read(&rt, &format, EVEN_OF_OFTEN_A, "read");
    is_cut(&rt, &format, EVEN_OF_OFTEN_A, 7, "E4");
    drop(game);
}

#[test]
fn the_dual_of_the_example(rt: HostRuntime) {
    let game = ring_game(&rt, OFTEN_A);
    holds!(&rt; greatest_priority(&game) <= 31);
    let turned = dual(rt.alloc(), &game).expect(&rt, "memory");
    drop(game);
    holds!(&rt; greatest_priority(&turned) == 3 && turned.vertices() == 16);
    holds!(&rt; turned.owner(11) == Player::Odd && turned.priority(9) == 3);
    holds!(&rt; turned.successors(11) == [12, 14].as_slice());
    drop(turned);
}

// Each vertex leads to half its number, and so each to 0, which leads to itself with priority 0: Even wins all.
fn halving(rt: &impl Host, vertices: u32) -> Game {
    let mut builder = GameBuilder::new(rt.alloc());
    for v in 0..vertices {
        push_row(&mut builder, Player::Odd, u8::from(v > 0), &[v / 2]).expect(rt, "memory");
    }
    builder.finish().expect(rt, "a game")
}

#[test]
fn a_million_vertices_are_verified(rt: HostRuntime) {
    let game = halving(&rt, 1_000_000);
    holds!(&rt; greatest_priority(&game) == 1);
    let (even, odd) = (even_of(&rt, &game), odd_of(&rt, &game));
    holds!(&rt; even.len() == 1_000_000 && odd.len() == 0);
    are_both(&rt, &game, &even, &odd);
    drop(odd);
    drop(even);
    drop(game);
}
