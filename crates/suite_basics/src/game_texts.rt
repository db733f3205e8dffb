// Texts of games in the format of PGSolver, written by hand from docs/FORMATS.md, by readers and writers that fail, are slow or are interrupted. tests/hostile
// and tests/commands have what is wrong with texts.

use crate::common::{Format, Written, is_cut, is_either, is_read, is_told, is_written};
use game::graph::Game;
use game::player::Player;
use pgsolver::{read_game, write_game};
use samples::games::{GameRow, game_of_rows};
use samples::readers::Halting;
use samples::writers::Narrow;
use std::alloc::{AllocError, Global};
use std::io::Read;

// The canonical text of what is read, or the refusal.
struct Games;

impl Format for Games {
    fn shown<R: Read + Drop>(&self, alloc: Global, reader: R) -> Result<String, AllocError> {
        match read_game(alloc, reader) {
            Ok(game) => text_of(alloc, &game),
            Err(error) => error.to_string(alloc),
        }
    }
}

/// The text of a game, which has 8,192 bytes at most.
pub(crate) fn text_of(alloc: Global, game: &Game) -> Result<String, AllocError> {
    let mut out = Narrow::ready(alloc, 8192)?;
    let fault = write_game(game, &mut out).is_err();
    match String::from_utf8(out.taken) {
        Ok(text) if !fault => Ok(text),
        _ => String::from_str(alloc, "a fault"),
    }
}

const TWO: &str = "parity 1;\n0 0 0 1;\n1 1 1 0;\n";

// Texts, and what is shown of each.
static TEXTS: [(&str, &str); 4] = [
    (TWO, TWO),
    // The lines in another order, blanks, names, a successor that stands twice, and no end of the last line.
    (" parity1 ; \n\t1  1\t1 0 , 0,0;\r\n0 0 0 1\"x;y\" ;", TWO),
    ("parity 0;\n0 40 0 4294967296;", "G4 at line 2"),
    ("parity 1;\n0 0 0 1;\n0 0 0 1;", "G3 at line 3"),
];

// An interrupted read is tried again.
#[test]
fn texts_are_read(rt: HostRuntime) {
    for (text, wanted) in &TEXTS {
        is_read(&rt, &Games, text, wanted);
    }
    is_told(
        &rt,
        Games.shown(rt.alloc(), Halting::whole(TWO.as_bytes())),
        TWO,
    );
}

#[test]
fn a_failed_read_is_told_wherever_it_comes(rt: HostRuntime) {
    is_cut(&rt, &Games, TWO, 5, "G7");
}

// Each growth may be refused: then nothing but that is told. tests/refusals refuses each in turn.
#[test]
fn out_of_memory_is_told_as_such(rt: HostRuntime) {
    let text = b"parity 2;\n2 0 0 0,1;\n0 1 1 2;\n1 2 0 1 \"x\";\n".as_slice();
    let wanted = "parity 2;\n0 1 1 2;\n1 2 0 1;\n2 0 0 0,1;\n";
    is_either(&rt, Games.shown(rt.alloc(), text).ok(), wanted, "G8");
}

static ROWS: [GameRow; 2] = [(Player::Even, 0, &[1]), (Player::Odd, 1, &[0])];

impl Written for Game {
    fn is_written(&self, out: &mut Narrow) -> bool {
        write_game(self, out).is_ok()
    }
}

#[test]
fn texts_are_written_as_far_as_there_is_room(rt: HostRuntime) {
    let game = game_of_rows(&rt, &ROWS).expect(&rt, "a game");
    is_written(&rt, &game, TWO);
    drop(game);
}
