// What the tests of several topics use. A value that has many lists is given to `drop` where it ends, which lets all of them go in one step of a proof.

ghost use Rattle.std.specs.Prelude.{◌≡◌, true};

use evidence::decide::certified_winners;
use game::graph::Game;
use measures::settle::{even_wins, solve_one};
use samples::host::Host;
use std::process::Abort;

/// The vertices that Even wins, by evidence that is guessed and that the checker accepts.
pub(crate) fn certified(rt: &impl Host, game: &Game) -> Vec<bool> {
    certified_winners(rt.alloc(), game, None).expect(rt, "good evidence")
}

/// Whether there is a mark at a vertex.
pub(crate) fn is_marked(marks: &[bool], v: u32) -> bool {
    let place = v as usize;
    place < marks.len() && marks[place]
}

/// Whether lifting says of all vertices what the marks say.
pub(crate) fn is_lifted(rt: &impl Host, game: &Game, marks: &[bool]) -> bool {
    let settled = solve_one(rt.alloc(), game).expect(rt, "memory");
    let mut is_lifted = true;
    for v in 0..game.vertices() {
        is_lifted &= is_marked(marks, v) == even_wins(&settled, v);
    }
    drop(settled);
    is_lifted
}

/// What is claimed is so, or else the test tells the text.
pub(crate) fn require(rt: &impl Abort, is_so: bool, text: &str)
    ensures { is_so ≡ true }
{
    assert!(rt; is_so, "{text}");
}

/// What is claimed of a number is so, or else the test tells the text and the number.
pub(crate) fn holds_of(rt: &impl Abort, is_so: bool, text: &str, number: u32) {
    assert!(rt; is_so, "{text} {number}");
}
