// What the tests of several topics use. A value is made by a call and lent to whatever claims something of it. One that has many lists is given to
// `drop` where it ends, which lets all of them go in one step of a proof.

ghost use Rattle.std.specs.Prelude.{◌≡◌, ◌≤◌, true};
ghost use Rattle.evidence.specs.Evidence.{IsGood};
ghost use Rattle.game.specs.Game.{greatest};
ghost use Rattle.calculus.specs.Normal.{normal_nodes};
ghost use Rattle.game.specs.Arena.{arena};

use calculus::closed::Closed;
use calculus::form::Normal;
use calculus::limits::GREATEST_PRIORITY;
use evidence::evidence::Evidence;
use evidence::make::{even_evidence, odd_evidence};
use game::build::build;
use game::graph::Game;
use lts::Lts;
use measures::settle::solve_one;
use samples::holds;
use samples::host::Host;
use samples::readers::SlowReader;
use samples::texts::{RING, form_of, parsed_formula, system_read};
use samples::writers::{AMPLE, AtEnd, Narrow};
use std::alloc::{AllocError, Global};
use std::io::Read;
use std::process::Abort;

/// What a reader may give at a time: a byte, less than a line, and as much as a block has.
pub(crate) static STEPS: [usize; 3] = [1, 7, 8192];

/// What has a text.
pub(crate) trait Written {
    /// Whether the text is written whole.
    fn is_written(&self, out: &mut Narrow) -> bool;
}

// A writer with so much room, which takes so much at a time, has as much of the text as it could take, and a fault is told unless that is all.
fn is_taken<W: Written>(rt: &impl Host, what: &W, text: &str, mut out: Narrow, room: usize) {
    let is_whole = what.is_written(&mut out);
    let count = room.min(text.len());
    let is_so = out.taken.len() == count && text.as_bytes().starts_with(out.taken.as_slice());
    holds!(rt; is_so && is_whole == (room >= text.len()), text);
    drop(out);
}

/// This is written, whatever a writer takes at a time, and also where it is interrupted. One without room for the whole is given a beginning, however it
/// goes on then.
pub(crate) fn is_written<W: Written>(rt: &impl Host, what: &W, text: &str) {
    for step in &STEPS {
        is_taken(rt, what, text, Narrow::new(rt.alloc(), *step, AMPLE), AMPLE);
    }
    let mut halting = Narrow::new(rt.alloc(), 4, AMPLE);
    halting.interrupts = true;
    is_taken(rt, what, text, halting, AMPLE);
    for room in 0..text.len() {
        let mut out = Narrow::new(rt.alloc(), 4, room);
        if room % 2 == 0 {
            out.at_end = AtEnd::TakesNothing;
        }
        is_taken(rt, what, text, out, room);
    }
}

/// What is told, where memory suffices for it, is one of two texts.
pub(crate) fn is_either(rt: &impl Abort, told: Option<String>, first: &str, second: &str) {
    if let Some(told) = told {
        let told = told.as_str();
        holds!(rt; told == first || told == second, told);
    }
}

/// What is told is this.
pub(crate) fn is_told(rt: &impl Abort, told: Result<String, AllocError>, wanted: &str) {
    assert_eq!(rt; told.expect(rt, "memory").as_str(), wanted);
}

/// The game of a formula's text on the ring of two states.
pub(crate) fn ring_game(rt: &impl Host, formula: &str) -> Game {
    let lts = system(rt, RING);
    let form = form(rt, formula);
    let game = game(rt, &lts, &form);
    drop(form);
    drop(lts);
    game
}

/// Even's evidence of a game.
pub(crate) fn even_of(rt: &impl Host, game: &Game) -> Evidence
    ensures game { result.game ≡ game.now }
    ensures good { IsGood game.now result.evidence }
{
    let settled = solve_one(rt.alloc(), game).expect(rt, "memory");
    let even = even_evidence(rt.alloc(), game, &settled).expect(rt, "memory");
    drop(settled);
    even
}

/// Odd's evidence of a game.
pub(crate) fn odd_of(rt: &impl Host, game: &Game) -> Evidence
    requires low { greatest game.now ≤ GREATEST_PRIORITY }
    ensures game { result.game ≡ game.now }
    ensures good { IsGood game.now result.evidence }
{
    odd_evidence(rt.alloc(), game).expect(rt, "memory")
}

/// What is claimed is so, or else the test tells the text.
pub(crate) fn require(rt: &impl Abort, is_so: bool, text: &str)
    ensures { is_so ≡ true }
{
    assert!(rt; is_so, "{text}");
}

/// A format of texts: what is shown of what a reader gives, or the refusal.
pub(crate) trait Format {
    fn shown<R: Read + Drop>(&self, alloc: Global, reader: R) -> Result<String, AllocError>;
}

/// This is shown of a text, in whatever pieces it comes.
pub(crate) fn is_read<F: Format>(rt: &impl Host, format: &F, text: &str, wanted: &str) {
    for step in &STEPS {
        let reader = SlowReader::whole(text.as_bytes(), *step);
        is_told(rt, format.shown(rt.alloc(), reader), wanted);
    }
}

/// A text that is good as far as it goes is refused for the failed read, wherever that comes.
pub(crate) fn is_cut<F: Format>(rt: &impl Host, format: &F, text: &str, step: usize, told: &str) {
    for given in 0..=text.len() {
        let reader = SlowReader::failing(text.as_bytes(), step, given);
        is_told(rt, format.shown(rt.alloc(), reader), told);
    }
}

/// The system of a text.
pub(crate) fn system(rt: &impl Host, text: &str) -> Lts {
    system_read(rt.alloc(), text).expect(rt, "a system")
}

/// The formula of a text.
pub(crate) fn formula(rt: &impl Host, text: &str) -> Closed {
    parsed_formula(rt.alloc(), text).expect(rt, "a formula")
}

/// The normal form of a text's formula.
pub(crate) fn form(rt: &impl Host, text: &str) -> Normal {
    form_of(rt.alloc(), text).expect(rt, "a normal form")
}

/// The game of a system and a normal form.
pub(crate) fn game(rt: &impl Host, system: &Lts, form: &Normal) -> Game
    ensures game { result ≡ arena system.now.system (normal_nodes form.now) }
    ensures low { greatest result ≤ GREATEST_PRIORITY }
{
    build(rt, rt.alloc(), system, form).expect(rt, "a game")
}
