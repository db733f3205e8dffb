// What the tests of several topics use. A test owns what it works on, and makes it by these; what is claimed of it is claimed by functions to which
// it is lent. So the prover has little to keep at each step.

ghost use Rattle.std.specs.Prelude.{◌≡◌, true};

use calculus::priorities::Priorities;
use engines::error::MuError;
use engines::request::{BoardKind, Check, Options, ReportForm, Wanted, Why};
use engines::writers::Writers;
use lts::Lts;
use samples::answers::answer_text;
use samples::host::Host;
use samples::texts::{ring, system_read};
use samples::writers::{AMPLE, Narrow};
use std::alloc::Global;
use std::process::Abort;

/// How a check solves where nothing else is asked for.
pub(crate) const DEFAULTS: Options = Options {
    priorities: Priorities::Nested,
    workers: 1,
    shards: 16,
    board: BoardKind::Auto,
};

/// The answer is this.
pub(crate) fn says(rt: &impl Abort, text: &str, answer: &Result<bool, MuError>, wanted: bool) {
    require(rt, matches!(answer, Ok(found) if *found == wanted), text);
}

/// The answer is a refusal with this code and place.
pub(crate) fn refuses_as(rt: &impl Host, answer: &Result<bool, MuError>, refusal: &str) {
    let text = answer_text(rt.alloc(), answer).expect(rt, "memory");
    assert_eq!(rt; text.as_str(), refusal);
}

/// These bytes are the text.
pub(crate) fn is_text(rt: &impl Abort, found: &[u8], wanted: &str) {
    require(rt, found == wanted.as_bytes(), wanted);
}

/// These bytes are the first so many of the text.
pub(crate) fn is_beginning(rt: &impl Abort, found: &[u8], wanted: &str, count: usize) {
    let is_so = found.len() == count && wanted.as_bytes().starts_with(found);
    require(rt, is_so, wanted);
}

/// The options of one worker or of two over this board.
pub(crate) fn team(are_two: bool, board: BoardKind) -> Options {
    Options {
        priorities: Priorities::Nested,
        workers: if are_two { 2 } else { 1 },
        shards: 16,
        board,
    }
}

/// A writer for each text of a check.
pub(crate) type Narrows = Writers<Narrow, Narrow, Narrow, Narrow, Narrow>;

/// Writers to which nothing was written yet, with room for every text here.
pub(crate) fn unwritten(alloc: Global) -> Narrows {
    Writers {
        game: Narrow::new(alloc, 9, AMPLE),
        even: Narrow::new(alloc, 9, AMPLE),
        odd: Narrow::new(alloc, 9, AMPLE),
        witness: Narrow::new(alloc, 9, AMPLE),
        report: Narrow::new(alloc, 9, AMPLE),
    }
}

/// No game, evidence or witness was written, but a report.
pub(crate) fn have_the_report_alone(writers: &Narrows) -> bool {
    let made = [&writers.game, &writers.even, &writers.odd, &writers.witness];
    made.iter().all(|writer| writer.taken.is_empty()) && !writers.report.taken.is_empty()
}

/// A whole report, beside it what is wanted, and no witness.
pub(crate) fn wanted(game: bool, evidence: bool) -> Wanted {
    Wanted {
        game,
        evidence,
        witness: None,
        report: ReportForm::Whole,
    }
}

/// A check by sets of states or by a game.
pub(crate) fn request(options: Options, plain: bool) -> Check<'static> {
    Check {
        system: "s",
        formula: "f",
        options,
        plain,
        strict: false,
    }
}

/// Why the answer is so is asked for.
pub(crate) fn why(options: Options) -> Why<'static> {
    Why {
        system: "s",
        formula: "f",
        options,
        limit: 200,
        strict: false,
    }
}

/// What is claimed is so, or else the test tells the text.
pub(crate) fn require(rt: &impl Abort, is_so: bool, text: &str)
    ensures { is_so ≡ true }
{
    assert!(rt; is_so, "{text}");
}

/// The system of a text.
pub(crate) fn system(rt: &impl Host, text: &str) -> Lts {
    system_read(rt.alloc(), text).expect(rt, "a system")
}

/// The text of a ring of so many states.
pub(crate) fn ring_of(rt: &impl Host, states: usize) -> String {
    ring(rt.alloc(), states).expect(rt, "memory")
}
