// Checks as a library offers them: by sets of states, by a game on one thread, and by workers over boards, with a gate and without. The texts were worked
// out by hand. tests/answers asks the built program for more of them, and for what is refused.

use crate::common::{DEFAULTS, is_beginning, is_text, refuses_as, says, team};
use engines::error::MuError;
use engines::named::{check, check_gated, check_one, check_plain};
use engines::request::{BoardKind, Options};
use engines::status::status;
use engines::writers::EvidenceWriters;
use samples::holds;
use samples::host::Host;
use samples::meeting::Meeting;
use samples::ring_games::{EVEN_OF_OFTEN_A, ODD_OF_OFTEN_A, OFTEN_A};
use samples::texts::{RING, unseeded};
use samples::writers::{AtEnd, Narrow};
use std::io::Write;
use std::sync::atomic::{AtomicU64, Ordering};
use workers::gate::Gate;

/// Whether each state does `a` again and again: both states of the ring do.
const FORMULA: &str = "nu X. mu Y. (<a>X || <b>Y)";

const REPORT: &str =
    "system 2 states 2 transitions initial 0\nformula (nu X. (mu Y. (<a>X || <b>Y)))\nyes 2 of 2\ninitial yes\n0 yes\n1 yes\n";

/// The ways to check.
#[derive(Clone, Copy)]
enum Engine {
    Plain,
    One,
    Team(Options),
}

/// All of them: by sets of states, on one thread, and by two workers.
fn engines() -> [Engine; 3] {
    [
        Engine::Plain,
        Engine::One,
        Engine::Team(team(true, BoardKind::Auto)),
    ]
}

/// A check that writes its report alone.
fn report_by<W: Write>(rt: &impl Host, engine: Engine, out: &mut W) -> Result<bool, MuError> {
    let (alloc, hasher) = (rt.alloc(), unseeded());
    let (system, formula) = (RING.as_bytes(), FORMULA.as_bytes());
    let game: Option<&mut Vec<u8>> = None;
    let none: EvidenceWriters<'_, Vec<u8>, Vec<u8>> = EvidenceWriters::Neither;
    match engine {
        Engine::Plain => check_plain(alloc, hasher, system, formula, out),
        Engine::One => check_one(
            rt, alloc, hasher, system, formula, &DEFAULTS, out, game, none,
        ),
        Engine::Team(team) => check(rt, alloc, hasher, system, formula, &team, out, game, none),
    }
}

/// The engine reports so, and the answer has its status.
fn is_reported(rt: &impl Host, engine: Engine) {
    let mut out = Vec::new(rt.alloc());
    let answer = report_by(rt, engine, &mut out);
    says(rt, "the report", &answer, true);
    holds!(rt; status(&answer) == 0);
    is_text(rt, out.as_slice(), REPORT);
}

#[test]
fn each_engine_reports(rt: HostRuntime) {
    for engine in engines() {
        is_reported(&rt, engine);
    }
}

/// A writer with this little room has a beginning of the report.
fn is_cut(rt: &impl Host, engine: Engine, room: usize) {
    let mut out = Narrow::new(rt.alloc(), 7, room);
    out.at_end = if room % 2 == 0 {
        AtEnd::Fails
    } else {
        AtEnd::TakesNothing
    };
    let answer = report_by(rt, engine, &mut out);
    holds!(rt; status(&answer) == 3);
    refuses_as(rt, &answer, "W1");
    is_beginning(rt, out.taken.as_slice(), REPORT, room);
}

#[test]
fn a_write_fault_leaves_a_beginning(rt: HostRuntime) {
    for engine in engines() {
        for room in 0..REPORT.len() {
            is_cut(&rt, engine, room);
        }
    }
}

/// The texts that a check writes beside its report. Their writers have the memory for all that is written here.
#[derive(Drop)]
struct LibraryTexts {
    game: Narrow,
    even: Narrow,
    odd: Narrow,
    report: Narrow,
}

fn ready(rt: &impl Host) -> Narrow {
    Narrow::ready(rt.alloc(), 1_000).expect(rt, "memory")
}

impl LibraryTexts {
    fn new(rt: &impl Host) -> LibraryTexts {
        LibraryTexts {
            game: ready(rt),
            even: ready(rt),
            odd: ready(rt),
            report: ready(rt),
        }
    }

    /// They are those of the ring on which each state does `a` again and again, or nothing was written.
    fn are(&self, rt: &impl Host, are_whole: bool) {
        for (writer, text) in [
            (&self.game, OFTEN_A),
            (&self.even, EVEN_OF_OFTEN_A),
            (&self.odd, ODD_OF_OFTEN_A),
            (&self.report, REPORT),
        ] {
            let wanted = if are_whole { text } else { "" };
            is_text(rt, writer.taken.as_slice(), wanted);
        }
    }
}

/// A check on the ring writes all of them on one thread.
fn check_alone(rt: &impl Host, texts: &mut LibraryTexts) -> Result<bool, MuError> {
    let (system, formula) = (RING.as_bytes(), FORMULA.as_bytes());
    let evidence = EvidenceWriters::Both(&mut texts.even, &mut texts.odd);
    let (out, game) = (&mut texts.report, Some(&mut texts.game));
    let (alloc, hasher) = (rt.alloc(), unseeded());
    check_one(
        rt, alloc, hasher, system, formula, &DEFAULTS, out, game, evidence,
    )
}

/// By these options.
fn check_by(rt: &impl Host, team: &Options, texts: &mut LibraryTexts) -> Result<bool, MuError> {
    let (system, formula) = (RING.as_bytes(), FORMULA.as_bytes());
    let evidence = EvidenceWriters::Both(&mut texts.even, &mut texts.odd);
    let (out, game) = (&mut texts.report, Some(&mut texts.game));
    let (alloc, hasher) = (rt.alloc(), unseeded());
    check(
        rt, alloc, hasher, system, formula, team, out, game, evidence,
    )
}

#[test]
fn every_text_is_written(rt: HostRuntime) {
    let mut alone = LibraryTexts::new(&rt);
    says(&rt, "alone", &check_alone(&rt, &mut alone), true);
    alone.are(&rt, true);
    let mut by_two = LibraryTexts::new(&rt);
    says(
        &rt,
        "by two",
        &check_by(&rt, &team(true, BoardKind::Auto), &mut by_two),
        true,
    );
    by_two.are(&rt, true);
}

/// Two workers over this board write all texts, or there is no answer and nothing is written.
fn writes_all_or_nothing(rt: &impl Host, board: BoardKind) {
    let mut texts = LibraryTexts::new(rt);
    let is_whole = check_by(rt, &team(true, board), &mut texts).is_ok();
    texts.are(rt, is_whole);
}

/// Each growth may be refused: nothing is written then. tests/refusals refuses each in turn.
#[test]
fn workers_of_a_check_want_memory_before_they_write(rt: HostRuntime) {
    writes_all_or_nothing(&rt, BoardKind::Locked);
    writes_all_or_nothing(&rt, BoardKind::Packed);
}

/// A team before whose turns the gate stands writes all texts.
fn passes<G: Gate + Sync>(rt: &impl Host, team: &Options, gate: &G) {
    let mut texts = LibraryTexts::new(rt);
    let answer = check_gated(
        rt,
        rt.alloc(),
        unseeded(),
        RING.as_bytes(),
        FORMULA.as_bytes(),
        team,
        &mut texts.report,
        Some(&mut texts.game),
        EvidenceWriters::Both(&mut texts.even, &mut texts.odd),
        gate,
    );
    says(rt, "behind a gate", &answer, true);
    texts.are(rt, true);
}

/// Two workers over this board meet at their first turns.
fn meet(rt: &impl Host, board: BoardKind) {
    let gate = Meeting::new();
    passes(rt, &team(true, board), &gate);
    holds!(rt; gate.took_place());
}

#[test]
fn two_workers_of_a_check_meet(rt: HostRuntime) {
    meet(&rt, BoardKind::Locked);
    meet(&rt, BoardKind::Packed);
    meet(&rt, BoardKind::Auto);
}

/// Counts turns.
#[derive(Drop)]
struct TurnCount {
    count: AtomicU64,
}

impl Gate for TurnCount {
    fn before(&self, _worker: usize, _v: u32) {
        self.count.fetch_add(1, Ordering::SeqCst);
    }
}

/// One worker takes a turn at each of the sixteen vertices at least.
fn takes_turns(rt: &impl Host, board: BoardKind) {
    let gate = TurnCount {
        count: AtomicU64::new(0),
    };
    passes(rt, &team(false, board), &gate);
    holds!(rt; gate.count.load(Ordering::SeqCst) >= 16);
}

#[test]
fn one_worker_of_a_check_calls_the_gate(rt: HostRuntime) {
    takes_turns(&rt, BoardKind::Locked);
    takes_turns(&rt, BoardKind::Packed);
    takes_turns(&rt, BoardKind::Auto);
}
