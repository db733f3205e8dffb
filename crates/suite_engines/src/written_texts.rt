// What is written where a write fails, and what a check by sets of states writes: texts that were worked out by hand. tests/answers compares more of them.

use crate::common::{
    DEFAULTS, Narrows, have_the_report_alone, is_beginning, is_text, refuses_as, request, says,
    system, unwritten, why,
};
use crate::stages::StageCounts;
use engines::engine::check_asked;
use engines::error::MuError;
use engines::reasons::tell_why;
use engines::request::{Check, ReportForm, Table, Wanted, WitnessForm};
use engines::writers::Writers;
use game::observer::Silent;
use samples::holds;
use samples::host::Host;
use samples::ring_games::{EVEN_OF_STEP, ODD_OF_STEP, STEP};
use samples::texts::{RING, unseeded};
use samples::writers::{AMPLE, AtEnd, Narrow};
use std::cmp::Ordering::{Equal, Greater, Less};
use std::sync::atomic::Ordering;
use table_lines::table::table_line;

const ALL: Wanted = Wanted {
    game: true,
    evidence: true,
    witness: Some(WitnessForm::System),
    report: ReportForm::Whole,
};

/// The texts of a check of `<a>true` on the ring, in the order in which they are written.
static TEXTS: [&str; 5] = [
    STEP,
    EVEN_OF_STEP,
    ODD_OF_STEP,
    "des (0,1,2)\n(0,\"a\",1)\n",
    "system 2 states 2 transitions initial 0\nformula <a>true\nyes 1 of 2\ninitial yes\n0 yes\n1 no\n",
];

/// The check writes all of them, where it is one by a game.
fn checked(rt: &impl Host, check: &Check<'_>, writers: &mut Narrows) -> Result<bool, MuError> {
    check_asked(
        rt,
        rt.alloc(),
        check,
        ALL,
        unseeded(),
        RING.as_bytes(),
        b"<a>true".as_slice(),
        writers,
        &Silent,
    )
}

/// The writer of the text with this number gets so much room.
fn cramp(writers: &mut Narrows, number: usize, cramped: Narrow) {
    match number {
        0 => writers.game = cramped,
        1 => writers.even = cramped,
        2 => writers.odd = cramped,
        3 => writers.witness = cramped,
        _ => writers.report = cramped,
    }
}

/// The texts before the one with this number are whole, that has the first so many bytes, and nothing was written of those after it.
fn are_cut(rt: &impl Host, writers: &Narrows, number: usize, room: usize) {
    let Writers {
        game,
        even,
        odd,
        witness,
        report,
    } = writers;
    let taken = [game, even, odd, witness, report];
    for at in 0..5 {
        let count = match at.cmp(&number) {
            Less => TEXTS[at].len(),
            Equal => room,
            Greater => 0,
        };
        is_beginning(rt, taken[at].taken.as_slice(), TEXTS[at], count);
    }
}

/// With so little room for the text with this number the check ends.
fn ends_at(rt: &impl Host, number: usize, room: usize) {
    let mut writers = unwritten(rt.alloc());
    cramp(&mut writers, number, Narrow::new(rt.alloc(), 9, room));
    let answer = checked(rt, &request(DEFAULTS, false), &mut writers);
    refuses_as(rt, &answer, "W1");
    are_cut(rt, &writers, number, room);
}

#[test]
fn a_failed_write_ends_the_check(rt: HostRuntime) {
    for number in 0..5 {
        for room in 0..TEXTS[number].len() {
            ends_at(&rt, number, room);
        }
    }
}

#[test]
fn a_check_by_a_game_writes_what_is_wanted(rt: HostRuntime) {
    let mut writers = unwritten(rt.alloc());
    let answer = checked(&rt, &request(DEFAULTS, false), &mut writers);
    says(&rt, "by a game", &answer, true);
    are_cut(&rt, &writers, 4, TEXTS[4].len());
}

#[test]
fn a_check_by_sets_of_states_writes_the_report_alone(rt: HostRuntime) {
    let mut writers = unwritten(rt.alloc());
    let answer = checked(&rt, &request(DEFAULTS, true), &mut writers);
    says(&rt, "by sets of states", &answer, true);
    holds!(&rt; have_the_report_alone(&writers));
    is_text(&rt, writers.report.taken.as_slice(), TEXTS[4]);
}

/// What is told of why the ring doesn't do `a` twice, into so much room.
fn told(rt: &impl Host, out: &mut Narrow) -> Result<bool, MuError> {
    let (system, formula) = (RING.as_bytes(), b"<a><a>true".as_slice());
    tell_why(
        rt,
        rt.alloc(),
        &why(DEFAULTS),
        unseeded(),
        system,
        formula,
        out,
        &Silent,
    )
}

#[test]
fn reasons_are_told_as_far_as_there_is_room(rt: HostRuntime) {
    let text =
        "formula <a><a>true\ninitial no: this run breaks it\n0 -a-> 1 by <a>\n1: no a here\n";
    let mut whole = Narrow::new(rt.alloc(), 7, AMPLE);
    says(&rt, text, &told(&rt, &mut whole), false);
    is_text(&rt, whole.taken.as_slice(), text);
    let mut cut = Narrow::new(rt.alloc(), 7, 46);
    cut.at_end = AtEnd::TakesNothing;
    refuses_as(&rt, &told(&rt, &mut cut), "W1");
    is_beginning(&rt, cut.taken.as_slice(), text, 46);
}

/// Writes a line of a strict table on the ring, of which this watcher is told.
fn line_of(rt: &impl Host, formula: &str, out: &mut Narrow, watcher: &StageCounts) -> Option<u8> {
    let system = system(rt, RING);
    let table = Table {
        system: "s",
        formulas: Vec::new(rt.alloc()),
        options: DEFAULTS,
        plain: false,
        strict: true,
        stats: false,
    };
    let (alloc, bytes) = (rt.alloc(), formula.as_bytes());
    table_line(rt, alloc, &system, &table, "f.mcf", bytes, out, watcher).ok()
}

/// The line of a formula has so much room: this is written, with this status, and a watcher is told of so many states.
fn tells(rt: &impl Host, formula: &str, room: usize, wanted: (&str, Option<u8>, u64)) {
    let (line, status, states) = wanted;
    let told = StageCounts::new();
    let mut out = Narrow::new(rt.alloc(), 3, room);
    out.at_end = AtEnd::TakesNothing;
    holds!(rt; line_of(rt, formula, &mut out, &told) == status, formula);
    is_text(rt, out.taken.as_slice(), line);
    holds!(rt; told.states.load(Ordering::SeqCst) == states, formula);
}

/// A watcher is told of a formula that is read, also where a word of it is refused then, and of none whose text is refused.
#[test]
fn lines_of_tables_are_written_as_far_as_there_is_room(rt: HostRuntime) {
    tells(&rt, "<a>true", AMPLE, ("yes 1 of 2 f.mcf\n", Some(0), 2));
    tells(&rt, "<a>true", 10, ("yes 1 of 2", None, 2));
    tells(&rt, "<c>true", 99, ("L1 at offset 1 f.mcf\n", Some(2), 2));
    tells(&rt, "true && X", 99, ("F5 at offset 8 f.mcf\n", Some(2), 0));
}
