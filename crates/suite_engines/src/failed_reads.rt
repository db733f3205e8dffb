// Reads that fail, are cut short or are interrupted, and writes that are interrupted, as the engines tell them. tests/refusals has each read of the built
// program refused.

use crate::common::{is_text, refuses_as, says};
use engines::named::check_plain;
use samples::holds;
use samples::host::Host;
use samples::readers::{Halting, SlowReader, Wanting};
use samples::texts::{RING, unseeded};
use samples::writers::{AMPLE, Narrow};
use std::io::Read;

const FORMULA: &str = "<a>true";

/// All bytes of a text, three at a time.
fn whole(text: &str) -> SlowReader<'_> {
    SlowReader::whole(text.as_bytes(), 3)
}

/// The same, and then a failure.
fn failing(text: &str) -> SlowReader<'_> {
    SlowReader::failing(text.as_bytes(), 3, text.len())
}

/// These texts, of which one fails to be read, are refused so, and nothing is written.
fn is_refused<R: Read + Drop, S: Read + Drop>(rt: &impl Host, aut: R, formula: S, wanted: &str) {
    let mut out = Vec::new(rt.alloc());
    let answer = check_plain(rt.alloc(), unseeded(), aut, formula, &mut out);
    refuses_as(rt, &answer, wanted);
    holds!(rt; out.is_empty());
}

#[test]
fn a_failed_read_has_the_code_of_its_text_whatever_its_kind(rt: HostRuntime) {
    is_refused(&rt, failing(RING), whole(FORMULA), "A8");
    is_refused(&rt, whole(RING), failing(FORMULA), "U3");
    is_refused(&rt, Wanting, whole(FORMULA), "A8");
    is_refused(&rt, whole(RING), Wanting, "U3");
}

/// The whole report is written, to such a writer.
fn is_whole<R: Read + Drop, S: Read + Drop>(rt: &impl Host, aut: R, formula: S, out: &mut Narrow) {
    let answer = check_plain(rt.alloc(), unseeded(), aut, formula, out);
    says(rt, "the check", &answer, true);
    let report =
        "system 2 states 2 transitions initial 0\nformula <a>true\nyes 1 of 2\ninitial yes\n0 yes\n1 no\n";
    is_text(rt, out.taken.as_slice(), report);
}

// A few bytes at a time are as good.
#[test]
fn interrupted_reads_and_writes_are_tried_again(rt: HostRuntime) {
    let mut out = Narrow::new(rt.alloc(), 5, AMPLE);
    out.interrupts = true;
    let formula = Halting::whole(FORMULA.as_bytes());
    is_whole(&rt, Halting::whole(RING.as_bytes()), formula, &mut out);
    let mut slow = Narrow::new(rt.alloc(), 1, AMPLE);
    is_whole(&rt, whole(RING), whole(FORMULA), &mut slow);
}
