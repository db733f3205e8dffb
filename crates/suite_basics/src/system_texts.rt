// Texts of systems in the Aldebaran format of the mCRL2 manual, by readers and writers that fail, are slow or are interrupted. Their transitions were put in
// order by hand: by source, by the label's bytes and by target. tests/answers and tests/hostile have what is wrong with texts.

use crate::common::{Format, Written, is_cut, is_either, is_read, is_told, is_written, system};
use lts::{Lts, Transition, WriteFault, put, put_number, read_aut, write_aut};
use samples::holds;
use samples::readers::Halting;
use samples::texts::{RING, unseeded};
use samples::writers::{AMPLE, Narrow};
use std::alloc::{AllocError, Global};
use std::io::Read;
use std::process::Abort;

// The states, the initial state, the transitions and the labels of what is read, or the refusal.
struct Systems;

impl Format for Systems {
    fn shown<R: Read + Drop>(&self, alloc: Global, reader: R) -> Result<String, AllocError> {
        match read_aut(alloc, unseeded(), reader) {
            Ok(lts) => {
                let (states, initial) = (lts.states(), lts.initial());
                let (transitions, labels) = (lts.transitions(), lts.labels());
                drop(lts);
                format!(in alloc; "{states} {initial} {transitions} {labels}")
            }
            Err(error) => error.to_string(alloc),
        }
    }
}

// Texts, and what is shown of each. A line that stands whole in the block at hand is read at once, any other token by token.
static TEXTS: [(&str, &str); 4] = [
    (RING, "2 0 2 2"),
    (
        "des ( 1 ,3, 2 )\r\n\t(0,\"a\",1)\n(0,\"a\",1)\n(1,\"tau\" ,0)",
        "2 1 2 2",
    ),
    ("des (0,3,2)\n(0,\"a\",1)\n(1,\"b\",01)\n", "A2 at line 3"),
    ("des (0,2,2)\n(0,\"a\",1)\n", "A5 at line 3"),
];

// An interrupted read is tried again.
#[test]
fn texts_are_read(rt: HostRuntime) {
    for (text, wanted) in &TEXTS {
        is_read(&rt, &Systems, text, wanted);
    }
    is_told(
        &rt,
        Systems.shown(rt.alloc(), Halting::whole(RING.as_bytes())),
        "2 0 2 2",
    );
}

#[test]
fn a_failed_read_is_told_wherever_it_comes(rt: HostRuntime) {
    is_cut(&rt, &Systems, RING, 5, "A8");
}

// Each growth may be refused: then nothing but that is told. tests/refusals refuses each in turn.
#[test]
fn out_of_memory_is_told_as_such(rt: HostRuntime) {
    let text = b"des (2,4,3)\n(2,\"c|a|b\",0)\n(0,\"tau\",2)\n(2,\"c|a|b\",0)\n(1,\"r(1)\",1)\n";
    is_either(
        &rt,
        Systems.shown(rt.alloc(), text.as_slice()).ok(),
        "3 2 3 3",
        "A9",
    );
}

impl Written for Lts {
    fn is_written(&self, out: &mut Narrow) -> bool {
        write_aut(self, out).is_ok()
    }
}

// Rows in no order, some of them twice: in one run of a source, or in two.
const SCATTERED: &str =
    "des (0,8,4)\n(3,\"b\",2)\n(3,\"a\",1)\n(3,\"b\",2)\n(1,\"c\",0)\n(1,\"a\",2)\n(0,\"b\",3)\n(3,\"a\",0)\n(1,\"c\",0)\n";

const IN_ORDER: &str =
    "des (0,6,4)\n(0,\"b\",3)\n(1,\"a\",2)\n(1,\"c\",0)\n(3,\"a\",0)\n(3,\"a\",1)\n(3,\"b\",2)\n";

// The label of a transition.
fn has_label(rt: &impl Abort, lts: &Lts, transition: Transition, label: &str) {
    holds!(rt; (transition.label as usize) < lts.labels());
    holds!(rt; lts.label(transition.label).bytes == label.as_bytes(), label);
}

// The second and the third transition are those from state 1.
#[test]
fn rows_are_put_in_order_and_each_once(rt: HostRuntime) {
    let lts = system(&rt, SCATTERED);
    holds!(&rt; 1 < lts.states());
    let row = lts.from(1);
    holds!(&rt; row.len() == 2 && lts.all().len() == 6);
    has_label(&rt, &lts, row[0], "a");
    has_label(&rt, &lts, row[1], "c");
    is_written(&rt, &lts, IN_ORDER);
    drop(lts);
}

// Nothing is a piece that any writer takes, and a failed write has a code.
#[test]
fn pieces_are_written(rt: HostRuntime) {
    holds!(&rt; put(&mut Narrow::new(rt.alloc(), 1, 0), b"").is_ok());
    let mut out = Narrow::new(rt.alloc(), 3, AMPLE);
    holds!(&rt; put_number(&mut out, b"states ", 1_000_000_u32).is_ok());
    holds!(&rt; out.taken.as_slice() == b"states 1000000".as_slice());
    drop(out);
    is_told(&rt, WriteFault.to_string(rt.alloc()), "W1");
}
