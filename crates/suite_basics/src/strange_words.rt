// Words of formulas that no label of a system has. The systems are small, and which words are strange was read off them. tests/answers has more.

use crate::common;
use crate::common::{is_told, system};
use formula::absent::first_absent;
use formula::strange::{Word, strange_words};
use samples::holds;
use samples::host::Host;
use samples::texts::RING;

/// The words, each with its kind, in their order.
fn shown(rt: &impl Host, words: &[Word<'_>]) -> String {
    let mut text = String::new(rt.alloc());
    for word in words {
        let (kind, bytes) = match *word {
            Word::Name(bytes) => ("name ", bytes),
            Word::Atom(bytes) => ("atom ", bytes),
        };
        let bytes = str::from_utf8(bytes).unwrap_or("no text");
        write!(text, "{kind}{bytes};").expect(rt, "memory");
    }
    text
}

/// Labels of every kind: two names, one name, the empty multiset, and a label that is read as nothing.
const KINDS: &str = "des (0,4,1)\n(0,\"a|b\",0)\n(0,\"c\",0)\n(0,\"tau\",0)\n(0,\"send(1)\",0)\n";

/// A system, a formula, its strange words, and where its first word begins that is on no transition.
static STRANGE: [(&str, &str, &str, Option<usize>); 4] = [
    (RING, "<true*>[tau]<a>true", "", None),
    (
        RING,
        "mu x. <c>(x && [\"d e\"]<c>true)",
        "name c;atom d e;",
        Some(7),
    ),
    (
        KINDS,
        "<\"a|b\">true && <\"b|a\">[send]false",
        "atom b|a;name send;",
        Some(16),
    ),
    (
        RING,
        "<a|l|k|j|i|h|g|f|e|d|c>true",
        "name c;name d;name e;name f;name g;name h;name i;name j;name k;name l;",
        Some(3),
    ),
];

fn has_words(rt: &impl Host, text: &str, formula: &str, wanted: &str, place: Option<usize>) {
    let (system, closed) = (system(rt, text), common::formula(rt, formula));
    let words = strange_words(rt.alloc(), &system, &closed).expect(rt, "memory");
    is_told(rt, Ok(shown(rt, words.as_slice())), wanted);
    drop(words);
    drop(closed);
    let absent = first_absent(rt.alloc(), &system, formula.as_bytes());
    holds!(rt; absent.expect(rt, "memory") == place, formula);
    drop(system);
}

#[test]
fn strange_words_are_told_once_and_in_order(rt: HostRuntime) {
    for (system, formula, wanted, place) in &STRANGE {
        has_words(&rt, system, formula, wanted, *place);
    }
}
