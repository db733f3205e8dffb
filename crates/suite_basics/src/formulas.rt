// Formulas and labels: what is read and printed, of which labels an action formula holds, and at which states a formula does. tests/answers has many more
// rows, and what is wrong with texts.

use crate::common::{Written, formula, is_either, is_written, system};
use calculus::closed::Closed;
use calculus::holds;
use calculus::tree::{Reg, State};
use formula::{parse, print};
use lts::Label;
use meaning::plain::plain_states;
use samples::holds;
use samples::host::Host;
use samples::texts::RING;
use samples::writers::Narrow;
use std::alloc::{AllocError, Global};

impl Written for Closed {
    fn is_written(&self, out: &mut Narrow) -> bool {
        print(self, out).is_ok()
    }
}

#[test]
fn a_text_is_printed_as_far_as_there_is_room(rt: HostRuntime) {
    let wanted = "<((a|b|b . (true || !tau)*) + \"x % y\")>!!true";
    for text in ["<b|a|b . (true || !tau)* + \"x % y\">!!true", wanted] {
        let formula = formula(&rt, text);
        is_written(&rt, &formula, wanted);
        drop(formula);
    }
}

// The refusal of a text as it is shown, or `ok`.
fn refusal(alloc: Global, text: &str) -> Result<String, AllocError> {
    match parse(alloc, text.as_bytes()).err() {
        None => String::from_str(alloc, "ok"),
        Some(error) => error.to_string(alloc),
    }
}

// Each growth may be refused: then nothing but that is told. tests/refusals refuses each in turn.
#[test]
fn out_of_memory_is_told_as_such(rt: HostRuntime) {
    let text = "nu X. [(a|b + \"c\")*](mu Y. (<a>X || <b . c>!!Y))";
    is_either(&rt, refusal(rt.alloc(), text).ok(), "ok", "F9");
}

#[test]
fn a_formula_holds_where_it_is_to(rt: HostRuntime) {
    let (system, formula) = (system(&rt, RING), formula(&rt, "<a=>b>true"));
    let marks = plain_states(rt.alloc(), &system, &formula).expect(&rt, "memory");
    drop(formula);
    drop(system);
    holds!(&rt; marks.as_slice() == [false, true].as_slice());
}

fn label_of(rt: &impl Host, text: &str) -> Label {
    Label::new(rt.alloc(), text.as_bytes()).expect(rt, "memory")
}

// A label is read as so many names, of which the first is this, if there is one, or as none.
fn is_read_as(rt: &impl Host, text: &str, wanted: Option<(usize, &str)>) {
    let label = label_of(rt, text);
    let is_so = match (label.view().names, wanted) {
        (Some(names), Some((count, first))) => {
            names.len() == count
                && names
                    .first()
                    .is_none_or(|name| name.as_slice() == first.as_bytes())
        }
        (None, None) => true,
        _ => false,
    };
    holds!(rt; is_so, text);
    drop(label);
}

#[test]
fn labels_are_read_as_names(rt: HostRuntime) {
    is_read_as(&rt, "b|a|b", Some((3, "a")));
    is_read_as(&rt, "tau", Some((0, "")));
    is_read_as(&rt, "a|tau", None);
    is_read_as(&rt, "r(1)", None);
}

// Whether the action formula in the formula's modality says that of the label `b|a`.
fn is_said(rt: &impl Host, text: &str, says: bool) {
    let (label, formula) = (label_of(rt, "b|a"), formula(rt, text));
    let is_so = match formula.tree() {
        State::Dia(Reg::Act(action), _) => holds(action, &label.view()) == says,
        _ => false,
    };
    drop(formula);
    drop(label);
    holds!(rt; is_so, text);
}

#[test]
fn action_formulas_hold_of_labels(rt: HostRuntime) {
    is_said(&rt, "<a|b>true", true);
    is_said(&rt, "<a>true", false);
}
