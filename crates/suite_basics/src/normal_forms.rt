// Normal forms, worked out by hand: negations moved inwards by the equations of Kozen 1983, and nodes in preorder. tests/commands and tests/answers have more,
// and limits that are met exactly.

use crate::common::{Written, formula, is_either, is_written};
use calculus::form::Normal;
use calculus::node::Kind;
use calculus::priorities::Priorities;
use normal::count::counted_nodes;
use normal::make::{normal, normal_with};
use normal::printer::print_normal;
use samples::holds;
use samples::texts::parsed_formula;
use samples::writers::Narrow;
use std::alloc::Global;

impl Written for Normal {
    fn is_written(&self, out: &mut Narrow) -> bool {
        print_normal(self, out).is_ok()
    }
}

const NEGATED: &str =
    "nodes 6 priority 0 depth 1\n0 or 0 1 3\n1 box 0 2 a\n2 false 0\n3 nu 0 4\n4 dia 0 5 b\n5 var 0 3\n";

#[test]
fn nodes_are_numbered_in_preorder(rt: HostRuntime) {
    let formula = formula(&rt, "!(<a>true && mu X. [b]X)");
    holds!(&rt; counted_nodes(formula.tree()) == Some(6));
    let form = normal_with(rt.alloc(), &formula, Priorities::Dependent).expect(&rt, "a form");
    drop(formula);
    holds!(&rt; form.count() == 6);
    holds!(&rt; form.nodes().len() == 6 && form.depth() == 1 && form.priority(3) == 0);
    holds!(&rt; matches!(form.node(4).kind, Kind::Dia(_, 5)));
    is_written(&rt, &form, NEGATED);
    drop(form);
}

// How many nodes the normal form of a formula has, or the refusal.
fn size_of(alloc: Global, text: &str) -> Option<String> {
    let formula = parsed_formula(alloc, text).ok()?;
    let form = normal(alloc, &formula);
    drop(formula);
    match form {
        Ok(form) => form.count().to_string(alloc).ok(),
        Err(error) => error.to_string(alloc).ok(),
    }
}

// Each growth may be refused: then nothing but that is told. tests/refusals refuses each in turn.
#[test]
fn out_of_memory_is_told_as_such(rt: HostRuntime) {
    is_either(&rt, size_of(rt.alloc(), "nu X. <a|b + \"c\"*>X"), "9", "N3");
}
