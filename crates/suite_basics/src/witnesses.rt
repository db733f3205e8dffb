// Parts of systems on which answers rest, their drawings, and the labels that modalities take: worked out by hand. tests/answers and tests/short have more.

ghost use Rattle.std.specs.Prelude.{◌≡◌};
ghost use Rattle.evidence.specs.Evidence.{IsGood};
ghost use Rattle.calculus.specs.Normal.{normal_nodes};
ghost use Rattle.game.specs.Arena.{arena};

use crate::common::{Written, even_of, form, game, is_written, odd_of, system};
use calculus::form::Normal;
use calculus::label_sets::label_sets;
use evidence::evidence::Evidence;
use game::graph::Game;
use lts::{Lts, write_part};
use samples::holds;
use samples::host::Host;
use samples::texts::RING;
use samples::writers::{AMPLE, Narrow};
use witness::drawing::write_drawing;
use witness::part::{has_root, witness};

// The part of the ring by this evidence is its first step.
fn is_a_step(rt: &impl Host, ring: &Lts, normal: &Normal, game: &Game, evidence: &Evidence)
    requires game { game.now ≡ arena ring.now.system (normal_nodes normal.now) }
    requires same { evidence.now.game ≡ game.now }
    requires good { IsGood game.now evidence.now.evidence }
{
    holds!(rt; has_root(ring, normal, game, evidence));
    let part = witness(rt.alloc(), ring, normal, game, evidence).expect(rt, "memory");
    let mut out = Narrow::new(rt.alloc(), 5, AMPLE);
    holds!(rt; write_part(ring, part.as_slice(), &mut out).is_ok());
    drop(part);
    holds!(rt; out.taken.as_slice() == b"des (0,1,2)\n(0,\"a\",1)\n".as_slice());
    drop(out);
}

// Of a formula that Even or Odd wins at the ring's first state.
fn shows_a_step(rt: &impl Host, formula: &str, is_evens: bool) {
    let (ring, normal) = (system(rt, RING), form(rt, formula));
    let game = game(rt, &ring, &normal);
    if is_evens {
        is_a_step(rt, &ring, &normal, &game, &even_of(rt, &game));
    } else {
        is_a_step(rt, &ring, &normal, &game, &odd_of(rt, &game));
    }
    drop(game);
    drop(normal);
    drop(ring);
}

#[test]
fn what_an_answer_rests_on_is_its_witness(rt: HostRuntime) {
    shows_a_step(&rt, "<a>true", true);
    shows_a_step(&rt, "[a]false", false);
}

// The drawing of all of a system.
#[derive(Drop)]
struct Drawn<'a> {
    system: &'a Lts,
}

impl Written for Drawn<'_> {
    fn is_written(&self, out: &mut Narrow) -> bool {
        write_drawing(self.system, self.system.all(), out).is_ok()
    }
}

// A label may have a `\`, and no `"`.
const DRAWN: &str = "des (1,3,4)\n(0,\"c\",1)\n(1,\"a\\n\",0)\n(1,\"b|a\",3)\n";

const DRAWING: &str =
    "digraph witness {\n  rankdir=LR;\n  node [shape=circle];\n  1 [shape=doublecircle];\n  0 -> 1 [label=\"c\"];\n  1 -> 0 [label=\"a\\\\n\"];\n  1 -> 3 [label=\"b|a\"];\n}\n";

#[test]
fn drawings_are_to_the_letter(rt: HostRuntime) {
    let system = system(&rt, DRAWN);
    is_written(&rt, &Drawn { system: &system }, DRAWING);
    drop(system);
}

// The diamond's `a` and the box's `!a`, by the ring's labels `a` and `b`; the other nodes have no labels.
#[test]
fn nodes_know_the_labels_that_pass(rt: HostRuntime) {
    let (system, form) = (system(&rt, RING), form(&rt, "<a>[!a]false"));
    let sets = label_sets(rt.alloc(), &system, &form).expect(&rt, "memory");
    drop(form);
    drop(system);
    let rows = sets.as_slice();
    holds!(&rt; rows.len() == 3);
    holds!(&rt; rows[0].as_slice() == [true, false].as_slice());
    holds!(&rt; rows[1].as_slice() == [false, true].as_slice() && rows[2].is_empty());
    drop(sets);
}
