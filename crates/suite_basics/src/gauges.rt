// What a gauge shows, and that of a game that is built: two states with two nodes are four vertices.

use crate::common::{form, system};
use game::build::build_seen;
use game::gauge::{Gauge, GaugeReading};
use samples::holds;
use samples::texts::RING;
use std::process::Abort;

// A gauge shows that so much of so much is done.
fn reads(rt: &impl Abort, gauge: &Gauge, done: u64, whole: u64) {
    holds!(rt; gauge.reading() == Some(GaugeReading { done, whole }));
}

#[test]
fn a_gauge_shows_how_far_a_part_has_come(rt: HostRuntime) {
    let gauge = Gauge::new();
    gauge.put(3);
    holds!(&rt; gauge.reading().is_none(), "before a part begins");
    gauge.begin(7);
    reads(&rt, &gauge, 0, 7);
    gauge.put(2);
    gauge.add(3);
    reads(&rt, &gauge, 5, 7);
    gauge.show(1, 9);
    reads(&rt, &gauge, 1, 9);
    gauge.begin(7);
    gauge.add(u64::MAX);
    reads(&rt, &gauge, 7, 7);
    gauge.clear();
    holds!(&rt; gauge.reading().is_none(), "when it is cleared");
}

#[test]
fn a_game_shows_how_many_of_its_vertices_are_made(rt: HostRuntime) {
    let (gauge, lts, form) = (Gauge::new(), system(&rt, RING), form(&rt, "<a>true"));
    let game = build_seen(&rt, rt.alloc(), &lts, &form, Some(&gauge)).expect(&rt, "memory");
    drop(form);
    drop(lts);
    holds!(&rt; game.vertices() == 6);
    drop(game);
    reads(&rt, &gauge, 4, 4);
}
