// What is told of workers while they work.

ghost use Rattle.std.specs.Prelude.{◌≡◌};

use crate::gate::Gate;
use game::observer::{Observer, Stage};
use std::sync::atomic::{AtomicU64, Ordering};

/// How many turns a worker takes from one telling to the next.
const TURNS_APART: u64 = 4096;

/// A worker's number, how many turns it took, and in how many of them a measure rose.
#[derive(Clone, Copy)]
pub(crate) struct TurnCounts {
    pub(crate) worker: usize,
    turns: u64,
    rises: u64,
}

impl TurnCounts {
    /// No turn yet of the worker of this number.
    pub(crate) fn new(worker: usize) -> Self
        ensures { result.worker ≡ worker }
    {
        TurnCounts {
            worker,
            turns: 0,
            rises: 0,
        }
    }

    /// A turn is over, in which a measure rose or didn't.
    pub(crate) fn count_rise(&mut self, rose: bool)
        ensures { self.new.worker ≡ self.old.worker }
    {
        self.rises = self.rises.wrapping_add(u64::from(rose));
    }
}

/// A gate that is called before each turn, and an observer that is told that lifting begins, of every 4,096th turn of a worker with how many
/// turns there were in all, and of each worker's turns when it ends.
#[derive(Drop)]
pub(crate) struct Watched<'a, G, O> {
    gate: &'a G,
    observer: &'a O,
    vertices: u32,
    turns: AtomicU64,
}

impl<'a, G: Gate, O: Observer> Watched<'a, G, O> {
    /// Lifting begins in a game with so many vertices.
    pub(crate) fn new(gate: &'a G, observer: &'a O, vertices: u32) -> Self {
        let watched = Watched {
            gate,
            observer,
            vertices,
            turns: AtomicU64::new(0),
        };
        watched.tell(0);
        watched
    }

    fn tell(&self, lifts: u64) {
        self.observer.sees(Stage::Lifting {
            vertices: self.vertices,
            lifts,
        });
    }

    /// A worker is about to take a turn at a vertex.
    pub(crate) fn before(&self, tally: &mut TurnCounts, v: u32)
        ensures { tally.new.worker ≡ tally.old.worker }
    {
        tally.turns = tally.turns.wrapping_add(1);
        if tally.turns % TURNS_APART == 0 {
            let told = self.turns.fetch_add(TURNS_APART, Ordering::Relaxed);
            self.tell(told.wrapping_add(TURNS_APART));
        }
        self.gate.before(tally.worker, v);
    }

    /// A worker has taken its last turn.
    pub(crate) fn ended(&self, tally: TurnCounts) {
        self.observer.sees(Stage::Worked {
            worker: tally.worker,
            turns: tally.turns,
            rises: tally.rises,
        });
    }
}
