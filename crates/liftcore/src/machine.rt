// The machine over events.

ghost use Rattle.std.specs.Prelude.{◌≡◌, ◌<◌, ◌+◌, ◌↔◌, ℕ, Contains, IfOk, IsTrue, length};
ghost use Rattle.liftcore.specs.Core.{is_quiet as is_quiet_core, starting_core};
ghost use Rattle.liftcore.specs.Marks.{members};
ghost use Rattle.liftcore.specs.Runs.{Comes, is_done};
ghost use Rattle.liftcore.specs.Step.{Step};
ghost use Rattle.measures.specs.Progress.{value_at};
ghost use Rattle.measures.specs.Tables.{IsPlain, IsSettled, LiesBelow};

use crate::error::CoreError;
use crate::event::{Event, EventCounts, Outcome};
use crate::marks::VertexSet;
use crate::state::CoreParts;
use game::graph::Game;
use measures::measure::Measure;
use measures::settle::is_settled;
use std::alloc::Global;
use std::marker::Model;

/// Several workers that lift one table, an event at a time. Whatever the events, no value is above that of a progress table.
#[derive(Drop)]
pub struct Core<'a> {
    game: &'a Game,
    state: CoreParts,
}

impl<'a> Model for Core<'a> {
    ghost use Rattle.liftcore.specs.Core.{Core};

    ghost Value = { Core };

    ghost use Rattle.liftcore.specs.Runs.{IsReached};
    ghost use Rattle.liftcore.specs.Seats.{IsState, core_of};

    ghost view = { λ c. core_of c.state };

    ghost invariant = { λ c. IsState c.game.now c.state × IsReached (core_of c.state) };
}

impl<'a> Core<'a> {
    /// The opening table, each vertex pending and each worker idle. It takes the memory for all events.
    ///
    /// # Errors
    /// S4 where memory is refused.
    pub fn new(alloc: Global, game: &'a Game, workers: usize) -> Result<Self, CoreError>
        ensures { IfOk result (λ c. c ≡ starting_core game.now workers) }
    {
        Ok(Core {
            game,
            state: CoreParts::new(alloc, game, workers)?,
        })
    }

    /// What holds of every core.
    pub fn known(&self)
        ensures { IsPlain self.now.table }
    {
        self.state.table.known();
    }

    /// Does one event, where it can be done, and else skips it and leaves all as it is. It takes no memory, and so none is
    /// refused.
    pub fn step(&mut self, event: Event) -> Outcome
        ensures { Step self.old event (is_done result) self.new }
    {
        if self.state.step(self.game, event) {
            Outcome::Done
        } else {
            Outcome::Skipped
        }
    }

    /// Does events in their order, and tells how many were done and how many skipped.
    pub fn follow(&mut self, events: &[Event]) -> EventCounts
        ensures comes { Comes self.old events.now result.done result.skipped self.new }
        ensures all { result.done + result.skipped ≡ length events.now }
    {
        let mut done = 0;
        let mut skipped = 0;
        for event in events {
            match self.step(*event) {
                Outcome::Done => done += 1,
                Outcome::Skipped => skipped += 1,
            }
        }
        EventCounts { done, skipped }
    }

    /// How many vertices the game has.
    pub fn vertices(&self) -> u32
        ensures { result ≡ length self.now.table.game.vertices }
    {
        self.game.vertices()
    }

    /// The pending vertices.
    pub(crate) fn pending(&self) -> &VertexSet
        ensures vertices { length result.now ≡ length self.now.table.game.vertices }
        ensures pending { members result.now ≡ self.now.pending }
    {
        &self.state.pending
    }

    /// The measure of a vertex.
    pub fn value(&self, v: u32) -> Measure
        requires { v < length self.now.table.game.vertices }
        ensures value { result ≡ value_at self.now.table.values v }
        ensures below { LiesBelow self.now.table.game v result }
    {
        self.state.table.value(v)
    }

    /// Whether a vertex is pending.
    pub fn is_pending(&self, v: u32) -> bool
        ensures { IsTrue result ↔ Contains self.now.pending v }
    {
        self.state.pending.has(v)
    }

    /// Whether nothing is pending and every worker is idle. The table is then settled.
    pub fn is_quiet(&self) -> bool
        ensures quiet { IsTrue result ↔ IsTrue (is_quiet_core self.now) }
        ensures settled { IsTrue result → IsSettled self.now.table }
    {
        self.game.known();
        self.state.is_quiet()
    }

    /// Whether the table is the least progress table.
    pub fn is_settled(&self) -> bool
        ensures { IsTrue result ↔ IsSettled self.now.table }
    {
        self.game.known();
        is_settled(self.game, &self.state.table)
    }
}

/// What these events come to from the start.
///
/// # Errors
/// S4 where memory is refused.
pub fn run<'a>(
    alloc: Global,
    game: &'a Game,
    workers: usize,
    events: &[Event],
) -> Result<Core<'a>, CoreError>
    ensures { IfOk result (λ c. (done : ℕ) × (skipped : ℕ) × Comes (starting_core game.now workers) events.now done skipped c) }
{
    let mut core = Core::new(alloc, game, workers)?;
    core.follow(events);
    Ok(core)
}
