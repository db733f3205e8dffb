// The state of several workers, and the four events.

ghost use Rattle.std.specs.Prelude.{◌≡◌, ◌↔◌, IfOk, IsTrue, MatchOption};
ghost use Rattle.liftcore.specs.Core.{Idle, is_quiet as is_quiet_core, starting_core};
ghost use Rattle.liftcore.specs.Seats.{AreIdle, HasSeat, IsState, core_of, worker_of};
ghost use Rattle.liftcore.specs.Step.{Step};
ghost use Rattle.liftcore.specs.Work.{CanRaise, CanRead, IsUnread, Owes};
ghost use Rattle.liftcore.specs.declared.event.Event.TheVariants as events;

use crate::error::CoreError;
use crate::event::Event;
use crate::marks::VertexSet;
use crate::seat::CoreWorker;
use game::graph::Game;
use game::predecessors::Predecessors;
use measures::table::{PlainTable, opening};
use std::alloc::{AllocError, Global};

/// The parts of a core.
#[derive(Drop)]
pub(crate) struct CoreParts {
    pub(crate) table: PlainTable,
    pub(crate) predecessors: Predecessors,
    pub(crate) pending: VertexSet,
    pub(crate) seats: Vec<CoreWorker>,
}

// So many idle workers.
fn idle_seats(alloc: Global, game: &Game, workers: usize) -> Result<Vec<CoreWorker>, AllocError>
    ensures { IfOk result (λ seats. AreIdle game.now workers seats.items) }
{
    let mut seats = Vec::with_capacity(alloc, workers)?;
    for _ in 0..workers {
        seats.push(CoreWorker::new(alloc, game)?)?;
    }
    Ok(seats)
}

impl CoreParts {
    /// The state at the start, with the memory for all events.
    pub(crate) fn new(alloc: Global, game: &Game, workers: usize) -> Result<Self, CoreError>
        ensures state { IfOk result (λ s. IsState game.now s) }
        ensures start { IfOk result (λ s. core_of s ≡ starting_core game.now workers) }
    {
        Ok(CoreParts {
            table: opening(alloc, game)?,
            predecessors: Predecessors::of(alloc, game)?,
            pending: VertexSet::all(alloc, game.vertices() as usize)?,
            seats: idle_seats(alloc, game, workers)?,
        })
    }

    // Whether a worker is idle.
    fn is_idle(&self, worker: usize) -> bool
        ensures { IsTrue result ↔ HasSeat self.now worker (λ x. worker_of x ≡ Idle) }
    {
        match self.seats.get(worker) {
            Some(seat) => seat.is_idle(),
            None => false,
        }
    }

    // The place of a vertex among the successors of the one that a worker holds, if it is one and isn't read.
    fn unread(&self, game: &Game, worker: usize, vertex: u32) -> Option<usize>
        requires { IsState game.now self.now }
        ensures { MatchOption result (HasSeat self.now worker (λ x. CanRead game.now (worker_of x) vertex) → ⊥)
            (λ place. HasSeat self.now worker (λ x. IsUnread x vertex place)) }
    {
        match self.seats.get(worker) {
            Some(seat) => seat.unread(game, vertex),
            None => None,
        }
    }

    // Whether a worker has read all successors of the vertex that it holds.
    fn is_whole(&self, game: &Game, worker: usize) -> bool
        requires { IsState game.now self.now }
        ensures { IsTrue result ↔ HasSeat self.now worker (λ x. CanRaise game.now (worker_of x)) }
    {
        match self.seats.get(worker) {
            Some(seat) => seat.is_whole(game),
            None => false,
        }
    }

    // Whether a worker owes a vertex.
    fn owes(&self, worker: usize, vertex: u32) -> bool
        ensures { IsTrue result ↔ HasSeat self.now worker (λ x. Owes (worker_of x) vertex) }
    {
        match self.seats.get(worker) {
            Some(seat) => seat.owes(vertex),
            None => false,
        }
    }

    /// An idle worker takes a pending vertex.
    pub(crate) fn take(&mut self, game: &Game, worker: usize, vertex: u32) -> bool
        requires { IsState game.now self.old }
        ensures state { IsState game.now self.new }
        ensures step { Step (core_of self.old) (events.Take worker vertex) result (core_of self.new) }
    {
        if !self.pending.has(vertex) || !self.is_idle(worker) {
            return false;
        }
        self.pending.remove(vertex);
        self.seats[worker].take(game, vertex);
        true
    }

    /// A worker notes the value of a successor of the vertex that it holds.
    pub(crate) fn read(&mut self, game: &Game, worker: usize, vertex: u32) -> bool
        requires { IsState game.now self.old }
        ensures state { IsState game.now self.new }
        ensures step { Step (core_of self.old) (events.Read worker vertex) result (core_of self.new) }
    {
        let Some(place) = self.unread(game, worker, vertex) else {
            return false;
        };
        self.seats[worker].note(game, vertex, place, self.table.value(vertex));
        true
    }

    /// A worker raises the vertex that it holds by what it noted, and owes the predecessors if it rose.
    pub(crate) fn raise(&mut self, game: &Game, worker: usize) -> bool
        requires { IsState game.now self.old }
        ensures state { IsState game.now self.new }
        ensures step { Step (core_of self.old) (events.Raise worker) result (core_of self.new) }
    {
        if !self.is_whole(game, worker) {
            return false;
        }
        let seat = &mut self.seats[worker];
        let vertex = seat.turn.vertex();
        let lifted = seat.turn.lifted(game);
        seat.holding = false;
        if self.table.value(vertex).is_below(&lifted) {
            self.table.raise(vertex, &lifted);
            seat.owe(game, self.predecessors.get(vertex));
        }
        true
    }

    /// A worker makes a vertex pending that it owes.
    pub(crate) fn push(&mut self, game: &Game, worker: usize, vertex: u32) -> bool
        requires { IsState game.now self.old }
        ensures state { IsState game.now self.new }
        ensures step { Step (core_of self.old) (events.Push worker vertex) result (core_of self.new) }
    {
        if !self.owes(worker, vertex) {
            return false;
        }
        self.seats[worker].owed.remove(vertex);
        self.pending.insert(vertex);
        true
    }

    /// Does an event if it can be done, and tells whether it was.
    pub(crate) fn step(&mut self, game: &Game, event: Event) -> bool
        requires { IsState game.now self.old }
        ensures state { IsState game.now self.new }
        ensures step { Step (core_of self.old) event result (core_of self.new) }
    {
        match event {
            Event::Take { worker, vertex } => self.take(game, worker, vertex),
            Event::Read { worker, vertex } => self.read(game, worker, vertex),
            Event::Raise { worker } => self.raise(game, worker),
            Event::Push { worker, vertex } => self.push(game, worker, vertex),
        }
    }

    /// Whether nothing is pending and every worker is idle.
    pub(crate) fn is_quiet(&self) -> bool
        ensures { IsTrue result ↔ IsTrue (is_quiet_core (core_of self.now)) }
    {
        if !self.pending.is_empty() {
            return false;
        }
        for seat in &self.seats {
            if !seat.is_idle() {
                return false;
            }
        }
        true
    }
}
