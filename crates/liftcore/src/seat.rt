// What is stored of one worker.

ghost use Rattle.std.specs.Prelude.{◌≡◌, ◌<◌, ◌↔◌, [], Contains, IfOk, IsTrue, MatchOption, false, length, slice_index};
ghost use Rattle.std.specs.List.{AllByRecursion};
ghost use Rattle.game.specs.Game.{IsAscending};
ghost use Rattle.liftcore.specs.Core.{Holding, Idle, with_note};
ghost use Rattle.liftcore.specs.Marks.{members};
ghost use Rattle.liftcore.specs.Seats.{IsSeat, notes_of, worker_of};
ghost use Rattle.liftcore.specs.Work.{AreOwed, CanRaise, CanRead, IsUnread, Owes};
ghost use Rattle.measures.specs.Tables.{LiesBelow};

use crate::marks::VertexSet;
use crate::turn::Turn;
use game::graph::Game;
use measures::measure::Measure;
use std::alloc::{AllocError, Global};

/// A worker: it holds the vertex of its turn, or owes the marked vertices, and is idle where it owes none. Its memory is
/// taken once.
#[derive(Drop)]
pub(crate) struct CoreWorker {
    pub(crate) holding: bool,
    pub(crate) turn: Turn,
    pub(crate) owed: VertexSet,
}

impl CoreWorker {
    /// An idle worker.
    pub(crate) fn new(alloc: Global, game: &Game) -> Result<Self, AllocError>
        ensures seat { IfOk result (λ s. IsSeat game.now s) }
        ensures idle { IfOk result (λ s. worker_of s ≡ Idle) }
    {
        let turn = Turn::new(alloc, game)?;
        turn.known();
        Ok(CoreWorker {
            holding: false,
            turn,
            owed: VertexSet::none(alloc, game.vertices() as usize)?,
        })
    }

    /// Whether it is idle.
    pub(crate) fn is_idle(&self) -> bool
        ensures { IsTrue result ↔ (worker_of self.now ≡ Idle) }
    {
        !self.holding && self.owed.is_empty()
    }

    /// Lets an idle worker hold a vertex, with nothing read.
    pub(crate) fn take(&mut self, game: &Game, v: u32)
        requires seat { IsSeat game.now self.old }
        requires idle { worker_of self.old ≡ Idle }
        requires vertex { v < length game.now.vertices }

        ensures seat { IsSeat game.now self.new }
        ensures holds { worker_of self.new ≡ Holding v [] }
    {
        self.turn.begin(game, v);
        self.turn.known();
        self.holding = true;
    }

    /// The place of a vertex among the successors of the one that the worker holds, if it is one and isn't read.
    pub(crate) fn unread(&self, game: &Game, v: u32) -> Option<usize>
        requires seat { IsSeat game.now self.now }
        ensures { MatchOption result (CanRead game.now (worker_of self.now) v → ⊥) (λ place. IsUnread self.now v place) }
    {
        if !self.holding {
            return None;
        }
        let place = place_of(game.successors(self.turn.vertex()), v)?;
        if self.turn.is_read(place) {
            return None;
        }
        Some(place)
    }

    /// Notes the value of the successor at this place.
    pub(crate) fn note(&mut self, game: &Game, v: u32, place: usize, value: Measure)
        requires seat { IsSeat game.now self.old }
        requires unread { IsUnread self.old v place }
        requires below { LiesBelow game.now v value }

        ensures seat { IsSeat game.now self.new }
        ensures notes { worker_of self.new ≡ Holding self.old.turn.vertex (with_note (record { vertex = v; value = value }) (notes_of self.old.turn)) }
    {
        self.turn.note(place, value);
        self.turn.known();
    }

    /// Whether the worker holds a vertex and has read all its successors.
    pub(crate) fn is_whole(&self, game: &Game) -> bool
        requires seat { IsSeat game.now self.now }
        ensures { IsTrue result ↔ CanRaise game.now (worker_of self.now) }
    {
        if !self.holding {
            return false;
        }
        for place in 0..game.successors(self.turn.vertex()).len() {
            if !self.turn.is_read(place) {
                return false;
            }
        }
        true
    }

    /// Whether the worker owes a vertex.
    pub(crate) fn owes(&self, v: u32) -> bool
        ensures { IsTrue result ↔ Owes (worker_of self.now) v }
    {
        !self.holding && self.owed.has(v)
    }

    /// Lets an idle worker owe these vertices.
    pub(crate) fn owe(&mut self, game: &Game, vertices: &[u32])
        requires seat { IsSeat game.now self.old }
        requires free { self.old.holding ≡ false }
        requires none { members self.old.owed ≡ [] }
        requires within { AllByRecursion (λ t. t < length game.now.vertices) vertices.now }

        ensures seat { IsSeat game.now self.new }
        ensures holding { self.new.holding ≡ false }
        ensures owed { AreOwed vertices.now self.new.owed }
    {
        for v in vertices {
            self.owed.insert(*v);
        }
    }
}

// Where a number stands in an ascending list.
fn place_of(numbers: &[u32], v: u32) -> Option<usize>
    requires { IsAscending numbers.now }
    ensures { MatchOption result (Contains numbers.now v → ⊥) (λ k. (k < length numbers.now) × (slice_index numbers.now k ≡ v)) }
{
    numbers.binary_search(&v).ok()
}
