// A worker's turn at one vertex.

ghost use Rattle.std.specs.Prelude.{◌≡◌, ◌<◌, ◌≤◌, ◌+◌, ◌↔◌, ℕ, IfOk, IsTrue, length, false, slice_index, slice_index_or, slice_set, true};
ghost use Rattle.game.specs.Game.{vertex as vertex_at};
ghost use Rattle.game.specs.Predecessors.{successors_at};
ghost use Rattle.liftcore.specs.Reading.{AreRead, BeginsTurn, IsReadAt, IsReading, successors_read, values_of};
ghost use Rattle.measures.specs.Progs.{IsDemandOf};
ghost use Rattle.measures.specs.Tables.{LiesBelow};

use game::graph::Game;
use measures::measure::Measure;
use measures::progs::demand;
use std::alloc::{AllocError, Global};
use std::marker::Model;
use std::snapshot::Snapshot;

/// A vertex of a game, and what was read at its successors, none of it above the value of a progress table. It has memory
/// for each vertex of the game.
#[derive(Drop)]
pub struct Turn {
    vertex: u32,
    marks: Vec<bool>,
    values: Vec<Measure>,
    of: Snapshot<Game>,
}

impl Model for Turn {
    ghost use Rattle.liftcore.specs.Reading.{IsReading, SuccessorReading};

    ghost Value = { SuccessorReading };

    ghost view = { λ t. record { game = t.of.value; vertex = t.vertex; marks = t.marks.items; values = t.values.items } };

    ghost invariant = { λ t. IsReading record { game = t.of.value; vertex = t.vertex; marks = t.marks.items; values = t.values.items } };
}

// The most successors that a vertex has.
fn most_successors(game: &Game) -> usize
    ensures { (v : ℕ) → v < length game.now.vertices → length (successors_at (vertex_at game.now v)) ≤ result }
{
    let mut most = 0;
    for v in 0..game.vertices() {
        most = most.max(game.successors(v).len());
    }
    most
}

// Top at each of so many places.
fn tops(alloc: Global, places: usize) -> Result<Vec<Measure>, AllocError>
    ensures { IfOk result (λ values. length values.items ≡ places) }
{
    let mut values = Vec::with_capacity(alloc, places)?;
    for _ in 0..places {
        values.push(Measure::top())?;
    }
    Ok(values)
}

// Takes the first so many marks away.
fn clear(marks: &mut [bool], places: usize)
    requires { places ≤ length marks.old }
    ensures { (k : ℕ) → k < places → slice_index_or marks.new k false ≡ false }
{
    for place in 0..places {
        marks[place] = false;
    }
}

impl Turn {
    /// A turn that may begin. It takes the memory for all that follow.
    ///
    /// # Errors
    /// Out of memory, and nothing else.
    pub fn new(alloc: Global, game: &Game) -> Result<Self, AllocError>
        ensures { IfOk result (λ t. t.game ≡ game.now) }
    {
        game.known();
        let most = most_successors(game);
        Ok(Turn {
            vertex: 0,
            marks: vec![in alloc; false; most]?,
            values: tops(alloc, most)?,
            of: Snapshot::of(game),
        })
    }

    /// What holds of every turn.
    pub fn known(&self)
        ensures { IsReading self.now }
    {
        // For the proof: reading a field makes the invariant known.
        let _ = &self.marks;
    }

    /// Turns to a vertex, of which nothing is read. It takes no memory.
    pub fn begin(&mut self, game: &Game, vertex: u32)
        requires same { self.old.game ≡ game.now }
        requires vertex { vertex < length game.now.vertices }
        ensures { BeginsTurn game.now vertex self.new }
    {
        self.vertex = vertex;
        clear(self.marks.as_mut_slice(), game.successors(vertex).len());
    }

    /// The vertex.
    pub(crate) fn vertex(&self) -> u32
        ensures { result ≡ self.now.vertex }
    {
        self.vertex
    }

    /// Notes the value that was read at the successor that stands at this place. It takes no memory.
    pub fn note(&mut self, place: usize, value: Measure)
        requires place { place < length (successors_read self.old) }
        requires below { LiesBelow self.old.game (slice_index (successors_read self.old) place) value }

        ensures game { self.new.game ≡ self.old.game }
        ensures vertex { self.new.vertex ≡ self.old.vertex }
        ensures marks { self.new.marks ≡ slice_set self.old.marks place true }
        ensures values { self.new.values ≡ slice_set self.old.values place value }
        ensures next { AreRead self.old place → AreRead self.new (place + 1) }
    {
        self.marks[place] = true;
        self.values[place] = value;
    }

    /// Whether the successor at this place was read.
    pub(crate) fn is_read(&self, place: usize) -> bool
        ensures { IsTrue result ↔ IsReadAt self.now place }
    {
        self.marks.get(place).copied().unwrap_or(false)
    }

    /// What the vertex asks for, by what was read at its successors. It lies below.
    pub fn lifted(&self, game: &Game) -> Measure
        requires same { self.now.game ≡ game.now }
        requires vertex { self.now.vertex < length game.now.vertices }
        requires whole { AreRead self.now (length (successors_read self.now)) }

        ensures value { IsDemandOf game.now self.now.vertex (values_of self.now) result }
        ensures below { LiesBelow game.now self.now.vertex result }
    {
        game.known();
        let successors = game.successors(self.vertex);
        demand(game, self.vertex, &self.values[..successors.len()])
    }
}
