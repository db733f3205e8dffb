// Parity games, stored as one list of successors.

ghost use Rattle.std.specs.Prelude.{◌≡◌, ◌==◌, ◌↔◌, ◌<◌, ◌≤◌, ◌+◌, ◌^◌, ◌⊎◌, ◌++◌, ◌∷◌, [], ℕ, None, length, map, slice_index, option_map, if◌then◌else◌};
ghost use Rattle.std.specs.Prelude.{IsTrue, IsSome, IfSome, IfOk, OnOk, OnErr};
ghost use Rattle.std.specs.List.{AllByRecursion};
ghost use Rattle.game.specs.Game.{IsGame, IsVertex, vertex, greatest, count as count_of};
ghost use Rattle.game.specs.Arena.{AreNames, place_in};
ghost use Rattle.game.specs.Rises.{rises};
ghost use Rattle.game.specs.View.{moved};

use crate::limits::MOST_VERTICES;
use crate::player::Player;
use std::alloc::{AllocError, Global};
use std::marker::Model;
use std::ops::Range;

// One more than the greatest priority of a game.
const PRIORITIES: usize = 33;

// What is stored of a vertex. Its successors are `count` many from `start` on.
#[derive(Clone, Copy)]
struct VertexRow {
    start: usize,
    count: u32,
    owner: Player,
    priority: u8,
}

/// A parity game, whose vertices are the numbers from 0 on.
#[derive(Drop)]
pub struct Game {
    rows: Vec<VertexRow>,
    successors: Vec<u32>,
    counts: [u32; PRIORITIES],
    greatest: u32,
    named: Option<(u32, u32)>,
}

impl Model for Game {
    ghost use Rattle.game.specs.Game.{Game};

    ghost Value = { Game };

    ghost use Rattle.game.specs.View.{game_of, IsStoredGame};

    ghost view = { game_of };

    ghost invariant = { IsStoredGame };
}

impl Game {
    /// What holds of every game.
    pub fn known(&self)
        ensures { IsGame self.now }
    {
        // For the proof: reading a field makes the invariant known.
        let _ = &self.rows;
    }

    /// How many vertices there are.
    pub fn vertices(&self) -> u32
        ensures { result ≡ length self.now.vertices }
    {
        self.rows.len() as u32
    }

    /// The greatest priority that a vertex has, and 0 where there is no vertex. It takes no look at the vertices.
    pub(crate) fn greatest(&self) -> u32
        ensures { result ≡ greatest self.now }
    {
        self.greatest
    }

    pub fn priority(&self, v: u32) -> u8
        requires { v < length self.now.vertices }
        ensures { option_map (λ x. x.priority) (vertex self.now v) ≡ Some result }
    {
        self.rows[v as usize].priority
    }

    pub fn owner(&self, v: u32) -> Player
        requires { v < length self.now.vertices }
        ensures { option_map (λ x. x.owner) (vertex self.now v) ≡ Some result }
    {
        self.rows[v as usize].owner
    }

    /// The successors of a vertex, ascending.
    pub fn successors(&self, v: u32) -> &[u32]
        requires { v < length self.now.vertices }
        ensures { option_map (λ x. x.successors) (vertex self.now v) ≡ Some result.now }
    {
        let row = self.rows[v as usize];
        &self.successors[row.start..row.start + row.count as usize]
    }

    /// How many vertices have this priority. It takes no look at the vertices.
    pub fn count(&self, priority: u32) -> u32
        ensures { result ≡ count_of self.now priority }
    {
        self.counts.get(priority as usize).copied().unwrap_or(0)
    }

    /// How many states and nodes there are, in a game of states with nodes, whose vertices are named by them.
    pub fn named(&self) -> Option<(u32, u32)>
        ensures { result ≡ self.now.named }
    {
        self.named
    }

    /// The vertex of a state with a node, in a game of states with nodes.
    pub fn vertex_of(&self, state: u32, node: u32) -> u32
        requires { AreNames self.now state node }
        ensures { place_in self.now state node ≡ Some result }
    {
        match self.named {
            Some((_, nodes)) => 2 + (state * nodes + node),
            None => unreachable!(),
        }
    }

    /// The vertices of a state, one for each node in the nodes' order, in a game of states with nodes.
    pub fn state_rows(&self, state: u32) -> Range<u32>
        requires { AreNames self.now state 0 }
        ensures first { place_in self.now state 0 ≡ Some result.start }
        ensures end { place_in self.now (state + 1) 0 ≡ Some result.end }
    {
        match self.named {
            Some((_, nodes)) => {
                let first = 2 + state * nodes;
                first..first + nodes
            }
            None => unreachable!(),
        }
    }
}

// One more vertex of this priority.
fn count_one(counts: &mut [u32; PRIORITIES], priority: u8)
    requires { slice_index counts.old priority < MOST_VERTICES }
    ensures { (p : ℕ) → p ≤ 32 → slice_index counts.new p ≡ slice_index counts.old p + (if priority == p then 1 else 0) }
{
    let place = usize::from(priority);
    if place < PRIORITIES {
        counts[place] += 1;
    }
}

// The greatest priority that is counted, and 0 where none is.
fn greatest_counted(counts: &[u32; PRIORITIES]) -> u32
    ensures none { (p : ℕ) → result < p → p ≤ 32 → slice_index counts.now p ≡ 0 }
    ensures some { (result ≡ 0) ⊎ (0 < slice_index counts.now result) }
    ensures low { result ≤ 32 }
{
    for p in (0..PRIORITIES as u32 - 1).rev() {
        if counts[p as usize + 1] > 0 {
            return p + 1;
        }
    }
    0
}

// The counts of other vertices are added to those of these.
fn add_counts(counts: &mut [u32; PRIORITIES], others: &[u32; PRIORITIES])
    requires { (p : ℕ) → p ≤ 32 → slice_index counts.old p + slice_index others.now p ≤ MOST_VERTICES }
    ensures { (p : ℕ) → p ≤ 32 → slice_index counts.new p ≡ slice_index counts.old p + slice_index others.now p }
{
    for priority in 0..PRIORITIES {
        counts[priority] += others[priority];
    }
}

// Rows of vertices whose successors stand that many places further on.
fn push_moved(
    rows: &mut Vec<VertexRow>,
    more: &[VertexRow],
    places: usize,
) -> Result<(), AllocError>
    requires { AllByRecursion (λ row. row.start + places < 2 ^ 64) more.now }
    ensures { OnOk result (rows.new.items ≡ rows.old.items ++ map (moved places) more.now) }
{
    rows.reserve(more.len())?;
    for row in more {
        let row = *row;
        let start = row.start + places;
        rows.push(VertexRow { start, ..row })?;
    }
    Ok(())
}

// Whether the numbers rise and are below the limit.
fn is_ascending(limit: usize, numbers: &[u32]) -> bool
    ensures { result ≡ rises limit 0 numbers.now }
{
    let mut least = 0;
    for number in numbers {
        let number = *number as usize;
        if number < least || number >= limit {
            return false;
        }
        least = number + 1;
    }
    true
}

/// A game that is being made, one vertex after another.
#[derive(Drop)]
pub struct GameBuilder {
    rows: Vec<VertexRow>,
    successors: Vec<u32>,
    counts: [u32; PRIORITIES],
}

impl Model for GameBuilder {
    ghost use Rattle.std.specs.Prelude.{List};
    ghost use Rattle.game.specs.Game.{Vertex};

    ghost Value = { List Vertex };

    ghost use Rattle.game.specs.View.{vertices_in, IsStoredBuilder};

    ghost view = { vertices_in };

    ghost invariant = { IsStoredBuilder };
}

impl GameBuilder {
    /// No vertex yet.
    pub fn new(alloc: Global) -> Self
        ensures { result ≡ [] }
    {
        GameBuilder {
            rows: Vec::new(alloc),
            successors: Vec::new(alloc),
            counts: [0; PRIORITIES],
        }
    }

    /// How many vertices there are so far.
    pub fn vertices(&self) -> usize
        ensures count { result ≡ length self.now }
        ensures limit { result ≤ MOST_VERTICES }
    {
        self.rows.len()
    }

    /// One more vertex. What makes a game of vertices is tested at the end.
    ///
    /// # Errors
    /// Out of memory, and nothing else; the vertices are what they were.
    pub fn push(
        &mut self,
        owner: Player,
        priority: u8,
        successors: &[u32],
    ) -> Result<(), AllocError>
        requires room { length self.old < MOST_VERTICES }
        requires few { length successors.now ≤ MOST_VERTICES }
        ensures ok { OnOk result (self.new ≡ self.old ++ record { owner = owner; priority = priority; successors = successors.now } ∷ []) }
        ensures err { OnErr result (self.new ≡ self.old) }
    {
        let start = self.successors.len();
        self.successors.extend_from_slice(successors)?;
        let count = successors.len() as u32;
        self.rows.push(VertexRow {
            start,
            count,
            owner,
            priority,
        })?;
        count_one(&mut self.counts, priority);
        Ok(())
    }

    /// No vertex yet, and room for so many.
    pub(crate) fn with_room(alloc: Global, vertices: usize) -> Result<Self, AllocError>
        ensures { IfOk result (λ builder. builder ≡ []) }
    {
        let mut builder = GameBuilder::new(alloc);
        builder.rows.reserve_exact(vertices)?;
        Ok(builder)
    }

    /// These vertices, and then those of another builder.
    pub(crate) fn joined(mut self, other: &GameBuilder) -> Result<GameBuilder, AllocError>
        requires { length self + length other.now ≤ MOST_VERTICES }
        ensures { IfOk result (λ builder. builder ≡ self ++ other.now) }
    {
        let base = self.successors.len();
        self.successors.extend_from_slice(&other.successors)?;
        push_moved(&mut self.rows, &other.rows, base)?;
        add_counts(&mut self.counts, &other.counts);
        Ok(self)
    }

    /// The game of these vertices, where they make one: each successor is one of them.
    pub fn finish(self) -> Option<Game>
        ensures variant { IsSome result ↔ IsGame record { vertices = self; named = None } }
        ensures game { IfSome result (λ g. g ≡ record { vertices = self; named = None }) }
    {
        if self.is_game() {
            Some(self.into_game())
        } else {
            None
        }
    }

    /// Whether these vertices make a game: there is one at least, and each has successors, all of them vertices, and a priority
    /// within the limit.
    pub fn is_game(&self) -> bool
        ensures { IsTrue result ↔ IsGame record { vertices = self.now; named = None } }
    {
        !self.rows.is_empty() && self.are_vertices()
    }

    // Whether each of these is a vertex of a game of so many.
    fn are_vertices(&self) -> bool
        ensures { IsTrue result ↔ AllByRecursion (IsVertex (length self.now)) self.now }
    {
        let limit = self.rows.len();
        for row in &self.rows {
            let successors = &self.successors[row.start..row.start + row.count as usize];
            if usize::from(row.priority) >= PRIORITIES
                || successors.is_empty()
                || !is_ascending(limit, successors)
            {
                return false;
            }
        }
        true
    }

    /// The game of these vertices, which have no names.
    pub fn into_game(self) -> Game
        requires { IsGame record { vertices = self; named = None } }
        ensures { result ≡ record { vertices = self; named = None } }
    {
        self.into_named(None)
    }

    /// The game of these vertices, which are named by numbers of states and of nodes or not at all.
    pub(crate) fn into_named(self, named: Option<(u32, u32)>) -> Game
        requires { IsGame record { vertices = self; named = named } }
        ensures { result ≡ record { vertices = self; named = named } }
    {
        let counts = self.counts;
        Game {
            rows: self.rows,
            successors: self.successors,
            greatest: greatest_counted(&counts),
            counts,
            named,
        }
    }
}
