// Sets of vertices.

ghost use Rattle.std.specs.Prelude.{◌≡◌, ◌<◌, ◌↔◌, [], false, true, IfOk, IsTrue, length, replicate, slice_set};
ghost use Rattle.liftcore.specs.Marks.{IsMarked, members};

use std::alloc::{AllocError, Global};
use std::marker::Model;

/// A set of the vertices of a game: a mark for each vertex.
#[derive(Drop)]
pub struct VertexSet {
    marks: Vec<bool>,
    count: usize,
}

impl Model for VertexSet {
    ghost use Rattle.std.specs.Prelude.{◌≡◌, Bool, List, count_by};

    ghost Value = { List Bool };

    ghost view = { λ m. m.marks.items };

    ghost invariant = { λ m. m.count ≡ count_by (λ b. b) m.marks.items };
}

impl VertexSet {
    /// None of so many vertices.
    pub fn none(alloc: Global, vertices: usize) -> Result<Self, AllocError>
        ensures { IfOk result (λ m. m ≡ replicate vertices false) }
    {
        Ok(VertexSet {
            marks: vec![in alloc; false; vertices]?,
            count: 0,
        })
    }

    /// All of so many vertices.
    pub fn all(alloc: Global, vertices: usize) -> Result<Self, AllocError>
        ensures { IfOk result (λ m. m ≡ replicate vertices true) }
    {
        Ok(VertexSet {
            marks: vec![in alloc; true; vertices]?,
            count: vertices,
        })
    }

    /// Whether a vertex is one of them.
    pub fn has(&self, v: u32) -> bool
        ensures { IsTrue result ↔ IsMarked self.now v }
    {
        self.marks.get(v as usize).copied().unwrap_or(false)
    }

    /// Whether there is none.
    pub fn is_empty(&self) -> bool
        ensures { IsTrue result ↔ (members self.now ≡ []) }
    {
        self.count == 0
    }

    /// One more, if it isn't there.
    pub fn insert(&mut self, v: u32)
        requires { v < length self.old }
        ensures { self.new ≡ slice_set self.old v true }
    {
        if !self.has(v) {
            self.marks[v as usize] = true;
            self.count += 1;
        }
    }

    /// All but this.
    pub fn remove(&mut self, v: u32)
        requires { v < length self.old }
        ensures { self.new ≡ slice_set self.old v false }
    {
        if self.has(v) {
            self.marks[v as usize] = false;
            self.count -= 1;
        }
    }
}
