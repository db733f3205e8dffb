// Which vertices may rise next. Nothing rests on these lists but time: what they miss, a sweep over all vertices finds.

ghost use Rattle.std.specs.Prelude.{◌≡◌, ◌≤◌, IfOk, vec_len};

use game::graph::Game;
use game::predecessors::Predecessors;
use std::alloc::{AllocError, Global};
use std::marker::Model;

// A vertex on a walk's path, and how many of its successors the walk has seen.
#[derive(Clone, Copy)]
struct PathVertex {
    vertex: u32,
    seen: u32,
}

// A walk along all edges, depth first. It puts each vertex into the list when it has seen all successors, from the
// list's end on: so the list's last vertex waits for none of them.
#[derive(Drop)]
struct EdgeWalk {
    root: u32,
    entered: Vec<bool>,
    path: Vec<PathVertex>,
    depth: usize,
    list: Vec<u32>,
    unplaced: usize,
}

impl EdgeWalk {
    fn new(alloc: Global, vertices: usize) -> Result<Self, AllocError> {
        let start = PathVertex { vertex: 0, seen: 0 };
        Ok(EdgeWalk {
            root: 0,
            entered: vec![in alloc; false; vertices]?,
            path: vec![in alloc; start; vertices]?,
            depth: 0,
            list: vec![in alloc; 0; vertices]?,
            unplaced: vertices,
        })
    }

    fn enter(&mut self, vertex: u32) {
        let place = vertex as usize;
        if place >= self.entered.len() || self.entered[place] {
            return;
        }
        self.entered[place] = true;
        if self.depth < self.path.len() {
            self.path[self.depth] = PathVertex { vertex, seen: 0 };
            self.depth += 1;
        }
    }

    fn leave(&mut self, vertex: u32) {
        self.depth = self.depth.saturating_sub(1);
        self.unplaced = self.unplaced.saturating_sub(1);
        if self.unplaced < self.list.len() {
            self.list[self.unplaced] = vertex;
        }
    }

    // Sees one more successor of the path's last vertex, or leaves it; begins anew where the path is empty.
    fn go_on(&mut self, game: &Game) {
        match self.path.get_mut(self.depth.wrapping_sub(1)) {
            Some(step) if step.vertex < game.vertices() => {
                let vertex = step.vertex;
                match game.successors(vertex).get(step.seen as usize) {
                    Some(next) => {
                        step.seen = step.seen.saturating_add(1);
                        self.enter(*next);
                    }
                    None => self.leave(vertex),
                }
            }
            _ => {
                let root = self.root;
                self.root = root.saturating_add(1);
                self.enter(root);
            }
        }
    }
}

// The vertices by a walk: each comes after those that lead to it, as far as cycles let it.
fn walked(alloc: Global, game: &Game) -> Result<Vec<u32>, AllocError> {
    let mut walk = EdgeWalk::new(alloc, game.vertices() as usize)?;
    for _ in 0..u64::MAX {
        if walk.unplaced == 0 {
            break;
        }
        walk.go_on(game);
    }
    Ok(walk.list)
}

// The vertices by their numbers.
fn numbered(alloc: Global, vertices: u32) -> Result<Vec<u32>, AllocError> {
    let mut list = vec![in alloc; 0; vertices as usize]?;
    for v in 0..vertices {
        let place = v as usize;
        if place < list.len() {
            list[place] = v;
        }
    }
    Ok(list)
}

// Vertices that wait, each once. The one that came last is taken first, so that a rise is carried on before others begin.
#[derive(Drop)]
struct Stack {
    marks: Vec<bool>,
    list: Vec<u32>,
    waiting: usize,
    ghost room: { waiting ≤ vec_len list },
}

impl Stack {
    // All of them wait, and the list's last comes first.
    fn new(alloc: Global, list: Vec<u32>) -> Result<Self, AllocError> {
        Ok(Stack {
            marks: vec![in alloc; true; list.len()]?,
            waiting: list.len(),
            list,
        })
    }

    fn push(&mut self, v: u32) {
        let place = v as usize;
        if place >= self.marks.len() || self.marks[place] || self.waiting >= self.list.len() {
            return;
        }
        self.marks[place] = true;
        self.list[self.waiting] = v;
        self.waiting += 1;
    }

    fn pop(&mut self) -> Option<u32> {
        if self.waiting == 0 {
            return None;
        }
        self.waiting -= 1;
        let v = self.list[self.waiting];
        let place = v as usize;
        if place < self.marks.len() {
            self.marks[place] = false;
        }
        Some(v)
    }
}

/// What may rise next, with all the memory that lifting needs. It is seen as the game whose predecessors it has.
#[derive(Drop)]
pub(crate) struct PendingVertices {
    predecessors: Predecessors,
    stack: Stack,
}

impl Model for PendingVertices {
    ghost use Rattle.game.specs.Game.{Game};

    ghost Value = { Game };

    ghost view = { λ p. p.predecessors };
}

impl PendingVertices {
    /// All vertices. Where counts can climb, those come first to which others lead: so what is lost is seen to be lost at
    /// once, and not when all counts have climbed.
    pub(crate) fn of(alloc: Global, game: &Game, climbs: bool) -> Result<Self, AllocError>
        ensures { IfOk result (λ p. p ≡ game.now) }
    {
        let predecessors = Predecessors::of(alloc, game)?;
        let list = if climbs {
            walked(alloc, game)?
        } else {
            numbered(alloc, game.vertices())?
        };
        Ok(PendingVertices {
            predecessors,
            stack: Stack::new(alloc, list)?,
        })
    }

    /// Those that lifting goes back along.
    pub(crate) fn predecessors(&self) -> &Predecessors
        ensures { result.now ≡ self.now }
    {
        &self.predecessors
    }

    /// A vertex rose: those that have it among their successors may rise too.
    pub(crate) fn note(&mut self, v: u32)
        ensures { self.new ≡ self.old }
    {
        for u in self.predecessors.get(v) {
            self.stack.push(*u);
        }
    }

    /// The vertex that came last.
    pub(crate) fn next(&mut self) -> Option<u32>
        ensures { self.new ≡ self.old }
    {
        self.stack.pop()
    }
}
