// The innermost block, by levels: a binder comes one level after its child, any other node with the children by which it is gained.

use crate::arena::SearchNode;
use crate::edges::{state_of, takes};
use crate::exits::NEVER;
use crate::search::{ArenaSearch, Vertex};
use crate::sets::{bit, states_of};
use std::mem;

// Levels of fewer vertices are found vertex by vertex.
const MANY: usize = 2_000;

// How many times as long it takes to go back from a state as to look whether another one leads there.
const BACK: usize = 16;

/// What becomes of the vertices that lead to another one.
#[derive(Clone, Copy)]
pub(crate) enum Change {
    /// The player of the innermost block gains them.
    Gain,
    /// That player loses them.
    Loss,
    /// That player gains them again.
    Return,
}

impl ArenaSearch<'_> {
    /// Finds what the player of the innermost block gains, with the levels.
    pub(crate) fn climb(&mut self) {
        self.is_walking = false;
        let mut level = 0_u32;
        for _ in 0..u64::MAX {
            let found = if self.is_walking {
                self.walk(level)
            } else {
                self.fill(level)
            };
            self.pay(found.saturating_add(1));
            let next = if found > 0 {
                level.saturating_add(1)
            } else {
                self.next_entry()
            };
            if self.left == 0 || next == NEVER {
                break;
            }
            level = next;
        }
        self.most = self.most.max(level);
    }

    // A level of all states at once. The answer is how much the next one gains.
    fn fill(&mut self, level: u32) -> usize {
        self.enter_exits(level);
        self.looks = 0;
        self.take_all(level, true);
        self.take_all(level, false);
        let mut found = 0_usize;
        for node in self.members() {
            if self.part.is_late(*node) {
                found = found.wrapping_add(self.look(*node, level));
            }
        }
        self.news.as_mut_slice().fill(false);
        let is_over = found == 0 && self.waiting.is_empty();
        self.is_walking = !is_over && !self.is_dense(found);
        if self.is_walking {
            self.list_next();
        }
        found
    }

    // Gains in this level what was found in the one before of the nodes that are late, or what is found now of the others.
    fn take_all(&mut self, level: u32, are_late: bool) {
        for node in self.members() {
            if self.part.is_late(*node) == are_late && (are_late || self.look(*node, level) > 0) {
                self.take(node.number, level);
            }
        }
    }

    // Whether it takes less time to look at all states for the next level than to go back from what it gains. Edges back are made once that has taken long.
    fn is_dense(&mut self, found: usize) -> bool {
        let is_dense = found > MANY && found.saturating_mul(BACK) > self.looks;
        let cost = self.looks.saturating_add(self.gain.width);
        if is_dense || !self.back.items.is_empty() || cost > self.spare {
            return is_dense;
        }
        self.spare = self.spare.saturating_sub(cost);
        true
    }

    // Finds the states at which a node is gained by what its children are, and isn't yet. The answer is how many there are. In the first level one that
    // waits for all successors is gained where there are none, too.
    fn look(&mut self, node: SearchNode, level: u32) -> usize {
        let is_new = self.news.get_or(node.first, false) || self.news.get_or(node.second, false);
        let are_ends = level == 0 && node.is_modal() && !self.part.wants_one(node);
        if self.part.block(node) > 0 || !is_new && !are_ends {
            return 0;
        }
        let mut found = 0_usize;
        for word in 0..self.gain.width {
            let bits = self.wanted(node, word);
            self.next.set_word(node.number, word, bits);
            found = found.wrapping_add(bits.count_ones() as usize);
        }
        found
    }

    // The states of a node that are gained by its children. What the player of the next block has gained before was lost for good.
    fn wanted(&mut self, node: SearchNode, word: usize) -> u64 {
        let mut gained = self.gain.word(node.number, word);
        if self.part.blocks > 1 {
            gained |= self.gain.word(self.row(1, node.number), word);
        }
        let rest = self.gain.all(word) & !gained;
        if node.is_modal() {
            return self.pulled(node, word, rest);
        }
        let first = self.gain.word(node.first, word);
        let second = self.gain.word(node.second, word);
        let one = self.part.wants_one(node);
        rest & if one { first | second } else { first & second }
    }

    // From states that aren't gained yet on to their successors.
    fn pulled(&mut self, node: SearchNode, word: usize, rest: u64) -> u64 {
        let wants_one = self.part.wants_one(node);
        let mut bits = 0;
        for state in states_of(word, rest) {
            let mut edges = self.arena.forth.row(state, 0).iter();
            let is_gained = if wants_one {
                edges.any(|edge| takes(node.mask, *edge)
                    && self.gain.has(node.first, state_of(*edge)))
            } else {
                self.has_all(node, state)
            };
            if is_gained {
                bits |= bit(state);
            }
        }
        let looked = (rest & !bits).count_ones();
        self.looks = self.looks.wrapping_add(looked as usize);
        bits
    }

    // Whether all successors are gained. If not, the first one that isn't is noted.
    #[inline(always)]
    fn has_all(&mut self, node: SearchNode, state: usize) -> bool {
        let arena = self.arena;
        let first = self.cursors.get(node.number, state);
        let mut passed = first;
        for edge in arena.forth.row(state, first) {
            if takes(node.mask, *edge) && !self.gain.has(node.first, state_of(*edge)) {
                self.cursors.set(node.number, state, passed);
                return false;
            }
            passed = passed.wrapping_add(1);
        }
        true
    }

    // Gains what was found of a node.
    fn take(&mut self, number: usize, level: u32) {
        let counted = self.leveled(level);
        for word in 0..self.gain.width {
            let bits = self.next.taken(number, word);
            if bits != 0 {
                self.gain.add(number, word, bits);
                self.news.set(number, true);
                self.count_all(number, word, bits, counted);
            }
        }
    }

    // Lists what is found for the next level.
    fn list_next(&mut self) {
        for node in self.members() {
            for word in 0..self.gain.width {
                for state in states_of(word, self.next.taken(node.number, word)) {
                    self.later.push((node.number, state));
                }
            }
        }
    }

    // A level of few vertices, from each of them back to those that lead to it. The answer is how much the next one gains.
    fn walk(&mut self, level: u32) -> usize {
        self.want_back();
        mem::swap(&mut self.todo, &mut self.later);
        self.enter_exits(level);
        for _ in 0..u64::MAX {
            let Some(vertex) = self.todo.pop() else {
                break;
            };
            self.settle(vertex, level, Change::Gain);
        }
        let found = self.later.len();
        if found > MANY && self.is_dense(found) {
            self.is_walking = false;
            for (node, state) in self.later.as_slice() {
                self.next.put(*node, *state);
            }
            self.later.clear();
        }
        found
    }

    /// The player of the innermost block gains a vertex at a level, if that hasn't it yet.
    #[inline(always)]
    pub(crate) fn settle(&mut self, vertex: Vertex, level: u32, change: Change) {
        let (node, state) = vertex;
        if !self.gain.has(node, state) {
            self.gain.put(node, state);
            self.count(node, state, self.leveled(level));
            self.carry(vertex, change);
        }
    }

    // A level, in its field.
    fn leveled(&self, level: u32) -> u64 {
        u64::from(level) << (self.place % u64::BITS)
    }

    /// Carries a change of a vertex on to those of the innermost block that lead to it.
    #[inline(always)]
    pub(crate) fn carry(&mut self, (child, state): Vertex, change: Change) {
        let arena = self.arena;
        for node in arena.parents.row(child, 0) {
            if self.part.is_inner(*node) {
                if node.is_modal() {
                    self.carry_back(*node, state, change);
                } else {
                    self.meet(*node, state, change);
                }
            }
        }
    }

    #[inline(always)]
    fn carry_back(&mut self, node: SearchNode, state: usize, change: Change) {
        for place in self.back.places(state) {
            let edge = self.back.items.get_or(place, 0);
            if takes(node.mask, edge) {
                self.meet(node, state_of(edge), change);
            }
        }
    }

    #[inline(always)]
    fn meet(&mut self, node: SearchNode, state: usize, change: Change) {
        let is_done = self.gain.has(node.number, state);
        match change {
            Change::Gain if !is_done => self.reach(node, state),
            Change::Loss if is_done => self.lose(node, state),
            Change::Return if !is_done => self.wait(node, state),
            _ => (),
        }
    }

    // Lists a vertex that has a new child or successor, if it is gained by that.
    #[inline(always)]
    fn reach(&mut self, node: SearchNode, state: usize) {
        let is_ready = if self.part.wants_one(node) {
            true
        } else if node.is_modal() {
            self.has_all(node, state)
        } else {
            self.gain.has(node.first, state) && self.gain.has(node.second, state)
        };
        if is_ready && self.part.is_late(node) {
            self.later.push((node.number, state));
        } else if is_ready {
            self.todo.push((node.number, state));
        }
    }
}
