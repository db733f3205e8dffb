// Rounds just outside the innermost block that change little: what rests on what is lost is taken away, and gained again at its level if it can be.

use crate::arena::{NONE, SearchNode};
use crate::climb::Change;
use crate::edges::{state_of, takes};
use crate::exits::NEVER;
use crate::search::{ArenaSearch, Vertex};
use crate::sets::{bit, word_of};
use std::cmp::Reverse;
use std::mem;

/// A vertex that is gained at a level.
pub(crate) type Later = (Reverse<u32>, usize, usize);

impl ArenaSearch<'_> {
    /// More lost vertices than so many aren't repaired.
    pub(crate) fn many_lost(&self) -> usize {
        (self.arena.states / 16).saturating_add(64)
    }

    /// Has rounds follow each other after the one in which what is lost was lost, as long as they change little. The answer is whether a climb has to follow.
    pub(crate) fn repair_rounds(&mut self) -> bool {
        for _ in 0..u64::MAX {
            if self.lost.is_empty() || self.left == 0 || !self.repair() {
                break;
            }
            self.close_repaired();
        }
        !self.lost.is_empty()
    }

    // Takes away what is lost and what rests on it, and gains again what has another support. The answer is whether that wasn't too much.
    fn repair(&mut self) -> bool {
        self.gone.clear();
        if self.lost.len() > self.many_lost() {
            return false;
        }
        self.want_back();
        for (node, state) in self.lost.as_slice() {
            self.gain.remove(*node, *state);
        }
        self.todo.extend(self.lost.as_slice());
        for _ in 0..u64::MAX {
            let Some(vertex) = self.todo.pop() else {
                break;
            };
            if self.gone.len() > self.many_lost() {
                self.todo.clear();
                return false;
            }
            self.carry(vertex, Change::Loss);
        }
        let gone = self.gone.len();
        self.pay(gone.saturating_add(1));
        self.regain();
        true
    }

    // Gains again what is gone, in the order of levels.
    fn regain(&mut self) {
        for place in 0..self.gone.len() {
            let (node, state) = self.gone.get_or(place, (NONE, 0));
            self.wait(self.arena.node(node), state);
        }
        for _ in 0..u64::MAX {
            let Some((Reverse(level), node, state)) = self.waiting.pop() else {
                break;
            };
            self.settle((node, state), level, Change::Return);
        }
    }

    /// A vertex that is gained is lost where its children's levels don't support its own any more.
    #[inline(always)]
    pub(crate) fn lose(&mut self, node: SearchNode, state: usize) {
        let number = node.number;
        if !self.is_given(number, state) && self.level(node, state) > self.level_at(number, state) {
            self.gain.remove(number, state);
            self.gone.push((number, state));
            self.todo.push((number, state));
        }
    }

    /// A vertex that isn't gained waits for its level, if its children give it one.
    pub(crate) fn wait(&mut self, node: SearchNode, state: usize) {
        self.await_level(self.level(node, state), (node.number, state));
    }

    /// A vertex is gained at a level, if that ever comes.
    pub(crate) fn await_level(&mut self, level: u32, (node, state): Vertex) {
        if level != NEVER && self.waiting.push((Reverse(level), node, state)).is_err() {
            self.left = 0;
        }
    }

    // The level at which a vertex is gained by the levels of its children.
    fn level(&self, node: SearchNode, state: usize) -> u32 {
        let one = self.part.wants_one(node);
        let of = |best: u32, next: u32| if one { best.min(next) } else { best.max(next) };
        let mut level = if one { NEVER } else { 0 };
        if node.is_modal() {
            for edge in self.arena.forth.row(state, 0) {
                if takes(node.mask, *edge) {
                    level = of(level, self.level_of(node.first, state_of(*edge)));
                }
            }
        } else {
            let first = self.level_of(node.first, state);
            level = of(first, self.level_of(node.second, state));
        }
        level.saturating_add(u32::from(self.part.is_late(node)))
    }

    // The level at which a child was gained: zero where it is outside, a binder of another block, or given.
    #[inline(always)]
    fn level_of(&self, number: usize, state: usize) -> u32 {
        if !self.gain.has(number, state) {
            NEVER
        } else if self.part.is_inner(self.arena.node(number)) && !self.is_given(number, state) {
            self.level_at(number, state)
        } else {
            0
        }
    }

    fn is_given(&self, number: usize, state: usize) -> bool {
        self.given(0, number, word_of(state)) & bit(state) != 0
    }

    // The level of a vertex that was gained by its level.
    fn level_at(&self, number: usize, state: usize) -> u32 {
        let level = self.counted(number, state) >> (self.place % u64::BITS);
        (level & u64::from(u32::MAX)) as u32
    }

    // What stays gone is gained by the player of the next block in the round at hand, and in the round after it the binders over what has changed.
    fn close_repaired(&mut self) {
        mem::swap(&mut self.todo, &mut self.lost);
        for place in 0..self.gone.len() {
            let (node, state) = self.gone.get_or(place, (NONE, 0));
            if !self.gain.has(node, state) {
                self.note(1, self.arena.node(node), word_of(state), bit(state));
                self.todo.push((node, state));
            }
        }
        let round = self.rounds.get_or(1, 0);
        self.rounds.set(1, round.saturating_add(1));
        for _ in 0..u64::MAX {
            let Some(vertex) = self.todo.pop() else {
                break;
            };
            self.lose_over(vertex);
        }
    }

    fn lose_over(&mut self, (child, state): Vertex) {
        let arena = self.arena;
        for node in arena.parents.row(child, 0) {
            let is_around = self.part.has(*node) && self.part.block(*node) == 1;
            if is_around && !self.gain.has(self.row(1, node.number), state) {
                self.note(1, *node, word_of(state), bit(state));
                self.lost.push((node.number, state));
            }
        }
    }
}
