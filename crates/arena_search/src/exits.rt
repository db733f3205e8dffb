// Nodes outside a component. What is won there is gained at once where no measures are wanted; else at the level, or in the round, of its measure.

use crate::climb::Change;
use crate::search::ArenaSearch;
use crate::sets::{bit, states_of};
use std::cmp::Reverse;

/// No level.
pub(crate) const NEVER: u32 = u32::MAX;

impl ArenaSearch<'_> {
    /// Whether what is won at a node outside counts in the component.
    pub(crate) fn is_timed(&self, number: usize) -> bool {
        (0..self.arena.states).any(|state| self.counted_here(number, state) != 0)
    }

    // What the measure of a vertex counts in the fields of the component's blocks.
    fn counted_here(&self, number: usize, state: usize) -> u64 {
        let fields = self.layout.fields(self.odd.has(number, state));
        let end = self.part.priority(self.part.blocks);
        let here = fields.above(self.part.least) & !fields.above(end);
        self.counted(self.measures(number), state) & here
    }

    // The rounds at hand of a player's blocks outside of a block.
    fn rounds_around(&self, is_odd: bool, block: usize) -> u64 {
        let mut rounds = 0_u64;
        for outer in block.wrapping_add(1)..self.part.blocks {
            if self.part.is_evens(outer) != is_odd {
                let unit = self.layout.unit(self.part.priority(outer));
                let round = u64::from(self.rounds.get_or(outer, 0));
                rounds = rounds.wrapping_add(unit.wrapping_mul(round));
            }
        }
        rounds
    }

    // The level or round in which the player of a block gains a vertex outside.
    fn entry(&self, block: usize, number: usize, state: usize) -> u32 {
        let is_odd = self.odd.has(number, state);
        let is_own = self.part.is_evens(block) != is_odd;
        let fields = self.layout.fields(is_odd);
        let priority = self.part.priority(block);
        let word = self.counted_here(number, state);
        let above = fields.above(priority.wrapping_add(u32::from(is_own)));
        let rounds = self.rounds_around(is_odd, block) & above;
        if is_own && word & above == rounds {
            fields.count(priority, word)
        } else if (word & above < rounds) == is_own && word & above != rounds {
            0
        } else {
            NEVER
        }
    }

    /// What the player of a block has of a node outside in the round at hand.
    pub(crate) fn exit(&self, block: usize, number: usize, word: usize) -> u64 {
        let odd = self.odd.word(number, word);
        let all = self.gain.all(word);
        let won = if self.part.is_evens(block) { !odd } else { odd };
        if !self.are_timed {
            return won & all;
        }
        let round = self.rounds.get_or(block, 0);
        let mut bits = 0;
        for state in states_of(word, all) {
            if self.entry(block, number, state) <= round {
                bits |= bit(state);
            }
        }
        bits
    }

    /// What the player of the innermost block gains of a node outside after the first level waits for its own.
    pub(crate) fn await_exit(&mut self, node: usize) {
        let timed = if self.are_timed { self.arena.states } else { 0 };
        for state in 0..timed {
            let level = self.entry(0, node, state);
            if level > 0 {
                self.await_level(level, (node, state));
            }
        }
    }

    /// The level at which the next one of those comes.
    pub(crate) fn next_entry(&self) -> u32 {
        let next = self.waiting.peek();
        next.map_or(NEVER, |(Reverse(level), _, _)| *level)
    }

    /// Those that come at this level are new: from the next level on those that lead to them are gained by them, or at once where all states are looked at.
    pub(crate) fn enter_exits(&mut self, level: u32) {
        for _ in 0..u64::MAX {
            if self.next_entry() != level {
                break;
            }
            if let Some((_, node, state)) = self.waiting.pop() {
                self.gain.put(node, state);
                if self.is_walking {
                    self.carry((node, state), Change::Gain);
                } else {
                    self.news.set(node, true);
                }
            }
        }
    }

    /// Where a round changes nothing, the next one is that in which something comes from outside. The answer is whether there is one.
    pub(crate) fn wait_for_exits(&mut self, block: usize, round: u32) -> bool {
        let mut next = NEVER;
        let exits = if self.are_timed { self.exits() } else { &[] };
        for exit in exits {
            let entries = (0..self.arena.states).map(|state| self.entry(block, exit.number, state));
            let after = entries.filter(|entry| *entry > round).min();
            next = next.min(after.unwrap_or(NEVER));
        }
        self.rounds.set(block, next);
        next != NEVER
    }
}
