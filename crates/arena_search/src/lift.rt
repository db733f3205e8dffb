// The least measures of nodes: a binder's are what was counted, and those of any other node follow from its children's.

use crate::arena::SearchNode;
use crate::edges::{state_of, takes};
use crate::search::ArenaSearch;

impl ArenaSearch<'_> {
    /// Finds the measures of the component at hand, of which the winners are known: those of binders that lead back to themselves first.
    pub(crate) fn lift_part(&mut self) {
        for are_binders in [true, false] {
            for node in self.members() {
                let is_counted = self.part.is_cyclic && node.is_binder();
                if is_counted == are_binders {
                    self.lift_node(*node, is_counted);
                }
            }
        }
    }

    fn lift_node(&mut self, node: SearchNode, is_counted: bool) {
        let players = [self.layout.even, self.layout.odd];
        let [even, odd] = players.map(|fields| (
            fields.above(node.priority),
            fields.field(node.priority),
        ));
        let list = self.measures(node.number);
        for state in 0..self.arena.states {
            let is_odd = self.odd.has(node.number, state);
            let (above, field) = if is_odd { odd } else { even };
            let word = if is_counted {
                self.won(node.number, state, is_odd)
            } else {
                let one = field & field.wrapping_neg();
                (self.followed(node, state, is_odd) & above).wrapping_add(one)
            };
            // No more can be counted.
            if field != 0 && word & field == field {
                self.most = u32::MAX;
            }
            self.count(list, state, word);
        }
    }

    // What the winner of a binder counts: in the outermost block, or in the next one.
    fn won(&self, number: usize, state: usize, is_odd: bool) -> u64 {
        let last = self.part.blocks.wrapping_sub(1);
        let others = usize::from(self.part.is_evens(last) == is_odd);
        self.counted(self.list(last.wrapping_sub(others), number), state)
    }

    // The measure of the successor by which a vertex is won: the least one where the winner chooses, else the greatest one.
    #[inline(always)]
    fn followed(&self, node: SearchNode, state: usize, is_odd: bool) -> u64 {
        let chooses = node.is_odds == is_odd;
        let better = |best: u64, number: usize, state: usize| {
            let word = self.counted(self.measures(number), state);
            if self.odd.has(number, state) != is_odd {
                best
            } else if chooses {
                best.min(word)
            } else {
                best.max(word)
            }
        };
        let mut best = if chooses { u64::MAX } else { 0 };
        if node.is_modal() {
            for edge in self.arena.forth.row(state, 0) {
                if takes(node.mask, *edge) {
                    best = better(best, node.first, state_of(*edge));
                }
            }
            return best;
        }
        best = better(best, node.first, state);
        better(best, node.second, state)
    }
}
