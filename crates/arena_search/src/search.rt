// What is found of a component: the innermost block by levels, the others by rounds.

use crate::arena::{Arena, NONE, SearchNode};
use crate::edges::edges_back;
use crate::fields::Layout;
use crate::part::NodeComponent;
use crate::repair::Later;
use crate::sets::{Sets, states_of};
use crate::table::{NumberLists, Rows};
use game::list::List;
use std::alloc::Global;
use std::collections::BinaryHeap;

// How many vertices may be looked at, which takes some seconds.
const BUDGET: u64 = 100_000_000;

/// A node, by its number, at a state.
pub(crate) type Vertex = (usize, usize);

/// The search, with the component at hand.
#[derive(Drop)]
pub(crate) struct ArenaSearch<'a> {
    pub(crate) alloc: Global,
    pub(crate) arena: &'a Arena,
    pub(crate) layout: Layout,
    pub(crate) part: NodeComponent,
    /// The edges back, once they are wanted.
    pub(crate) back: Rows<u32>,
    /// Whether the measures outside of the component count in it.
    pub(crate) are_timed: bool,
    /// The lowest bit of the field of levels, and for each block the round at hand.
    pub(crate) place: u32,
    pub(crate) rounds: List<u32>,
    /// For each block and node the states that the player of the block has gained.
    pub(crate) gain: Sets,
    /// For each node the states that are gained next, and whether any were gained in the level at hand.
    pub(crate) next: Sets,
    pub(crate) news: List<bool>,
    /// For each node the states that Odd wins.
    pub(crate) odd: Sets,
    // How many lists are between those of a node for a block and for the next one.
    stride: usize,
    /// For each node what was counted when it was gained last, by the player who gained it: the level or the rounds of the block, with what the player's
    /// blocks inside it count. One of both is in use, by the layout.
    pub(crate) counts: NumberLists<u32>,
    pub(crate) words: NumberLists<u64>,
    /// For each modality that waits for all successors how many of the first ones need no more look.
    pub(crate) cursors: NumberLists<u32>,
    /// Whether vertices are looked at one by one: those of the level at hand, and of the next one.
    pub(crate) is_walking: bool,
    pub(crate) todo: List<Vertex>,
    pub(crate) later: List<Vertex>,
    /// Binders that the player of the innermost block has lost, and what that player has lost by them.
    pub(crate) lost: List<Vertex>,
    pub(crate) gone: List<Vertex>,
    pub(crate) waiting: BinaryHeap<Later>,
    /// The greatest count.
    pub(crate) most: u32,
    /// How many more vertices may be looked at: none once there is no memory.
    pub(crate) left: u64,
    /// How many states were looked at in the level at hand, and may be before edges back are made.
    pub(crate) looks: usize,
    pub(crate) spare: usize,
}

impl<'a> ArenaSearch<'a> {
    /// What is found of all nodes, component by component, if counts fit their fields and it doesn't take too long.
    pub(crate) fn of(alloc: Global, arena: &'a Arena) -> Option<Self> {
        for is_wide in [false, true] {
            let mut search = ArenaSearch::new(alloc, arena, Layout::of(arena, is_wide));
            for root in (0..arena.count()).rev() {
                search.solve(root);
            }
            if search.left == 0 || !search.is_whole() {
                return None;
            }
            if search.layout.holds(search.most) {
                return Some(search);
            }
        }
        None
    }

    fn new(alloc: Global, arena: &'a Arena, layout: Layout) -> Self {
        let (nodes, states) = (arena.count(), arena.states);
        let blocks = arena.parts.as_slice().iter().map(|part| part.blocks);
        let blocks = blocks.max().unwrap_or(0).max(2);
        let rows = blocks.saturating_mul(nodes);
        let stride = if arena.is_exact { nodes } else { 0 };
        ArenaSearch {
            alloc,
            arena,
            layout,
            part: arena.part(0),
            back: Rows::none(alloc),
            are_timed: false,
            place: 0,
            rounds: List::filled(alloc, blocks, 0),
            gain: Sets::new(alloc, rows, states),
            next: Sets::new(alloc, nodes, states),
            news: List::filled(alloc, nodes, false),
            odd: Sets::new(alloc, nodes, states),
            stride,
            counts: NumberLists::new(alloc, states, 0),
            words: NumberLists::new(alloc, states, 0),
            cursors: NumberLists::new(alloc, states, 0),
            is_walking: false,
            todo: List::none(alloc),
            later: List::none(alloc),
            lost: List::none(alloc),
            gone: List::none(alloc),
            waiting: BinaryHeap::new(alloc),
            most: 0,
            left: BUDGET,
            looks: 0,
            spare: arena.forth.items.len() / 4,
        }
    }

    fn is_whole(&self) -> bool {
        let sets = [&self.gain, &self.next, &self.odd];
        let are_sets = sets.iter().all(|set| set.words.is_whole());
        let are_tables = self.counts.is_whole && self.words.is_whole && self.cursors.is_whole;
        let are_steps = self.todo.is_whole() && self.later.is_whole() && self.lost.is_whole();
        let are_others = self.gone.is_whole() && self.back.is_whole() && self.rounds.is_whole();
        are_sets && are_tables && are_steps && are_others && self.news.is_whole()
    }

    /// So many vertices were looked at.
    pub(crate) fn pay(&mut self, vertices: usize) {
        self.left = self.left.saturating_sub(vertices as u64);
    }

    /// The row of a node in a block.
    pub(crate) fn row(&self, block: usize, node: usize) -> usize {
        block.wrapping_mul(self.arena.count()).wrapping_add(node)
    }

    /// The list of a node for a block: one for all blocks, but where the least measures are wanted.
    pub(crate) fn list(&self, block: usize, node: usize) -> usize {
        block.wrapping_mul(self.stride).wrapping_add(node)
    }

    /// The list of the measures of a node, where these are wanted.
    pub(crate) fn measures(&self, node: usize) -> usize {
        self.list(self.rounds.len(), node)
    }

    #[inline(always)]
    pub(crate) fn counted(&self, list: usize, state: usize) -> u64 {
        if self.layout.is_wide {
            self.words.get(list, state)
        } else {
            u64::from(self.counts.get(list, state))
        }
    }

    pub(crate) fn has_counts(&self, list: usize) -> bool {
        self.counts.has(list) || self.words.has(list)
    }

    #[inline(always)]
    pub(crate) fn count(&mut self, list: usize, state: usize, word: u64) {
        if self.layout.is_wide {
            self.words.set(list, state, word);
        } else {
            let word = (word & u64::from(u32::MAX)) as u32;
            self.counts.set(list, state, word);
        }
    }

    pub(crate) fn count_all(&mut self, list: usize, word: usize, bits: u64, counted: u64) {
        for state in states_of(word, bits) {
            self.count(list, state, counted);
        }
    }

    /// Has the edges back at hand.
    pub(crate) fn want_back(&mut self) {
        if self.back.items.is_empty() {
            self.back = edges_back(self.alloc, &self.arena.forth);
        }
    }

    /// The nodes of the component that no others stand for, each after those below it.
    pub(crate) fn members(&self) -> &'a [SearchNode] {
        self.arena.members.row(self.part.root, 0)
    }

    /// The nodes outside to which they lead.
    pub(crate) fn exits(&self) -> &'a [SearchNode] {
        self.arena.exits.row(self.part.root, 0)
    }

    // Finds who wins the nodes of the component with this root, if it is one, where it is known of those below it.
    fn solve(&mut self, root: usize) {
        if self.arena.node(root).root != root || self.left == 0 {
            return;
        }
        self.part = self.arena.part(root);
        self.place = self.layout.place(self.part.least);
        let may_count = self.part.is_cyclic && self.arena.is_exact;
        self.are_timed = may_count && self.exits().iter().any(|exit| self.is_timed(exit.number));
        self.play();
        self.conclude();
        if self.arena.is_exact {
            self.lift_part();
        }
    }

    // Has rounds follow each other until no block goes on.
    fn play(&mut self) {
        let mut end = self.part.blocks;
        for _ in 0..u64::MAX {
            self.begin(end);
            self.climb();
            let next = (1..self.part.blocks).find(|block| self.close_round(*block));
            match next {
                Some(block) if self.left > 0 => end = block,
                _ => break,
            }
        }
    }

    // Begins the blocks inside this one.
    fn begin(&mut self, end: usize) {
        let members = self.members();
        self.pay(members.len().saturating_mul(self.arena.states) / 16);
        if !self.is_whole() {
            self.left = 0;
        }
        for block in (0..end).rev() {
            self.rounds.set(block, 0);
            for node in members {
                self.begin_node(block, *node);
            }
        }
        for exit in self.exits() {
            self.begin_node(0, *exit);
            self.await_exit(exit.number);
        }
    }

    // All that is gained before the first level is new in it.
    fn begin_node(&mut self, block: usize, node: SearchNode) {
        let SearchNode { number, first, .. } = node;
        let row = self.row(block, number);
        let is_known = !self.part.has(node) || self.part.block(node) > block;
        let is_won = first == NONE && !self.part.wants_one(node);
        self.news.set(number, false);
        self.cursors.clear(number);
        for word in 0..self.gain.width {
            let bits = if is_known {
                self.status(node, block, word)
            } else if is_won {
                self.gain.all(word)
            } else {
                self.given(block, number, word)
            };
            self.gain.set_word(row, word, bits);
            if bits != 0 {
                self.news.set(number, true);
            }
            if block == 0 && self.arena.is_exact && self.part.has(node) {
                self.count_all(number, word, bits, 0);
            }
        }
    }

    /// What a block's player has of a node before the block begins: what the next block of that player has gained.
    pub(crate) fn given(&self, block: usize, number: usize, word: usize) -> u64 {
        let outer = block.wrapping_add(2);
        if outer < self.part.blocks {
            self.gain.word(self.row(outer, number), word)
        } else {
            0
        }
    }

    // What the player of a block has of a node that the player of another one has gained.
    fn held(&self, block: usize, own: usize, number: usize, word: usize) -> u64 {
        let gained = self.gain.word(self.row(own, number), word);
        if own % 2 == block % 2 {
            gained
        } else {
            self.gain.all(word) & !gained
        }
    }

    // What the player of a block has of a node once the blocks inside it have ended.
    fn status(&self, node: SearchNode, block: usize, word: usize) -> u64 {
        if self.part.has(node) {
            let by = self.part.block(node).max(block.saturating_sub(1));
            self.held(block, by, node.number, word)
        } else {
            self.exit(block, node.number, word)
        }
    }

    // Ends a round: what the player of the blocks inside hasn't gained is gained by that of the block. The answer is whether another round has to follow.
    fn close_round(&mut self, block: usize) -> bool {
        self.pay(self.arena.states / 16);
        for node in self.members() {
            self.find_fresh(block, *node);
        }
        let round = self.rounds.get_or(block, 0);
        self.rounds.set(block, round.saturating_add(1));
        self.lost.clear();
        for node in self.members() {
            self.gain_fresh(block, *node);
        }
        if self.lost.is_empty() {
            return self.wait_for_exits(block, round);
        }
        block > 1 || self.are_timed || self.repair_rounds()
    }

    // A block's player gains what the other one hasn't gained of a node inside. What it is to gain of a binder of the block by the binder's child waits.
    fn find_fresh(&mut self, block: usize, node: SearchNode) {
        let own = self.part.block(node);
        if own > block {
            return;
        }
        let child = self.arena.node(node.first);
        for word in 0..self.gain.width {
            let gained = self.gain.word(self.row(block, node.number), word);
            if own < block {
                let rest = self.status(node, block, word) & !gained;
                self.note(block, node, word, rest);
            } else {
                let fresh = self.status(child, block, word) & !gained;
                self.next.set_word(node.number, word, fresh);
            }
        }
    }

    // A block's player gains what waits. That of the innermost block may lose it, which is listed until there is so much of it that a climb has to follow.
    fn gain_fresh(&mut self, block: usize, node: SearchNode) {
        for word in 0..self.gain.width {
            let bits = self.next.taken(node.number, word);
            self.note(block, node, word, bits);
            for state in states_of(word, bits) {
                if self.lost.len() <= self.many_lost() {
                    self.lost.push((node.number, state));
                }
            }
        }
    }

    /// A block's player gains these states of a node in the round at hand. Inside of the node's own block nothing is counted.
    pub(crate) fn note(&mut self, block: usize, node: SearchNode, word: usize, bits: u64) {
        if bits == 0 {
            return;
        }
        let round = self.rounds.get_or(block, 0);
        self.most = self.most.max(round);
        let row = self.row(block, node.number);
        self.gain.add(row, word, bits);
        let list = self.list(block, node.number);
        let inner = self.list(block.wrapping_sub(2), node.number);
        let is_inner = self.part.block(node).wrapping_add(2) <= block;
        if is_inner && inner == list && round == 0 {
            return;
        }
        let unit = self.layout.unit(self.part.priority(block));
        let rounds = unit.wrapping_mul(u64::from(round));
        for state in states_of(word, bits) {
            let counted = self.counted(inner, state);
            let counted = if is_inner { counted } else { 0 };
            self.count(list, state, rounds.wrapping_add(counted));
        }
    }

    // Keeps who wins the nodes.
    fn conclude(&mut self) {
        let last = self.part.blocks.wrapping_sub(1);
        let odds = usize::from(self.part.is_evens(0));
        for node in self.members() {
            for word in 0..self.gain.width {
                let odd = self.held(odds, last, node.number, word);
                self.odd.set_word(node.number, word, odd);
            }
        }
    }
}
