// The nodes of a normal form at the states of a system.

use crate::edges::{Kinds, edges_forth};
use crate::part::NodeComponent;
use crate::table::Rows;
use calculus::form::Normal;
use calculus::node::{Kind, Node};
use game::limits::MOST_VERTICES;
use game::list::List;
use std::alloc::Global;
use systems::system::Lts;

pub(crate) const NONE: usize = NO_CHILD as usize;

const NO_CHILD: u32 = u32::MAX;

/// What a node is, but for its owner.
#[derive(Clone, Copy, Default, PartialEq, Eq)]
pub(crate) enum SearchNodeKind {
    /// Of two children at the same state, or of none.
    #[default]
    Junction,
    /// Of one child, at successors.
    Modality,
    Binder,
    Variable,
}

/// A node with its children. One that has a single child has it twice, and a variable has its binder.
#[derive(Clone, Copy, Default)]
pub(crate) struct SearchNode {
    pub(crate) number: usize,
    pub(crate) shape: SearchNodeKind,
    /// Whether Odd chooses. Where there is one child it doesn't matter.
    pub(crate) is_odds: bool,
    pub(crate) priority: u32,
    pub(crate) first: usize,
    pub(crate) second: usize,
    /// The kinds of its labels.
    pub(crate) mask: u64,
    /// The first node of its component.
    pub(crate) root: usize,
    /// How far it is from the binders, and from the nodes outside, below it in its component.
    pub(crate) height: u32,
}

impl SearchNode {
    fn of(number: usize, node: &Node, mask: u64) -> Self {
        let (shape, is_odds, first, second) = match &node.kind {
            Kind::True => (SearchNodeKind::Junction, true, NO_CHILD, NO_CHILD),
            Kind::False => (SearchNodeKind::Junction, false, NO_CHILD, NO_CHILD),
            Kind::And(left, right) => (SearchNodeKind::Junction, true, *left, *right),
            Kind::Or(left, right) => (SearchNodeKind::Junction, false, *left, *right),
            Kind::Dia(_, child) => (SearchNodeKind::Modality, false, *child, *child),
            Kind::Box(_, child) => (SearchNodeKind::Modality, true, *child, *child),
            Kind::Mu(child) | Kind::Nu(child) => (SearchNodeKind::Binder, false, *child, *child),
            Kind::Var(binder) => (SearchNodeKind::Variable, false, *binder, *binder),
        };
        SearchNode {
            number,
            shape,
            is_odds,
            priority: node.priority,
            first: first as usize,
            second: second as usize,
            mask,
            root: number,
            height: 0,
        }
    }

    pub(crate) fn is_modal(&self) -> bool {
        self.shape == SearchNodeKind::Modality
    }

    pub(crate) fn is_binder(&self) -> bool {
        self.shape == SearchNodeKind::Binder
    }
}

/// The nodes by number, with the edges of the system.
#[derive(Drop)]
pub(crate) struct Arena {
    pub(crate) states: usize,
    /// Whether the least measures are wanted, and not only some.
    pub(crate) is_exact: bool,
    pub(crate) forth: Rows<u32>,
    /// The nodes, and the component of each.
    pub(crate) nodes: List<SearchNode>,
    pub(crate) parts: List<NodeComponent>,
    /// For each node those that have it for a child.
    pub(crate) parents: Rows<SearchNode>,
    /// For the first node of each component its nodes, each after those below it, and the nodes outside to which they lead.
    pub(crate) members: Rows<SearchNode>,
    pub(crate) exits: Rows<SearchNode>,
}

impl Arena {
    /// The nodes of a normal form at the states of a system, if they are no more than a game may have, labels are of few kinds, and there is memory for all.
    pub(crate) fn of(alloc: Global, lts: &Lts, form: &Normal, is_exact: bool) -> Option<Self> {
        let vertices = u64::from(lts.states()).saturating_mul(u64::from(form.count()));
        if vertices.saturating_add(2) > MOST_VERTICES as u64 {
            return None;
        }
        let kinds = Kinds::of(alloc, lts, form)?;
        let mut arena = Arena {
            states: lts.states() as usize,
            is_exact,
            forth: edges_forth(alloc, lts, &kinds),
            nodes: List::none(alloc),
            parts: List::none(alloc),
            parents: Rows::none(alloc),
            members: Rows::none(alloc),
            exits: Rows::none(alloc),
        };
        for node in form.nodes() {
            let number = arena.count();
            let mask = kinds.mask(number);
            arena.nodes.push(SearchNode::of(number, node, mask));
        }
        arena.find_roots(alloc);
        for number in (0..arena.count()).rev() {
            arena.find_height(number);
        }
        for number in 0..arena.count() {
            arena.enter_rows(number);
            let part = NodeComponent::of(&arena, arena.node(number).root);
            arena.parts.push(part);
        }
        arena.is_whole().then_some(arena)
    }

    fn is_whole(&self) -> bool {
        let are_rows = self.parents.is_whole() && self.members.is_whole() && self.exits.is_whole();
        are_rows && self.nodes.is_whole() && self.parts.is_whole() && self.forth.is_whole()
    }

    pub(crate) fn count(&self) -> usize {
        self.nodes.len()
    }

    #[inline(always)]
    pub(crate) fn node(&self, number: usize) -> SearchNode {
        self.nodes.get_or(number, SearchNode::default())
    }

    pub(crate) fn part(&self, number: usize) -> NodeComponent {
        self.parts.get_or(number, NodeComponent::default())
    }

    // Whether a node's binder takes its place. Where the least measures are wanted variables count, too.
    fn is_replaced(&self, node: SearchNode) -> bool {
        node.shape == SearchNodeKind::Variable && !self.is_exact
    }

    /// The node in whose place this one stands: itself, or its binder.
    pub(crate) fn real(&self, number: usize) -> usize {
        let node = self.node(number);
        if self.is_replaced(node) {
            node.first
        } else {
            number
        }
    }

    // A node is in its parent's component where a variable inside it is bound above it.
    fn find_roots(&mut self, alloc: Global) {
        let mut reached = List::filled(alloc, self.count(), NONE);
        for number in (0..self.count()).rev() {
            let node = self.node(number);
            let least = match node.shape {
                SearchNodeKind::Variable => node.first,
                _ => reached
                    .get_or(node.first, NONE)
                    .min(reached.get_or(node.second, NONE)),
            };
            reached.set(number, least);
        }
        for number in 0..self.count() {
            let node = self.node(number);
            for child in [node.first, node.second] {
                let mut below = self.node(child);
                if child > number && reached.get_or(child, NONE) < child {
                    below.root = node.root;
                    self.nodes.set(child, below);
                }
            }
        }
    }

    // Finds a node's height, and has binders take the place of variables among its children.
    fn find_height(&mut self, number: usize) {
        let mut node = self.node(number);
        if !node.is_binder() {
            let first = self.height_over(node, node.first);
            node.height = first.max(self.height_over(node, node.second));
        }
        node.first = self.real(node.first);
        node.second = self.real(node.second);
        self.nodes.set(number, node);
    }

    fn height_over(&self, node: SearchNode, child: usize) -> u32 {
        let below = self.node(child);
        match child {
            NONE => 0,
            _ if below.root == node.root => below.height.saturating_add(1),
            _ => 1,
        }
    }

    // Enters what leads to a node, and what is in its component and outside, if it is the first one there.
    fn enter_rows(&mut self, number: usize) {
        for other in (0..self.count()).rev() {
            let node = self.node(other);
            let is_here = !self.is_replaced(node);
            if is_here && (node.first == number || node.second == number) {
                self.parents.items.push(node);
            }
            if is_here && node.root == number {
                self.enter_member(node);
            }
        }
        self.parents.end();
        self.members.end();
        self.exits.end();
    }

    fn enter_member(&mut self, node: SearchNode) {
        self.members.items.push(node);
        for child in [node.first, node.second] {
            let below = self.node(child);
            if child != NONE && below.root != node.root {
                self.exits.items.push(below);
            }
        }
    }
}
