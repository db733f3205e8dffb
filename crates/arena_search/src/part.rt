// Components of nodes.

use crate::arena::{Arena, SearchNode, SearchNodeKind};

/// A component of nodes, with its blocks: each priority from the least of its binders up to the greatest, and the binders that have it. Blocks are
/// numbered from the innermost one on.
#[derive(Clone, Copy, Default)]
pub(crate) struct NodeComponent {
    /// Its first node.
    pub(crate) root: usize,
    /// The priority of the innermost block.
    pub(crate) least: u32,
    /// How many blocks there are.
    pub(crate) blocks: usize,
    /// Whether nodes lead back to themselves.
    pub(crate) is_cyclic: bool,
    /// Whether each node of the innermost block counts.
    pub(crate) counts_steps: bool,
}

impl NodeComponent {
    /// The component that begins with this node.
    pub(crate) fn of(arena: &Arena, root: usize) -> Self {
        let (mut least, mut greatest, mut size) = (u32::MAX, 0, 0_usize);
        for node in arena.nodes.as_slice() {
            if node.root == root {
                size = size.wrapping_add(1);
                if node.is_binder() {
                    least = least.min(node.priority);
                    greatest = greatest.max(node.priority);
                }
            }
        }
        NodeComponent {
            root,
            least,
            blocks: (greatest.saturating_sub(least) as usize).wrapping_add(1),
            is_cyclic: size > 1,
            counts_steps: arena.is_exact && size > 1 && least == 0,
        }
    }

    pub(crate) fn has(&self, node: SearchNode) -> bool {
        node.root == self.root
    }

    /// Whether a node is in the innermost block, as any is but binders of the others.
    pub(crate) fn is_inner(&self, node: SearchNode) -> bool {
        self.has(node) && self.block(node) == 0
    }

    /// Whether a node of the innermost block is gained one level after the children by which it is.
    pub(crate) fn is_late(&self, node: SearchNode) -> bool {
        self.counts_steps || self.is_cyclic && node.is_binder()
    }

    pub(crate) fn priority(&self, block: usize) -> u32 {
        self.least.wrapping_add(u32::try_from(block).unwrap_or(0))
    }

    /// Whether Even gains what is won by a block: one of odd priority.
    pub(crate) fn is_evens(&self, block: usize) -> bool {
        self.least as usize % 2 != block % 2
    }

    /// The block of a binder. Any other node is in the innermost one.
    pub(crate) fn block(&self, node: SearchNode) -> usize {
        if node.is_binder() {
            node.priority.saturating_sub(self.least) as usize
        } else {
            0
        }
    }

    /// Whether the player of the innermost block gains a node by one child or successor, and not only by all.
    pub(crate) fn wants_one(&self, node: SearchNode) -> bool {
        let has_one = node.is_binder() || node.shape == SearchNodeKind::Variable;
        has_one || node.is_odds != self.is_evens(0)
    }
}
