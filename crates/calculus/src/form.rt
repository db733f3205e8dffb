// Normal forms.

ghost use Rattle.std.specs.Prelude.{◌≡◌, ◌<◌, ◌≤◌, length, vec_len, slice_get, option_map};
ghost use Rattle.calculus.specs.declared.limits.TheConstants.{MOST_NODES};
ghost use Rattle.calculus.specs.Form.{AreNumbered, AreNumbered-prop, IsForm};
ghost use Rattle.calculus.specs.NodeView.{node_of, nodes_of};

use crate::node::Node;

/// A normal form: its nodes in preorder, each known by its number, and how deep its binders alternate.
#[derive(Drop)]
pub struct Normal {
    nodes: Vec<Node>,
    depth: u32,
    ghost some: { 1 ≤ vec_len nodes },
    ghost limit: { vec_len nodes ≤ MOST_NODES },
    ghost numbered: { AreNumbered (nodes_of nodes.items) } by { AreNumbered-prop (nodes_of nodes.items) },
}

impl Normal {
    ghost use Rattle.calculus.specs.Normal.{normal_nodes, normal_depth};

    /// The normal form of these nodes.
    pub fn of(nodes: Vec<Node>, depth: u32) -> Self
        requires { IsForm (nodes_of nodes.items) }
        ensures nodes { normal_nodes result ≡ nodes_of nodes.items }
        ensures depth { normal_depth result ≡ depth }
    {
        Normal { nodes, depth }
    }

    /// What holds of every normal form.
    pub fn known(&self)
        ensures { IsForm (normal_nodes self.now) }
    {
        // For the proof: reading a field makes the invariant known.
        let _ = &self.nodes;
    }

    /// The nodes in preorder.
    pub fn nodes(&self) -> &[Node]
        ensures { nodes_of result.now ≡ normal_nodes self.now }
    {
        self.nodes.as_slice()
    }

    /// How many nodes there are.
    pub fn count(&self) -> u32
        ensures count { result ≡ length (normal_nodes self.now) }
        ensures limit { result ≤ MOST_NODES }
    {
        self.nodes.len() as u32
    }

    pub fn node(&self, k: u32) -> &Node
        requires { k < length (normal_nodes self.now) }
        ensures { slice_get (normal_nodes self.now) k ≡ Some (node_of result.now) }
    {
        &self.nodes[k as usize]
    }

    pub fn priority(&self, k: u32) -> u32
        requires { k < length (normal_nodes self.now) }
        ensures { option_map (λ node. node.priority) (slice_get (normal_nodes self.now) k) ≡ Some result }
    {
        self.nodes[k as usize].priority
    }

    /// The length of the longest chain of nested binders whose kinds alternate.
    pub fn depth(&self) -> u32
        ensures { result ≡ normal_depth self.now }
    {
        self.depth
    }
}
