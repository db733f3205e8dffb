// The nodes of a normal form.

use crate::tree::Act;

/// What a node is, with its children's numbers, or for a variable the number of its binder.
#[derive(Drop)]
pub enum Kind {
    True,
    False,
    And(u32, u32),
    Or(u32, u32),
    Dia(Act, u32),
    Box(Act, u32),
    Mu(u32),
    Nu(u32),
    Var(u32),
}

/// A node of a normal form.
#[derive(Drop)]
pub struct Node {
    pub kind: Kind,
    pub priority: u32,
}
