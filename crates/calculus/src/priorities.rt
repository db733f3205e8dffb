// The rules by which binders get their priorities.

/// How a binder's priority is found. It is even at `nu` and odd at `mu`; a node that binds nothing has priority 0.
#[derive(Clone, Copy, Debug, PartialEq, Eq)]
pub enum Priorities {
    /// The least that is at least those of all binders inside it.
    Nested,
    /// The least that is at least those of the binders inside it in whose operand its variable stands, so that binders which do
    /// not depend on each other share a priority.
    Dependent,
}
