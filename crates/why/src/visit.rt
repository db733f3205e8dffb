// What is told of a play.

/// How many blanks a line begins with at most.
pub const MOST_BLANKS: usize = 80;

/// How many columns a modality has at most that is told in its lines. One that is longer has a number.
pub const MOST_COLUMNS: usize = 80;

/// How many columns of a modality with a number are told before its last one.
pub const MOST_SHOWN: usize = 70;

/// A way on which a play comes to a vertex: from another one, or as it begins. Its line begins with so many blanks.
#[derive(Clone, Copy, Debug, PartialEq, Eq)]
pub struct Way {
    pub from: Option<u32>,
    pub vertex: u32,
    pub blanks: usize,
}

/// How the play goes on from a vertex to which it has come.
#[derive(Clone, Copy, Debug, PartialEq, Eq)]
pub enum Continuation {
    /// One way: the next visit tells of it.
    On,
    /// In several ways, of which the loser chooses: for each a run begins, two blanks further in.
    Branch,
    /// Only to a sink.
    Sink,
    /// As from the visit of this number, which is one of the same run.
    Back(usize),
    /// As it was told in another run.
    Told,
    /// As it would from each state that is reachable, of which there are so many: what its fixpoint asks is so in all of them.
    Everywhere(usize),
}

/// A vertex to which a play comes. A run is what is told from one that ends to the next: each of its visits but the last has one way on.
#[derive(Clone, Copy, Debug, PartialEq, Eq)]
pub struct Visit {
    pub way: Way,
    pub kind: Continuation,
}
