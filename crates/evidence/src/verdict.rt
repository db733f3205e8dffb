// What a checker of evidence answers.

/// What can be wrong at a vertex of the set.
#[derive(Clone, Copy, Debug, PartialEq, Eq)]
pub enum Fault {
    /// C1: a player's vertex has no move or one that is no successor, or another vertex has a move.
    Move,
    /// C2: the move, or some successor of an opponent's vertex, is outside the set.
    Leaves,
    /// C3: along such an edge the rank doesn't descend.
    Rank,
}

/// Whether evidence is good; if not, its least vertex with a fault, and the least of its faults.
#[derive(Clone, Copy, Debug, PartialEq, Eq)]
pub enum Verdict {
    Good,
    Faulty(u32, Fault),
}

/// Whether two pieces of evidence are good and together tell of each vertex who wins it; if not, the first thing that is wrong.
#[derive(Clone, Copy, Debug, PartialEq, Eq)]
pub enum Both {
    /// The first has a fault.
    First(u32, Fault),
    /// The second has one.
    Second(u32, Fault),
    /// C4: both are of one player.
    OnePlayer,
    /// C5: the least vertex that is in neither.
    LeftOut(u32),
    Yes,
}
