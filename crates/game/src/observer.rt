// What a run says of what it is doing.

use crate::gauge::Gauge;

/// What a run has come to.
#[derive(Clone, Copy, Debug, PartialEq, Eq)]
pub enum Stage {
    /// The system's text is read.
    ReadingSystem,
    /// The formula's text is read.
    ReadingFormula,
    /// The game of a system with so many states is built.
    Building {
        states: u32,
    },
    /// Who wins, or the least progress table, is searched for in a game with so many vertices.
    Searching {
        vertices: u32,
    },
    /// A game with so many vertices is lifted, and so many lifts were done.
    Lifting {
        vertices: u32,
        lifts: u64,
    },
    /// The worker of this number has taken its last turn, after so many at vertices, in so many of which a measure rose.
    Worked {
        worker: usize,
        turns: u64,
        rises: u64,
    },
    /// The formula is evaluated by sets of a system's states, of which there are so many.
    Evaluating {
        states: u32,
    },
    /// Evidence or a witness is made in a game with so many vertices.
    MakingEvidence {
        vertices: u32,
    },
    /// What was found is written.
    Writing,
}

/// Is told what a run is doing. Nothing that a run promises rests on what an observer does.
pub trait Observer {
    /// The run has come to this stage, or further in it.
    fn sees(&self, stage: Stage);

    /// What shows how far a stage has come; none where nobody looks.
    fn gauge(&self) -> Option<&Gauge>;
}

/// An observer that does nothing.
#[derive(Clone, Copy, Debug)]
pub struct Silent;

impl Observer for Silent {
    fn sees(&self, _stage: Stage) {}

    fn gauge(&self) -> Option<&Gauge> {
        None
    }
}
