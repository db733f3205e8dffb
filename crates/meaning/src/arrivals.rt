// Steps by the states into which they lead.

/// A step into a state: where it comes from, and the number, plus 1, of the step into the same state before it; 0 for none.
#[derive(Clone, Copy)]
pub struct Arrival {
    pub source: u32,
    pub earlier: usize,
}

/// For each state the number, plus 1, of the last step into it, 0 for none; and the steps.
#[derive(Drop)]
pub struct Arrivals {
    pub last: Vec<usize>,
    pub all: Vec<Arrival>,
}
