// What is told of workers while they work.

/// Is called by a worker before each of its turns.
pub trait Gate: Sync {
    /// The worker, by its number, is about to lift the vertex.
    fn before(&self, worker: usize, v: u32);
}

/// A gate that does nothing.
#[derive(Clone, Copy, Debug)]
pub struct NoGate;

impl Gate for NoGate {
    fn before(&self, _worker: usize, _v: u32) {}
}
