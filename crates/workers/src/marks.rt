// Which vertices are pending.

ghost use Rattle.std.specs.Prelude.{◌≡◌, ℕ, false};
ghost use Rattle.workers.specs.Turns.{first_in_block};

use std::alloc::{AllocError, Global};
use std::sync::atomic::{AtomicBool, Ordering};

/// So many vertices in a row are one job: those of them that are pending.
pub(crate) const BLOCK: u32 = 16;

/// The first vertex of the block in which a vertex stands.
pub(crate) fn block_of(v: u32) -> u32
    ensures { result ≡ first_in_block v }
{
    v - v % BLOCK
}

/// Vertices whose turn is to come.
pub(crate) trait Pending {
    /// The vertex was found pending, or its block waiting.
    ghost was_pending: { Self → ℕ → Type 0 };

    /// From now on a vertex is pending. The answer is whether its block is to be given as a job: it isn't where the vertex was pending,
    /// or where the block waits as a job.
    fn set(&self, v: u32) -> bool
        ensures { result ≡ false → was_pending self.now v };

    /// From now on a vertex isn't pending.
    fn clear(&self, v: u32);

    /// Whether a vertex is pending.
    fn is_set(&self, v: u32) -> bool;

    /// A block that was taken as a job waits no more. Its vertices are looked at after that.
    fn begin(&self, block: u32);
}

/// A mark at each vertex whose turn is to come, and one at each block that is a job. A vertex's mark is set before its block is given,
/// and taken away before its successors are read; a block's is taken away before its vertices are looked at. So there are no more jobs
/// than blocks, and whoever finds a mark knows that what he raised is still to be read.
#[derive(Drop)]
pub(crate) struct JobMarks {
    pending: Vec<AtomicBool>,
    waiting: Vec<AtomicBool>,
}

// So many marks.
fn so_many(alloc: Global, count: usize, are_set: bool) -> Result<Vec<AtomicBool>, AllocError> {
    let mut marks = Vec::with_capacity(alloc, count)?;
    for _ in 0..count {
        marks.push(AtomicBool::new(are_set))?;
    }
    Ok(marks)
}

// Sets a mark, and says whether it wasn't set. One that is set is only looked at.
fn mark(marks: &[AtomicBool], place: u32) -> bool {
    match marks.get(place as usize) {
        Some(mark) => !mark.load(Ordering::SeqCst) && !mark.swap(true, Ordering::SeqCst),
        None => false,
    }
}

// Takes a mark away.
fn unmark(marks: &[AtomicBool], place: u32) {
    if let Some(mark) = marks.get(place as usize) {
        mark.store(false, Ordering::SeqCst);
    }
}

impl JobMarks {
    /// All of so many vertices are pending, and no block is a job.
    ///
    /// # Errors
    /// Out of memory, and nothing else.
    pub(crate) fn new(alloc: Global, vertices: u32) -> Result<Self, AllocError> {
        Ok(JobMarks {
            pending: so_many(alloc, vertices as usize, true)?,
            waiting: so_many(alloc, vertices.div_ceil(BLOCK) as usize, false)?,
        })
    }
}

impl Pending for JobMarks {
    ghost was_pending = { λ marks v. Unit {0} };

    fn set(&self, v: u32) -> bool {
        mark(&self.pending, v) && mark(&self.waiting, v / BLOCK)
    }

    fn clear(&self, v: u32) {
        unmark(&self.pending, v)
    }

    fn is_set(&self, v: u32) -> bool {
        match self.pending.get(v as usize) {
            Some(mark) => mark.load(Ordering::SeqCst),
            None => false,
        }
    }

    fn begin(&self, block: u32) {
        unmark(&self.waiting, block / BLOCK)
    }
}
