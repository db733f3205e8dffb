// A writer that has little room.

use std::alloc::{AllocError, Global};
use std::io;
use std::io::Write;

/// Room enough for each of the texts.
pub const AMPLE: usize = 1_000_000;

/// How a writer goes on that has no room left.
#[derive(Clone, Copy)]
pub enum AtEnd {
    Fails,
    TakesNothing,
}

/// A writer that takes so many bytes at a time, and so many in all. Each second call may be interrupted.
#[derive(Drop)]
pub struct Narrow {
    pub taken: Vec<u8>,
    step: usize,
    room: usize,
    pub at_end: AtEnd,
    is_interrupted: bool,
    pub interrupts: bool,
}

impl Narrow {
    pub fn new(alloc: Global, step: usize, room: usize) -> Narrow {
        Narrow::over(Vec::new(alloc), step, room)
    }

    /// A writer that takes so many bytes, and has the memory for them before the first one.
    pub fn ready(alloc: Global, room: usize) -> Result<Narrow, AllocError> {
        Ok(Narrow::over(Vec::with_capacity(alloc, room)?, room, room))
    }

    fn over(taken: Vec<u8>, step: usize, room: usize) -> Narrow {
        Narrow {
            taken,
            step,
            room,
            at_end: AtEnd::Fails,
            is_interrupted: false,
            interrupts: false,
        }
    }
}

impl Write for Narrow {
    fn write(&mut self, buf: &[u8]) -> io::Result<usize> {
        self.is_interrupted = self.interrupts && !self.is_interrupted;
        if self.is_interrupted {
            return Err(io::Error::from(io::ErrorKind::Interrupted));
        }
        let count = self.step.min(self.room).min(buf.len());
        if count == 0 && matches!(self.at_end, AtEnd::Fails) {
            return Err(io::Error::from(io::ErrorKind::StorageFull));
        }
        self.taken.extend_from_slice(&buf[..count])?;
        self.room -= count;
        Ok(count)
    }

    fn flush(&mut self) -> io::Result<()> {
        Ok(())
    }
}
