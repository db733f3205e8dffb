// Readers that fail, and that are slow.

use std::io;
use std::io::Read;

/// A reader that hands out so many bytes at a time, and then fails or ends.
#[derive(Drop)]
pub struct SlowReader<'a> {
    left: &'a [u8],
    step: usize,
    fails: bool,
}

impl<'a> SlowReader<'a> {
    /// A reader that hands out a whole text.
    pub fn whole(text: &'a [u8], step: usize) -> Self {
        SlowReader {
            left: text,
            step,
            fails: false,
        }
    }

    /// A reader that hands out so many bytes of a text, and then fails.
    pub fn failing(text: &'a [u8], step: usize, given: usize) -> Self {
        SlowReader {
            left: &text[..given.min(text.len())],
            step,
            fails: true,
        }
    }
}

impl Read for SlowReader<'_> {
    fn read(&mut self, buf: &mut [u8]) -> io::Result<usize> {
        if self.left.is_empty() && self.fails {
            return Err(io::Error::from(io::ErrorKind::BrokenPipe));
        }
        let count = self.step.min(self.left.len()).min(buf.len());
        let (front, rest) = self.left.split_at(count);
        buf[..count].copy_from_slice(front);
        self.left = rest;
        Ok(count)
    }
}

/// A reader whose every second read is interrupted.
#[derive(Drop)]
pub struct Halting<'a> {
    left: &'a [u8],
    is_interrupted: bool,
}

impl<'a> Halting<'a> {
    /// A reader that hands out a whole text.
    pub fn whole(text: &'a [u8]) -> Self {
        Halting {
            left: text,
            is_interrupted: false,
        }
    }
}

impl Read for Halting<'_> {
    fn read(&mut self, buf: &mut [u8]) -> io::Result<usize> {
        self.is_interrupted = !self.is_interrupted;
        if self.is_interrupted {
            return Err(io::Error::from(io::ErrorKind::Interrupted));
        }
        let count = self.left.len().min(buf.len()).min(4);
        let (front, rest) = self.left.split_at(count);
        buf[..count].copy_from_slice(front);
        self.left = rest;
        Ok(count)
    }
}

/// A reader whose every read fails as one does where memory runs out.
#[derive(Drop)]
pub struct Wanting;

impl Read for Wanting {
    fn read(&mut self, _buf: &mut [u8]) -> io::Result<usize> {
        Err(io::Error::from(io::ErrorKind::OutOfMemory))
    }
}
