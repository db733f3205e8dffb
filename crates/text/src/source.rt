// What bytes are read from, and whether that can fail.

ghost use Rattle.std.specs.Prelude.{◌≡◌, ℕ, Bool, true, List, Option, IfErr, IfOk, IsTrue};
ghost use Rattle.std.specs.Io.{ReadsAtMost};
ghost use Rattle.std.specs.Io.KnownBytes.{ReadConsumes};
ghost use Rattle.text.specs.Cause.{HasCause};
ghost use Rattle.text.specs.declared.error.ReadFault.TheVariants.{Read};

use crate::error::{Memory, ReadFault};
use std::alloc::Global;
use std::io;
use std::io::{BufRead, BufReader, Read};

/// What bytes are read from: each reader of std, and whatever else gives bytes.
///
/// What is proved of a call over any source holds over those that can't fail, too, and a call doesn't know over which it runs. So one that tells of a
/// failed read only where the source can fail tells of it only where a read failed.
pub trait Source {
    /// The bytes that reads will give from here on, where they are known.
    ghost remaining: { Self → Option (List ℕ) };

    /// Whether a read of a source of this kind can fail.
    ghost can_fail: { Bool };

    /// Reads some bytes, as std's `read` does.
    ///
    /// # Errors
    /// As those of std's `read`.
    fn read_some(&mut self, buf: &mut [u8]) -> io::Result<usize>
        ensures bound { ReadsAtMost result buf.new }
        ensures bytes { ReadConsumes (remaining self.old) (remaining self.new) result buf.new }
        ensures cause { IfErr result (λ _. IsTrue can_fail) };
}

impl<R: Read> Source for R {
    ghost remaining = { R.remaining };

    ghost can_fail = { true };

    fn read_some(&mut self, buf: &mut [u8]) -> io::Result<usize> {
        self.read(buf)
    }
}

/// A source, and whether the last read of it failed.
#[derive(Drop)]
pub struct Noted<S: Source> {
    source: S,
    has_failed: bool,
    ghost cause: { has_failed ≡ true → IsTrue S.can_fail },
}

impl<S: Source> Noted<S> {
    /// A source that wasn't read yet.
    pub fn new(source: S) -> Self
        ensures { result.source ≡ source }
    {
        Noted {
            source,
            has_failed: false,
        }
    }

    /// Why reading comes to no end: the last read failed, or a growth was refused after it.
    pub fn fault(&self) -> ReadFault
        ensures { HasCause S.can_fail Read result }
    {
        if self.has_failed {
            ReadFault::Read
        } else {
            ReadFault::Memory
        }
    }
}

impl<S: Source> Read for Noted<S> {
    ghost remaining = { λ noted. S.remaining noted.source };

    fn read(&mut self, buf: &mut [u8]) -> io::Result<usize> {
        let read = self.source.read_some(buf);
        self.has_failed = read.is_err();
        read
    }
}

/// What is read from block by block, and tells why reads came to no end.
pub trait Blocks: BufRead {
    /// Whether a read of blocks of this kind can fail.
    ghost can_fail: { Bool };

    /// Why a read gave no block, or reads came to no end in 2^64 turns: the last one failed, or there are more bytes than any memory holds, which is
    /// told as want of it.
    fn fault(&self) -> ReadFault
        ensures { HasCause can_fail Read result };
}

impl<S: Source> Blocks for BufReader<Noted<S>> {
    ghost can_fail = { S.can_fail };

    fn fault(&self) -> ReadFault {
        self.get_ref().fault()
    }
}

/// The blocks of a source: of 8,192 bytes each.
///
/// # Errors
/// Out of memory, and nothing else.
pub fn blocks_of<S: Source + Drop>(alloc: Global, source: S) -> Result<BufReader<Noted<S>>, Memory>
    ensures { IfOk result (λ blocks. ⟦<BufReader<Noted<S>> as Read>⟧.remaining blocks ≡ S.remaining source) }
{
    match BufReader::new(alloc, Noted::new(source)) {
        Ok(blocks) => Ok(blocks),
        Err(_) => Err(Memory),
    }
}
