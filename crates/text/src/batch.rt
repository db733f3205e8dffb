// Short lines of a long text, written many at a time.

ghost use Rattle.std.specs.Prelude.{◌≡◌, ◌<◌, ◌++◌, [], true, false, ℕ, List};
ghost use Rattle.text.specs.Wrote.{HasWritten, Passed, Wrote, lines_from};

use crate::sink::Sink;
use crate::write_loop::{WriteFault, put};
use arrayvec::ArrayVec;
use std::io;
use std::io::Write;

/// The numbered lines of a text.
pub trait Lines {
    ghost count: { Self → ℕ };

    ghost line: { Self → ℕ → List ℕ };

    /// How many lines there are.
    fn count(&self) -> usize
        ensures { result ≡ count self.now };

    /// Writes a line.
    ///
    /// # Errors
    /// After a fault the writer holds a beginning of the line.
    fn put_line<W: Sink>(&self, number: usize, writer: &mut W) -> Result<(), WriteFault>
        requires { number < count self.now }
        ensures { Wrote (W.taken writer.old) (W.taken writer.new) result (line self.now number) };
}

// How many bytes are written at a time.
const BATCH: usize = 8192;

// Bytes that wait to be written.
#[derive(Drop)]
struct Batch {
    bytes: ArrayVec<u8, BATCH>,
}

// A writer that takes what there is room for.
impl Write for Batch {
    ghost use Rattle.std.specs.Prelude.{Some};

    ghost contents = { λ batch. Some batch.bytes.items };

    fn write(&mut self, bytes: &[u8]) -> io::Result<usize> {
        let taken = bytes.len().min(self.bytes.remaining_capacity());
        match self.bytes.try_extend_from_slice(&bytes[..taken]) {
            Ok(()) => Ok(taken),
            Err(_) => Ok(0),
        }
    }

    fn flush(&mut self) -> io::Result<()> {
        Ok(())
    }
}

// Writes what waits.
fn send<W: Sink>(batch: &mut Batch, writer: &mut W) -> Result<(), WriteFault>
    ensures wrote { Wrote (W.taken writer.old) (W.taken writer.new) result batch.old.bytes.items }
    ensures empty { batch.new.bytes.items ≡ [] }
{
    let wrote = put(writer, batch.bytes.as_slice());
    batch.bytes.clear();
    wrote
}

// Puts a line to the bytes that wait, if there is room for it.
fn wait<L: Lines>(lines: &L, number: usize, batch: &mut Batch) -> bool
    requires { number < L.count lines.now }
    ensures kept { result ≡ false → batch.new.bytes.items ≡ batch.old.bytes.items }
    ensures added { result ≡ true → batch.new.bytes.items ≡ batch.old.bytes.items ++ L.line lines.now number }
{
    let waiting = batch.bytes.len();
    match lines.put_line(number, batch) {
        Ok(()) => true,
        Err(WriteFault) => {
            batch.bytes.truncate(waiting);
            false
        }
    }
}

// Writes a line, or lets it wait. What waits is written first where there is no room, and a line that never has room, by itself.
fn pass<L: Lines, W: Sink>(
    lines: &L,
    number: usize,
    batch: &mut Batch,
    writer: &mut W,
) -> Result<(), WriteFault>
    requires { number < L.count lines.now }
    ensures { Passed (W.taken writer.old) (W.taken writer.new) batch.old.bytes.items batch.new.bytes.items result (L.line lines.now number) }
{
    if wait(lines, number, batch) {
        return Ok(());
    }
    send(batch, writer)?;
    if wait(lines, number, batch) {
        return Ok(());
    }
    lines.put_line(number, writer)
}

/// Writes all lines, by `put`, at most 8,192 bytes at a time: a long text of short lines costs few writes. It takes no memory.
///
/// # Errors
/// After a fault the writer holds a beginning of the lines.
pub fn put_lines<L: Lines, W: Sink>(lines: &L, writer: &mut W) -> Result<(), WriteFault>
    ensures wrote { Wrote (W.taken writer.old) (W.taken writer.new) result (lines_from (L.line lines.now) 0 (L.count lines.now)) }
{
    let mut batch = Batch {
        bytes: ArrayVec::new(),
    };
    for number in 0..lines.count() {
        pass(lines, number, &mut batch, writer)?;
    }
    send(&mut batch, writer)
}
