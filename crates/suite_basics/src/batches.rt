// Short lines that are written many at a time: how many writes that takes, of which no clause speaks. The numbers are counted by hand: 8,192 bytes wait at
// the most.

use samples::holds;
use samples::host::Host;
use std::io;
use std::io::Write;
use text::sink::Sink;
use text::{Lines, WriteFault, put, put_lines};

/// So many lines that are all the same.
#[derive(Drop)]
struct Alike<'a> {
    count: usize,
    line: &'a [u8],
}

impl Lines for Alike<'_> {
    ghost count = { λ lines. lines.count };

    ghost line = { λ lines number. lines.line.now };

    fn count(&self) -> usize {
        self.count
    }

    fn put_line<W: Sink>(&self, _number: usize, writer: &mut W) -> Result<(), WriteFault> {
        put(writer, self.line)
    }
}

/// A writer that takes everything, and counts the bytes and the writes.
#[derive(Drop)]
struct Counting {
    bytes: usize,
    writes: usize,
}

impl Write for Counting {
    fn write(&mut self, buf: &[u8]) -> io::Result<usize> {
        self.bytes = self.bytes.saturating_add(buf.len());
        self.writes = self.writes.saturating_add(1);
        Ok(buf.len())
    }

    fn flush(&mut self) -> io::Result<()> {
        Ok(())
    }
}

// So many lines of so many bytes take so many writes.
fn take(rt: &impl Host, count: usize, length: usize, writes: usize) {
    let line = vec![in rt.alloc(); b'x'; length].expect(rt, "memory");
    let line = line.as_slice();
    let lines = Alike { count, line };
    let mut out = Counting {
        bytes: 0,
        writes: 0,
    };
    holds!(rt; put_lines(&lines, &mut out).is_ok());
    holds!(rt; out.writes == writes && out.bytes == count.saturating_mul(length));
}

// A line that has no room is written by itself.
#[test]
fn a_thousand_short_lines_take_two_writes(rt: HostRuntime) {
    take(&rt, 1000, 11, 2);
    take(&rt, 3, 8193, 3);
    take(&rt, 0, 5, 0);
}
