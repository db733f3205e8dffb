// What bytes are written to, and whether that failed.

ghost use Rattle.std.specs.Io.{WritesAtMost};
ghost use Rattle.text.specs.Taken.{Receives, Taken, unnoted};

use std::io;
use std::io::Write;

/// What bytes are written to: each writer of std, and whatever else takes bytes.
///
/// What is proved of a call over any sink holds over those that note each failed write, too, and a call doesn't know over which it runs. Of a writer
/// of std no contract tells whether a write has failed.
pub trait Sink {
    /// What it has taken.
    ghost taken: { Self → Taken };

    /// Takes some of the bytes, as std's `write` does.
    ///
    /// # Errors
    /// As those of std's `write`.
    fn write_some(&mut self, bytes: &[u8]) -> io::Result<usize>
        ensures bound { WritesAtMost result bytes.now }
        ensures received { Receives (taken self.old) (taken self.new) result bytes.now };
}

impl<W: Write> Sink for W {
    ghost taken = { λ writer. unnoted (W.contents writer) };

    fn write_some(&mut self, bytes: &[u8]) -> io::Result<usize> {
        self.write(bytes)
    }
}
