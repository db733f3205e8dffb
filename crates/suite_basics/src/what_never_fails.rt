// A source and a sink that never fail. That none of them is told to have failed follows from the clauses of what reads and writes.

ghost use Rattle.std.specs.Prelude.{◌≢◌, false, None, IfErr, IsOk};
ghost use Rattle.lts.specs.declared.error.AutError.TheVariants as errors;

use lts::error::AutError;
use lts::reader::read_aut;
use lts::system::Lts;
use samples::holds;
use samples::texts::unseeded;
use std::alloc::Global;
use std::io;
use text::sink::Sink;
use text::source::Source;
use text::{WriteFault, put};

/// A source that gives a text, three bytes at a time.
#[derive(Drop)]
struct Sure<'a> {
    left: &'a [u8],
}

impl Source for Sure<'_> {
    ghost remaining = { λ _. None };

    ghost can_fail = { false };

    fn read_some(&mut self, buf: &mut [u8]) -> io::Result<usize> {
        let count = self.left.len().min(buf.len()).min(3);
        let (front, rest) = self.left.split_at(count);
        buf[..count].copy_from_slice(front);
        self.left = rest;
        Ok(count)
    }
}

/// A sink that takes all that it is given, and counts it.
#[derive(Drop)]
struct Taking {
    count: usize,
}

impl Sink for Taking {
    ghost taken = { λ _. record { contents = None; failed = false } };

    fn write_some(&mut self, bytes: &[u8]) -> io::Result<usize> {
        self.count = self.count.saturating_add(bytes.len());
        Ok(bytes.len())
    }
}

fn read(alloc: Global, text: &[u8]) -> Result<Lts, AutError>
    ensures { IfErr result (λ e. e ≢ errors.Read) }
{
    read_aut(alloc, unseeded(), Sure { left: text })
}

fn write(out: &mut Taking, text: &[u8]) -> Result<(), WriteFault>
    ensures { IsOk result }
{
    put(out, text)
}

#[test]
fn what_never_fails_is_read(rt: HostRuntime) {
    let system = read(rt.alloc(), b"des (0, 1, 2)\n(0, \"a\", 1)\n");
    holds!(&rt; system.expect(&rt, "spelled").states() == 2);
}

#[test]
fn what_never_fails_is_written_to(rt: HostRuntime) {
    let mut out = Taking { count: 0 };
    holds!(&rt; write(&mut out, b"seven..").is_ok());
    holds!(&rt; out.count == 7);
}
