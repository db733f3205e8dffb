// Lines, tokens and pieces of texts, as docs/FORMATS.md has them of all texts and of systems: worked out by hand.

use crate::common::{Written, is_written};
use samples::holds;
use samples::host::Host;
use samples::readers::SlowReader;
use samples::writers::Narrow;
use std::process::Abort;
use text::scan::{is_end, number, number_before, quoted, sign};
use text::source::{Blocks, blocks_of};
use text::{Piece, ReadFault, next_line, put_pieces, stream};

// The next line is this.
fn is_next<B: Blocks>(rt: &impl Abort, reader: &mut B, line: &mut Vec<u8>, wanted: &str) {
    holds!(rt; next_line(reader, line) == Ok(true), wanted);
    holds!(rt; line.as_slice() == wanted.as_bytes(), wanted);
}

#[test]
fn texts_have_lines(rt: HostRuntime) {
    let mut reader = blocks_of(rt.alloc(), b"\r\na\rb\r\r\nc\r".as_slice()).expect(&rt, "memory");
    let mut line = Vec::new(rt.alloc());
    for wanted in ["", "a\rb\r", "c"] {
        is_next(&rt, &mut reader, &mut line, wanted);
    }
    holds!(&rt; next_line(&mut reader, &mut line) == Ok(false));
    drop(line);
    drop(reader);
}

// The first line is read, and the second one's end fails.
#[test]
fn a_failed_read_is_no_line(rt: HostRuntime) {
    let failing = SlowReader::failing(b"a\nb", 1, 3);
    let mut reader = blocks_of(rt.alloc(), failing).expect(&rt, "memory");
    let mut line = Vec::new(rt.alloc());
    is_next(&rt, &mut reader, &mut line, "a");
    holds!(&rt; next_line(&mut reader, &mut line) == Err(ReadFault::Read));
    drop(line);
    drop(reader);
}

// Of a number that is too great for its type the greatest one is told.
#[test]
fn tokens_are_found_in_a_line(rt: HostRuntime) {
    holds!(&rt; sign(b" \t( 0", b"(") == Some(b" 0".as_slice()));
    holds!(&rt; sign(b"dex", b"des").is_none());
    holds!(&rt; number(b" 4294967296)") == Some((u32::MAX, b")".as_slice())));
    holds!(&rt; number(b"01").is_none());
    holds!(&rt; number_before(b"0 , 1", b",") == Some((0, b" 1".as_slice())));
    holds!(&rt; number_before(b"7)", b",").is_none());
    holds!(&rt; quoted(b" \" a \",") == Some((b" a ".as_slice(), b",".as_slice())));
    holds!(&rt; quoted(b"\"a").is_none());
    holds!(&rt; is_end(b" \t") && !is_end(b"\r"));
}

// Each is taken off what the reader has left. Of a quote the first four bytes are kept.
#[test]
fn tokens_are_taken_off_a_reader(rt: HostRuntime) {
    let text = b"des ( 12 ,7, \"abcdef\" \t\r\nx".as_slice();
    let mut reader = blocks_of(rt.alloc(), text).expect(&rt, "memory");
    let (from, mut kept) = (&mut reader, Vec::new(rt.alloc()));
    holds!(&rt; stream::word(from, b"des") == Ok(true));
    holds!(&rt; stream::sign(from, b'(') == Ok(true));
    holds!(&rt; stream::number(from, &mut kept) == Ok(Some(12)));
    holds!(&rt; stream::sign(from, b'(') == Ok(false));
    holds!(&rt; stream::number_before(from, b',', &mut kept) == Ok(None));
    holds!(&rt; stream::sign(from, b',') == Ok(true));
    holds!(&rt; stream::number_before(from, b',', &mut kept) == Ok(Some(7)));
    holds!(&rt; stream::quoted(from, 4, &mut kept) == Ok(true));
    holds!(&rt; kept.as_slice() == b"abcd".as_slice());
    holds!(&rt; stream::has_ended(from) == Ok(true));
    holds!(&rt; stream::has_line(from) == Ok(true));
    holds!(&rt; stream::has_ended(from) == Ok(false));
    drop(kept);
    drop(reader);
}

impl Written for [Piece<'static>; 4] {
    fn is_written(&self, out: &mut Narrow) -> bool {
        put_pieces(out, self).is_ok()
    }
}

#[test]
fn pieces_are_put_one_after_another(rt: HostRuntime) {
    let pieces = [
        Piece::Bytes(b"system "),
        Piece::Number(1_000_000),
        Piece::Bytes(b""),
        Piece::Number(18_446_744_073_709_551_615),
    ];
    is_written(&rt, &pieces, "system 100000018446744073709551615");
}
