// The one loop that writes.

ghost use Rattle.std.specs.Prelude.{◌++◌, map};
ghost use Rattle.text.specs.Wrote.{Wrote};
ghost use Rattle.text.specs.Pieces.{piece_text, pieces_text};

use crate::sink::Sink;
use itoa::{Buffer, Integer};
use std::io::ErrorKind;
use thiserror::Error;

/// A write failed, or took nothing of a piece that is not empty.
#[derive(Clone, Copy, Debug, PartialEq, Eq, Error)]
#[error("W1")]
pub struct WriteFault;

/// Writes the bytes, however few of them the writer takes at a time. A write that was interrupted is tried again, as
/// std's `write_all` does.
///
/// # Errors
/// After a fault the writer holds a beginning of the bytes. None is told once all were written, nor where there are none.
pub fn put<W: Sink>(writer: &mut W, bytes: &[u8]) -> Result<(), WriteFault>
    ensures wrote { Wrote (W.taken writer.old) (W.taken writer.new) result bytes.now }
{
    let mut rest = bytes;
    'writes: for _turn in 0..u64::MAX {
        if rest.is_empty() {
            return Ok(());
        }
        match writer.write_some(rest) {
            Ok(0) => return Err(WriteFault),
            Ok(taken) => rest = &rest[taken..],
            Err(error) => {
                if error.kind() != ErrorKind::Interrupted {
                    return Err(WriteFault);
                }
            }
        }
    }
    if rest.is_empty() {
        Ok(())
    } else {
        Err(WriteFault)
    }
}

/// Writes the bytes, and then the number in decimal digits, by `put`.
///
/// # Errors
/// After a fault the writer holds a beginning of them.
pub fn put_number<N: Integer, W: Sink>(
    writer: &mut W,
    before: &[u8],
    number: N,
) -> Result<(), WriteFault>
    ensures wrote { Wrote (W.taken writer.old) (W.taken writer.new) result (before.now ++ N.text number) }
{
    let mut buffer = Buffer::new();
    put(writer, before)?;
    put(writer, buffer.format(number).as_bytes())
}

/// A piece of a text: bytes, or a number in decimal digits.
#[derive(Clone, Copy)]
pub enum Piece<'a> {
    Bytes(&'a [u8]),
    Number(u64),
}

fn put_piece<W: Sink>(writer: &mut W, piece: Piece<'_>) -> Result<(), WriteFault>
    ensures { Wrote (W.taken writer.old) (W.taken writer.new) result (piece_text piece.entry) }
{
    match piece {
        Piece::Bytes(bytes) => put(writer, bytes),
        Piece::Number(number) => put(writer, Buffer::new().format(number).as_bytes()),
    }
}

/// Writes the pieces one after another, by `put`.
///
/// # Errors
/// After a fault the writer holds a beginning of them.
pub fn put_pieces<W: Sink>(writer: &mut W, pieces: &[Piece<'_>]) -> Result<(), WriteFault>
    ensures { Wrote (W.taken writer.old) (W.taken writer.new) result (pieces_text pieces.now) }
{
    for piece in pieces {
        put_piece(writer, *piece)?;
    }
    Ok(())
}
