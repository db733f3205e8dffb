// The lines of a reader.

ghost use Rattle.std.specs.Prelude.{◌≡◌, MatchResult};
ghost use Rattle.text.specs.Cause.{HasCause};
ghost use Rattle.text.specs.declared.error.ReadFault.TheVariants.{Read};
ghost use Rattle.text.specs.Text.{without_end};
ghost use Rattle.text.specs.Lines.{TakesLine, TakesPiece};

use crate::error::ReadFault;
use crate::source::Blocks;

// Takes the byte off the end, if it stands there.
fn cut_end(line: &mut Vec<u8>, byte: u8)
    ensures { line.new.items ≡ without_end byte line.old.items }
{
    if let Some(last) = line.last() {
        if *last == byte {
            line.pop();
        }
    }
}

/// Reads the next line of a text whose lines end by LF alone into `line`, without the LF, and says whether there was one.
///
/// # Errors
/// A read failed, or memory was refused. What the reader has left then isn't said.
pub fn next_piece<B: Blocks>(reader: &mut B, line: &mut Vec<u8>) -> Result<bool, ReadFault>
    ensures { MatchResult result (λ more. TakesPiece (B.remaining reader.old) (B.remaining reader.new) more line.new.items)
        (HasCause B.can_fail Read) }
{
    line.clear();
    match reader.read_until(b'\n', line) {
        Ok(0) => Ok(false),
        Ok(_) => {
            cut_end(line, b'\n');
            Ok(true)
        }
        Err(_) => Err(reader.fault()),
    }
}

/// Reads the next line into `line`, without its end, and says whether there was one.
///
/// # Errors
/// A read failed, or memory was refused. What the reader has left then isn't said.
pub fn next_line<B: Blocks>(reader: &mut B, line: &mut Vec<u8>) -> Result<bool, ReadFault>
    ensures { MatchResult result (λ more. TakesLine (B.remaining reader.old) (B.remaining reader.new) more line.new.items)
        (HasCause B.can_fail Read) }
{
    let more = next_piece(reader, line)?;
    cut_end(line, b'\r');
    Ok(more)
}
