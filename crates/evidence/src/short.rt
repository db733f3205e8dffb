// The next line of a reader, kept shortened: of a number its first eleven digits, and of all that no more bytes than tell whether it is a line.

ghost use Rattle.std.specs.Prelude.{◌≡◌, ◌≤◌, ◌+◌, ◌||◌, [], ◌∷◌, IfOk, MatchResult, OnOk, length, min, nat_eq, nat_lt};
ghost use Rattle.std.specs.List.{prefix_len};
ghost use Rattle.text.specs.Cause.{HasCause};
ghost use Rattle.text.specs.Lines.{IfKnown};
ghost use Rattle.text.specs.Tokens.{is_other};
ghost use Rattle.text.specs.declared.error.ReadFault.TheVariants as reads;
ghost use Rattle.evidence.specs.Short.{KeepsShort, Puts, TakesOn, TakesShort, digits_after, digits_then, kept_of};

use crate::limits::{LONGEST_LINE, MOST_DIGITS};
use std::alloc::AllocError;
use std::io::ErrorKind;
use text::error::ReadFault;
use text::source::Blocks;

// Keeps the byte if there is room for it.
fn put(kept: &mut Vec<u8>, byte: u8) -> Result<(), AllocError>
    ensures { OnOk result (Puts (byte ∷ []) kept.old.items kept.new.items) }
{
    if kept.len() < LONGEST_LINE {
        kept.push(byte)?;
    }
    Ok(())
}

// Keeps the byte behind so many digits, unless it is one too many, and answers how many digits stand on end then.
fn keep(kept: &mut Vec<u8>, digits: usize, byte: u8) -> Result<usize, AllocError>
    ensures digits { IfOk result (λ after. after ≡ digits_then digits byte) }
    ensures kept { OnOk result (Puts (kept_of digits byte) kept.old.items kept.new.items) }
{
    if !byte.is_ascii_digit() {
        put(kept, byte)?;
        return Ok(0);
    }
    if digits >= MOST_DIGITS {
        return Ok(digits);
    }
    put(kept, byte)?;
    Ok(digits + 1)
}

// Keeps these bytes behind so many digits, and answers how many digits stand on end then.
fn keep_all(kept: &mut Vec<u8>, digits: usize, run: &[u8]) -> Result<usize, AllocError>
    ensures digits { IfOk result (λ after. after ≡ digits_after digits run.now) }
    ensures kept { OnOk result (KeepsShort digits run.now kept.old.items kept.new.items) }
{
    let mut after = digits;
    for byte in run {
        after = keep(kept, after, *byte)?;
    }
    Ok(after)
}

// How many bytes stand before the first LF.
fn before_end(block: &[u8]) -> usize
    ensures count { result ≡ prefix_len (is_other 10) block.now }
    ensures within { result ≤ length block.now }
{
    block.iter().take_while(|byte| **byte != b'\n').count()
}

// So many bytes and the end behind them, where it is there.
fn with_end(count: usize, len: usize) -> usize
    ensures { result ≡ min (count + 1) len }
{
    count.saturating_add(1).min(len)
}

// Whether the line ends with a block: an LF stands behind so many bytes of it, or it is empty since the text has ended.
fn is_end(count: usize, len: usize) -> bool
    ensures { result ≡ (nat_lt count len || nat_eq len 0) }
{
    count < len || len == 0
}

// Takes the line as far as the block at hand goes, and answers how many digits stand on end then, or that it has ended.
fn short_on<B: Blocks>(
    reader: &mut B,
    kept: &mut Vec<u8>,
    digits: usize,
) -> Result<Option<usize>, ReadFault>
    ensures { MatchResult result (λ found. IfKnown (B.remaining reader.old) (B.remaining reader.new) (TakesOn digits kept.old.items kept.new.items found))
        (HasCause B.can_fail reads.Read) }
{
    let block = match reader.fill_buf() {
        Ok(block) => block,
        Err(error) if error.kind() == ErrorKind::Interrupted => return Ok(Some(digits)),
        Err(_) => return Err(reader.fault()),
    };
    let count = before_end(block);
    let len = block.len();
    let after = keep_all(kept, digits, &block[..count])?;
    reader.consume(with_end(count, len));
    if is_end(count, len) {
        return Ok(None);
    }
    Ok(Some(after))
}

/// Takes the line that is next, its end with it, and keeps it shortened.
pub(crate) fn short_line<B: Blocks>(reader: &mut B, kept: &mut Vec<u8>) -> Result<(), ReadFault>
    ensures { MatchResult result (λ _. IfKnown (B.remaining reader.old) (B.remaining reader.new) (TakesShort kept.new.items))
        (HasCause B.can_fail reads.Read) }
{
    kept.clear();
    let mut digits = 0;
    for _ in 0..u64::MAX {
        match short_on(reader, kept, digits)? {
            Some(after) => digits = after,
            None => return Ok(()),
        }
    }
    Err(reader.fault())
}
