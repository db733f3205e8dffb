// The tokens of a reader's text, of which no line is kept: only what a call is to keep of the token that it takes. A loop has to end, so each has at most
// 2^64 turns; a reader that still is interrupted then, or still has bytes of a token, has failed.

ghost use Rattle.std.specs.Prelude.{◌≡◌, ◌≤◌, ℕ, nat_lt, nat_eq, ◌||◌, List, [], ◌∷◌, ◌++◌, length, take, IfErr, IfOk, IfSome, IsTrue, MatchResult};
ghost use Rattle.std.specs.List.{prefix_len, list_all};
ghost use Rattle.text.specs.Cause.{HasCause};
ghost use Rattle.text.specs.Lines.{IfKnown};
ghost use Rattle.text.specs.declared.error.ReadFault.TheVariants.{Memory, Read};
ghost use Rattle.text.specs.Tokens as at;
ghost use Rattle.text.specs.declared.stream.Class.TheVariants.{Blank};
ghost use Rattle.text.specs.Stream.{is_of, is_inside, Shows, Takes, TakesAll, Runs, RunsOn, RunsTo, HasLine, Passes, PassesSign, PassesKept, Ends};

use crate::bytes::{is_blank, is_digit};
use crate::error::ReadFault;
use crate::scan::whole_number;
use crate::source::Blocks;
use std::io::ErrorKind;

// With so many digits a number without zeros in front is too great for its type.
const MOST_DIGITS: usize = 11;

/// The bytes of a token, or those between tokens.
#[derive(Clone, Copy)]
pub(crate) enum Class {
    Blank,
    Digit,
    /// What quotes may stand around.
    Inner,
}

impl Class {
    fn has(self, byte: u8) -> bool
        ensures { result ≡ is_of self byte }
    {
        match self {
            Class::Blank => is_blank(byte),
            Class::Digit => is_digit(byte),
            Class::Inner => byte != b'"' && byte != b'\n',
        }
    }
}

/// Looks at the next byte, which stays; none where the text has ended.
///
/// # Errors
/// A read failed, or memory was refused. What the reader has left then isn't said.
pub fn look<B: Blocks>(reader: &mut B) -> Result<Option<u8>, ReadFault>
    ensures next { IfOk result (Shows (B.remaining reader.old) (B.remaining reader.new)) }
    ensures room { IfOk result (λ next. IfSome next (λ _. IfSome (B.remaining reader.old) (λ _. IfSome (B.consumable_len reader.new) (λ n. 1 ≤ n)))) }
    ensures cause { IfErr result (HasCause B.can_fail Read) }
{
    for _ in 0..u64::MAX {
        match reader.fill_buf() {
            Ok(block) => return Ok(block.first().copied()),
            Err(error) if error.kind() == ErrorKind::Interrupted => {}
            Err(_) => return Err(reader.fault()),
        }
    }
    Err(reader.fault())
}

// Takes the byte if it is next, and says whether it was.
fn accept<B: Blocks>(reader: &mut B, byte: u8) -> Result<bool, ReadFault>
    ensures { MatchResult result (Takes (B.remaining reader.old) (B.remaining reader.new) byte) (HasCause B.can_fail Read) }
{
    if look(reader)? != Some(byte) {
        return Ok(false);
    }
    reader.consume(1);
    Ok(true)
}

// How many bytes of the class stand in front.
fn count_of(class: Class, block: &[u8]) -> usize
    ensures count { result ≡ prefix_len (is_of class) block.now }
    ensures within { result ≤ length block.now }
{
    block.iter().take_while(|byte| class.has(**byte)).count()
}

// Whether so many bytes of a block are all that there are: others follow in the block, or it is empty since the text has ended.
fn is_all(count: usize, block: usize) -> bool
    ensures { result ≡ (nat_lt count block || nat_eq block 0) }
{
    count < block || block == 0
}

// Keeps the first of these bytes, as long as fewer than so many are kept.
fn keep(kept: &mut Vec<u8>, most: usize, run: &[u8]) -> Result<(), ReadFault>
    ensures { MatchResult result (λ _. (front : List ℕ) → kept.old.items ≡ take most front → kept.new.items ≡ take most (front ++ run.now)) (λ fault. fault ≡ Memory) }
{
    let room = most.saturating_sub(kept.len());
    kept.extend_from_slice(&run[..room.min(run.len())])?;
    Ok(())
}

// Takes the bytes of the class in front as far as the block at hand goes, and says whether that is all of them.
fn run_on<B: Blocks>(
    reader: &mut B,
    class: Class,
    most: usize,
    kept: &mut Vec<u8>,
) -> Result<bool, ReadFault>
    ensures { MatchResult result (λ ended. IfKnown (B.remaining reader.old) (B.remaining reader.new) (RunsOn class most kept.old.items kept.new.items ended))
        (HasCause B.can_fail Read) }
{
    let block = match reader.fill_buf() {
        Ok(block) => block,
        Err(error) if error.kind() == ErrorKind::Interrupted => return Ok(false),
        Err(_) => return Err(reader.fault()),
    };
    let count = count_of(class, block);
    let ended = is_all(count, block.len());
    keep(kept, most, &block[..count])?;
    reader.consume(count);
    Ok(ended)
}

// Takes the bytes of the class in front, and keeps the first of them, so many at most.
fn run<B: Blocks>(
    reader: &mut B,
    class: Class,
    most: usize,
    kept: &mut Vec<u8>,
) -> Result<(), ReadFault>
    ensures { MatchResult result (λ _. IfKnown (B.remaining reader.old) (B.remaining reader.new) (Runs class most kept.new.items))
        (HasCause B.can_fail Read) }
{
    kept.clear();
    for _ in 0..u64::MAX {
        if run_on(reader, class, most, kept)? {
            return Ok(());
        }
    }
    Err(reader.fault())
}

// Takes the blanks in front, and looks at the byte that is next then.
fn skip_blanks<B: Blocks>(reader: &mut B) -> Result<Option<u8>, ReadFault>
    ensures next { IfOk result (λ next. IfKnown (B.remaining reader.old) (B.remaining reader.new) (RunsTo Blank next)) }
    ensures room { IfOk result (λ next. IfSome next (λ _. IfSome (B.remaining reader.old) (λ _. IfSome (B.consumable_len reader.new) (λ n. 1 ≤ n)))) }
    ensures cause { IfErr result (HasCause B.can_fail Read) }
{
    for _ in 0..u64::MAX {
        match look(reader)? {
            Some(byte) if is_blank(byte) => reader.consume(1),
            next => return Ok(next),
        }
    }
    Err(reader.fault())
}

/// Takes the sign past the blanks, and says whether it was there.
///
/// # Errors
/// A read failed, or memory was refused. What the reader has left then isn't said.
pub fn sign<B: Blocks>(reader: &mut B, token: u8) -> Result<bool, ReadFault>
    requires inside { IsTrue (is_inside token) }
    ensures { MatchResult result (λ found. IfKnown (B.remaining reader.old) (B.remaining reader.new) (PassesSign (at.sign_at (token ∷ [])) found))
        (HasCause B.can_fail Read) }
{
    if skip_blanks(reader)? != Some(token) {
        return Ok(false);
    }
    reader.consume(1);
    Ok(true)
}

// Takes the bytes of the word in front, until one of them isn't next, and says whether all were.
fn accept_all<B: Blocks>(reader: &mut B, word: &[u8]) -> Result<bool, ReadFault>
    ensures { MatchResult result (λ found. IfKnown (B.remaining reader.old) (B.remaining reader.new) (TakesAll word.now found))
        (HasCause B.can_fail Read) }
{
    for byte in word {
        if !accept(reader, *byte)? {
            return Ok(false);
        }
    }
    Ok(true)
}

/// Takes the word past the blanks, and says whether it was there.
///
/// # Errors
/// A read failed, or memory was refused. What the reader has left then isn't said.
pub fn word<B: Blocks>(reader: &mut B, token: &[u8]) -> Result<bool, ReadFault>
    requires inside { IsTrue (list_all is_inside token.now) }
    ensures { MatchResult result (λ found. IfKnown (B.remaining reader.old) (B.remaining reader.new) (PassesSign (at.sign_at token.now) found))
        (HasCause B.can_fail Read) }
{
    skip_blanks(reader)?;
    accept_all(reader, token)
}

/// Takes the number past the blanks, by way of some of its digits. A number that is too great for its type is read as the greatest one.
///
/// # Errors
/// A read failed, or memory was refused. What the reader has left then isn't said.
pub fn number<B: Blocks>(reader: &mut B, digits: &mut Vec<u8>) -> Result<Option<u32>, ReadFault>
    ensures { MatchResult result (λ found. IfKnown (B.remaining reader.old) (B.remaining reader.new) (Passes at.number_at found))
        (HasCause B.can_fail Read) }
{
    skip_blanks(reader)?;
    run(reader, Class::Digit, MOST_DIGITS, digits)?;
    Ok(whole_number(digits))
}

/// Takes the number before the token, past the blanks, and the token.
///
/// # Errors
/// A read failed, or memory was refused. What the reader has left then isn't said.
pub fn number_before<B: Blocks>(
    reader: &mut B,
    token: u8,
    digits: &mut Vec<u8>,
) -> Result<Option<u32>, ReadFault>
    requires inside { IsTrue (is_inside token) }
    ensures { MatchResult result (λ found. IfKnown (B.remaining reader.old) (B.remaining reader.new) (Passes (at.number_before (token ∷ [])) found))
        (HasCause B.can_fail Read) }
{
    let Some(found) = number(reader, digits)? else {
        return Ok(None);
    };
    if !sign(reader, token)? {
        return Ok(None);
    }
    Ok(Some(found))
}

/// Takes the bytes between the quotes past the blanks, and keeps the first of them, so many at most. It says whether they were there.
///
/// # Errors
/// A read failed, or memory was refused. What the reader has left then isn't said.
pub fn quoted<B: Blocks>(reader: &mut B, most: usize, kept: &mut Vec<u8>) -> Result<bool, ReadFault>
    ensures { MatchResult result (λ found. IfKnown (B.remaining reader.old) (B.remaining reader.new) (PassesKept at.quoted_at most kept.new.items found))
        (HasCause B.can_fail Read) }
{
    if !sign(reader, b'"')? {
        return Ok(false);
    }
    run(reader, Class::Inner, most, kept)?;
    accept(reader, b'"')
}

/// Takes the blanks and the end of the line where nothing else is left of it, and says whether nothing was.
///
/// # Errors
/// A read failed, or memory was refused. What the reader has left then isn't said.
pub fn has_ended<B: Blocks>(reader: &mut B) -> Result<bool, ReadFault>
    ensures { MatchResult result (λ found. IfKnown (B.remaining reader.old) (B.remaining reader.new) (Ends found)) (HasCause B.can_fail Read) }
{
    skip_blanks(reader)?;
    accept(reader, b'\r')?;
    if accept(reader, b'\n')? {
        return Ok(true);
    }
    Ok(look(reader)?.is_none())
}

/// Whether there is a line: the text has not ended.
///
/// # Errors
/// A read failed, or memory was refused. What the reader has left then isn't said.
pub fn has_line<B: Blocks>(reader: &mut B) -> Result<bool, ReadFault>
    ensures { MatchResult result (HasLine (B.remaining reader.old) (B.remaining reader.new)) (HasCause B.can_fail Read) }
{
    Ok(look(reader)?.is_some())
}
