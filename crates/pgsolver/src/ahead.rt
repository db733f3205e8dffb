// The byte that is next in a reader, and the blanks before it.

ghost use Rattle.std.specs.Prelude.{◌≤◌, IfErr, IfOk, IfSome, MatchResult};
ghost use Rattle.text.specs.Cause.{HasCause};
ghost use Rattle.text.specs.Lines.{IfKnown};
ghost use Rattle.text.specs.declared.error.ReadFault.TheVariants as reads;
ghost use Rattle.pgsolver.specs.Passes.{SkipsTo, PassesGap, PassesComma, PassesDigit};

use text::bytes::is_blank;
use text::error::ReadFault;
use text::source::Blocks;
use text::stream::look;

/// Takes the blank that is next, if one is, and says whether it was there.
pub(crate) fn gap<B: Blocks>(reader: &mut B) -> Result<bool, ReadFault>
    ensures { MatchResult result (λ found. IfKnown (B.remaining reader.old) (B.remaining reader.new) (PassesGap found))
        (HasCause B.can_fail reads.Read) }
{
    match look(reader)? {
        Some(byte) if is_blank(byte) => {
            reader.consume(1);
            Ok(true)
        }
        _ => Ok(false),
    }
}

/// Takes the blanks in front, and looks at the byte that is next then.
pub(crate) fn next<B: Blocks>(reader: &mut B) -> Result<Option<u8>, ReadFault>
    ensures next { IfOk result (λ next. IfKnown (B.remaining reader.old) (B.remaining reader.new) (SkipsTo next)) }
    ensures room { IfOk result (λ next. IfSome next (λ _. IfSome (B.remaining reader.old) (λ _. IfSome (B.consumable_len reader.new) (λ n. 1 ≤ n)))) }
    ensures cause { IfErr result (HasCause B.can_fail reads.Read) }
{
    for _ in 0..u64::MAX {
        match look(reader)? {
            Some(byte) if is_blank(byte) => reader.consume(1),
            next => return Ok(next),
        }
    }
    Err(reader.fault())
}

/// Takes the blanks in front and the comma behind them, and says whether a comma was there.
pub(crate) fn comma<B: Blocks>(reader: &mut B) -> Result<bool, ReadFault>
    ensures { MatchResult result (λ found. IfKnown (B.remaining reader.old) (B.remaining reader.new) (PassesComma found))
        (HasCause B.can_fail reads.Read) }
{
    if next(reader)? != Some(b',') {
        return Ok(false);
    }
    reader.consume(1);
    Ok(true)
}

/// Takes the blanks in front, and says whether a digit is next then.
pub(crate) fn digit_follows<B: Blocks>(reader: &mut B) -> Result<bool, ReadFault>
    ensures { MatchResult result (λ found. IfKnown (B.remaining reader.old) (B.remaining reader.new) (PassesDigit found))
        (HasCause B.can_fail reads.Read) }
{
    match next(reader)? {
        Some(byte) => Ok(byte.is_ascii_digit()),
        None => Ok(false),
    }
}
