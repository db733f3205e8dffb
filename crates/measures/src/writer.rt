// The writer of counts and measures.

ghost use Rattle.std.specs.Prelude.{◌∷◌, decimal};
ghost use Rattle.std.specs.List.{flat_map};
ghost use Rattle.measures.specs.MeasureText.{counts_text, measure_text};
ghost use Rattle.text.specs.Wrote.{Wrote};

use crate::measure::Measure;
use text::sink::Sink;
use text::{WriteFault, put, put_number};

// Writes a count after a comma. Most counts are zero, and that is one write.
fn put_next<W: Sink>(writer: &mut W, count: u32) -> Result<(), WriteFault>
    ensures wrote { Wrote (W.taken writer.old) (W.taken writer.new) result (44 ∷ decimal count) }
{
    if count == 0 {
        put(writer, b",0")
    } else {
        put_number(writer, b",", count)
    }
}

// Writes these counts, each after a comma.
fn put_more<W: Sink>(writer: &mut W, counts: &[u32]) -> Result<(), WriteFault>
    ensures { Wrote (W.taken writer.old) (W.taken writer.new) result (flat_map (λ k. 44 ∷ decimal k) counts.now) }
{
    for count in counts {
        put_next(writer, *count)?;
    }
    Ok(())
}

/// Writes counts in parentheses, with a comma between two. It takes no memory.
///
/// # Errors
/// After a fault the writer holds a beginning of the text.
pub fn put_counts<W: Sink>(writer: &mut W, counts: &[u32]) -> Result<(), WriteFault>
    ensures wrote { Wrote (W.taken writer.old) (W.taken writer.new) result (counts_text counts.now) }
{
    match counts.split_first() {
        None => put(writer, b"()"),
        Some((first, rest)) => {
            put_number(writer, b"(", *first)?;
            put_more(writer, rest)?;
            put(writer, b")")
        }
    }
}

/// Writes `top`, or the counts in parentheses. It takes no memory.
///
/// # Errors
/// After a fault the writer holds a beginning of the text.
pub fn put_measure<W: Sink>(writer: &mut W, m: &Measure) -> Result<(), WriteFault>
    ensures wrote { Wrote (W.taken writer.old) (W.taken writer.new) result (measure_text m.now) }
{
    if m.is_top() {
        put(writer, b"top")
    } else {
        put_counts(writer, m.counts())
    }
}
