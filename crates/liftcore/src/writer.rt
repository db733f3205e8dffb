// The writer of replays.

ghost use Rattle.std.specs.Prelude.{◌≡◌, ◌<◌, ◌^◌, ◌+◌, ◌↔◌, [], ◌∷◌, Bool, IsTrue, length, if◌then◌else◌};
ghost use Rattle.liftcore.specs.Core.{is_quiet};
ghost use Rattle.liftcore.specs.Marks.{members};
ghost use Rattle.liftcore.specs.Replay.{end_lines, events_line, listed, replay_text, value_line, value_lines, yes_or_no};
ghost use Rattle.measures.specs.Tables.{IsSettled};
ghost use Rattle.text.specs.Wrote.{Wrote};

use crate::event::EventCounts;
use crate::machine::Core;
use crate::marks::VertexSet;
use measures::measure::Measure;
use measures::writer::put_measure;
use text::sink::Sink;
use text::{Piece, WriteFault, put, put_number, put_pieces};

fn put_events<W: Sink>(tally: EventCounts, writer: &mut W) -> Result<(), WriteFault>
    requires { tally.done + tally.skipped < 2 ^ 64 }
    ensures { Wrote (W.taken writer.old) (W.taken writer.new) result (events_line tally.done tally.skipped) }
{
    put_pieces(
        writer,
        &[
            Piece::Bytes(b"events "),
            Piece::Number((tally.done + tally.skipped) as u64),
            Piece::Bytes(b" done "),
            Piece::Number(tally.done as u64),
            Piece::Bytes(b" skipped "),
            Piece::Number(tally.skipped as u64),
            Piece::Bytes(b"\n"),
        ],
    )
}

fn put_value<W: Sink>(v: u32, m: &Measure, writer: &mut W) -> Result<(), WriteFault>
    ensures { Wrote (W.taken writer.old) (W.taken writer.new) result (value_line v m.now) }
{
    put_number(writer, b"", v)?;
    put(writer, b" ")?;
    put_measure(writer, m)?;
    put(writer, b"\n")
}

// Writes a line for each vertex.
fn put_values<W: Sink>(core: &Core<'_>, writer: &mut W) -> Result<(), WriteFault>
    ensures { Wrote (W.taken writer.old) (W.taken writer.new) result (value_lines 0 core.now.table.values) }
{
    core.known();
    for v in 0..core.vertices() {
        put_value(v, &core.value(v), writer)?;
    }
    Ok(())
}

// What stands before a number of a list.
fn separator(first: bool) -> &'static [u8]
    ensures { result.now ≡ (if first then [] else (44 ∷ [])) }
{
    if first { b"" } else { b"," }
}

// Writes those of so many vertices that are marked.
fn put_members<W: Sink>(marks: &VertexSet, vertices: u32, writer: &mut W) -> Result<(), WriteFault>
    requires { vertices ≡ length marks.now }
    ensures { Wrote (W.taken writer.old) (W.taken writer.new) result (listed (members marks.now)) }
{
    let mut first = true;
    for v in 0..vertices {
        if marks.has(v) {
            put_number(writer, separator(first), v)?;
            first = false;
        }
    }
    if first { put(writer, b"-") } else { Ok(()) }
}

fn word(flag: bool) -> &'static [u8]
    ensures { result.now ≡ yes_or_no flag }
{
    if flag { b"yes" } else { b"no" }
}

fn put_end<W: Sink>(settled: bool, quiet: bool, writer: &mut W) -> Result<(), WriteFault>
    ensures { Wrote (W.taken writer.old) (W.taken writer.new) result (end_lines settled quiet) }
{
    put_pieces(
        writer,
        &[
            Piece::Bytes(b"\nsettled "),
            Piece::Bytes(word(settled)),
            Piece::Bytes(b"\nquiet "),
            Piece::Bytes(word(quiet)),
            Piece::Bytes(b"\n"),
        ],
    )
}

// Writes the whole text, where it is known whether the core is settled and quiet.
fn put_replay<W: Sink>(
    core: &Core<'_>,
    tally: EventCounts,
    settled: bool,
    quiet: bool,
    writer: &mut W,
) -> Result<(), WriteFault>
    requires count { tally.done + tally.skipped < 2 ^ 64 }
    requires quiet { quiet ≡ is_quiet core.now }
    ensures { Wrote (W.taken writer.old) (W.taken writer.new) result (replay_text tally.done tally.skipped core.now settled) }
{
    put_events(tally, writer)?;
    put_values(core, writer)?;
    put(writer, b"pending ")?;
    put_members(core.pending(), core.vertices(), writer)?;
    put_end(settled, quiet, writer)
}

/// Writes what events came to: how many there were, done and skipped, the measure of each vertex, the pending vertices,
/// ascending, and whether the core is settled and quiet. It takes no memory.
///
/// # Errors
/// After a fault the writer holds a beginning of the text.
pub fn write_replay<W: Sink>(
    core: &Core<'_>,
    tally: EventCounts,
    writer: &mut W,
) -> Result<(), WriteFault>
    requires { tally.done + tally.skipped < 2 ^ 64 }
    ensures { (settled : Bool) × (IsTrue settled ↔ IsSettled core.now.table)
        × Wrote (W.taken writer.old) (W.taken writer.new) result (replay_text tally.done tally.skipped core.now settled) }
{
    let settled = core.is_settled();
    put_replay(core, tally, settled, core.is_quiet(), writer)
}
