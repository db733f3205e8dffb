// The writers of systems.

ghost use Rattle.std.specs.Prelude.{◌<◌, ◌≤◌, length, map};
ghost use Rattle.std.specs.List.{flat_map};
ghost use Rattle.systems.specs.System.{IsSystem};
ghost use Rattle.systems.specs.Numbered.{IsInside, IsInside-prop, arrow_of, system_with};
ghost use Rattle.lts.specs.Aut.{IsAut};
ghost use Rattle.lts.specs.Canon.{aut_text, header_line, arrow_line};
ghost use Rattle.text.specs.Wrote.{Wrote};

use systems::limits::MOST_TRANSITIONS;
use systems::system::{Lts, Transition};
use text::sink::Sink;
use text::{Lines, Piece, WriteFault, put_lines, put_pieces};

/// Writes the system as its canonical Aldebaran text: a header, and a line for each distinct transition, ascending by
/// source, by the label's bytes and by target. It takes no memory.
///
/// # Errors
/// After a fault the writer holds a beginning of the text.
pub fn write_aut<W: Sink>(lts: &Lts, out: &mut W) -> Result<(), WriteFault>
    ensures wrote { Wrote (W.taken out.old) (W.taken out.new) result (aut_text lts.now.system) }
    // The text spells the system.
    ensures spelled { IsAut (aut_text lts.now.system) lts.now.system }
{
    // For the proof: the clauses of this call say what the system has.
    let _states = lts.states();
    write_part(lts, lts.all(), out)
}

/// Writes the system with these of its transitions alone, in the order in which they are given, and with all its states. It
/// takes no memory.
///
/// # Errors
/// After a fault the writer holds a beginning of the text.
pub fn write_part<W: Sink>(lts: &Lts, part: &[Transition], out: &mut W) -> Result<(), WriteFault>
    requires { IsInside lts.now part.now }
    ensures wrote { Wrote (W.taken out.old) (W.taken out.new) result (aut_text (system_with lts.now part.now)) }
    // The text spells it, where the transitions are given in order and each once.
    ensures spelled { IsSystem (system_with lts.now part.now) → length part.now ≤ MOST_TRANSITIONS
        → IsAut (aut_text (system_with lts.now part.now)) (system_with lts.now part.now) }
{
    put_header(lts.initial(), part.len(), lts.states(), out)?;
    put_arrows(lts, part, out)
}

fn put_header<W: Sink>(
    initial: u32,
    transitions: usize,
    states: u32,
    out: &mut W,
) -> Result<(), WriteFault>
    ensures { Wrote (W.taken out.old) (W.taken out.new) result (header_line initial transitions states) }
{
    put_pieces(
        out,
        &[
            Piece::Bytes(b"des ("),
            Piece::Number(u64::from(initial)),
            Piece::Bytes(b","),
            Piece::Number(transitions as u64),
            Piece::Bytes(b","),
            Piece::Number(u64::from(states)),
            Piece::Bytes(b")\n"),
        ],
    )
}

// A line for each of the transitions.
#[derive(Clone, Copy)]
struct ArrowLines<'a> {
    lts: &'a Lts,
    part: &'a [Transition],
    ghost inside: { IsInside lts.now part.now } by { IsInside-prop lts.now part.now },
}

impl Lines for ArrowLines<'_> {
    ghost use Rattle.std.specs.Prelude.{length};
    ghost use Rattle.lts.specs.Canon.{arrow_line_at};

    ghost count = { λ lines. length lines.part.now };

    ghost line = { λ lines number. arrow_line_at lines.lts.now.labels lines.part.now number };

    fn count(&self) -> usize {
        self.part.len()
    }

    fn put_line<W: Sink>(&self, number: usize, writer: &mut W) -> Result<(), WriteFault> {
        put_arrow(self.lts, self.part[number], writer)
    }
}

// Writes a line for each of the transitions.
fn put_arrows<W: Sink>(lts: &Lts, part: &[Transition], out: &mut W) -> Result<(), WriteFault>
    requires { IsInside lts.now part.now }
    ensures { Wrote (W.taken out.old) (W.taken out.new) result (flat_map arrow_line (map (arrow_of lts.now.labels) part.now)) }
{
    put_lines(&ArrowLines { lts, part }, out)
}

fn put_arrow<W: Sink>(lts: &Lts, transition: Transition, out: &mut W) -> Result<(), WriteFault>
    requires { transition.label < length lts.now.labels }
    ensures { Wrote (W.taken out.old) (W.taken out.new) result (arrow_line (arrow_of lts.now.labels transition)) }
{
    put_pieces(
        out,
        &[
            Piece::Bytes(b"("),
            Piece::Number(u64::from(transition.source)),
            Piece::Bytes(b",\""),
            Piece::Bytes(lts.label(transition.label).bytes),
            Piece::Bytes(b"\","),
            Piece::Number(u64::from(transition.target)),
            Piece::Bytes(b")\n"),
        ],
    )
}
