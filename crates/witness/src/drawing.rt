// A text for Graphviz.

ghost use Rattle.std.specs.Prelude.{◌<◌, length, map};
ghost use Rattle.std.specs.List.{flat_map};
ghost use Rattle.systems.specs.Numbered.{IsInside, IsInside-prop, arrow_of, system_with};
ghost use Rattle.text.specs.Wrote.{Wrote};
ghost use Rattle.witness.specs.Drawing.{drawing, edge_line, escape, escaped, head_text};

use lts::{Lts, Transition};
use text::sink::Sink;
use text::{Lines, Piece, WriteFault, put, put_lines, put_pieces};

/// Writes the system with these of its transitions alone as a graph for Graphviz: an edge for each transition, in the order in
/// which they are given, and the initial state, which is marked. States without a transition are not drawn. It takes no memory.
///
/// # Errors
/// After a fault the writer holds a beginning of the text.
pub fn write_drawing<W: Sink>(
    system: &Lts,
    part: &[Transition],
    out: &mut W,
) -> Result<(), WriteFault>
    requires { IsInside system.now part.now }
    ensures wrote { Wrote (W.taken out.old) (W.taken out.new) result (drawing (system_with system.now part.now)) }
{
    put_head(system.initial(), out)?;
    put_edges(system, part, out)?;
    put(out, b"}\n")
}

// Writes what stands before the edges.
fn put_head<W: Sink>(initial: u32, out: &mut W) -> Result<(), WriteFault>
    ensures { Wrote (W.taken out.old) (W.taken out.new) result (head_text initial) }
{
    put_pieces(
        out,
        &[
            Piece::Bytes(b"digraph witness {\n  rankdir=LR;\n  node [shape=circle];\n  "),
            Piece::Number(u64::from(initial)),
            Piece::Bytes(b" [shape=doublecircle];\n"),
        ],
    )
}

// A line for each of the transitions.
#[derive(Clone, Copy)]
struct EdgeLines<'a> {
    system: &'a Lts,
    part: &'a [Transition],
    ghost inside: { IsInside system.now part.now } by { IsInside-prop system.now part.now },
}

impl Lines for EdgeLines<'_> {
    ghost use Rattle.std.specs.Prelude.{length};
    ghost use Rattle.witness.specs.Drawing.{edge_line_at};

    ghost count = { λ lines. length lines.part.now };

    ghost line = { λ lines number. edge_line_at lines.system.now.labels lines.part.now number };

    fn count(&self) -> usize {
        self.part.len()
    }

    fn put_line<W: Sink>(&self, number: usize, writer: &mut W) -> Result<(), WriteFault> {
        put_edge(self.system, self.part[number], writer)
    }
}

// Writes a line for each of the transitions.
fn put_edges<W: Sink>(system: &Lts, part: &[Transition], out: &mut W) -> Result<(), WriteFault>
    requires { IsInside system.now part.now }
    ensures { Wrote (W.taken out.old) (W.taken out.new) result (flat_map edge_line (map (arrow_of system.now.labels) part.now)) }
{
    put_lines(&EdgeLines { system, part }, out)
}

fn put_edge<W: Sink>(system: &Lts, transition: Transition, out: &mut W) -> Result<(), WriteFault>
    requires { transition.label < length system.now.labels }
    ensures { Wrote (W.taken out.old) (W.taken out.new) result (edge_line (arrow_of system.now.labels transition)) }
{
    put_pieces(
        out,
        &[
            Piece::Bytes(b"  "),
            Piece::Number(u64::from(transition.source)),
            Piece::Bytes(b" -> "),
            Piece::Number(u64::from(transition.target)),
            Piece::Bytes(b" [label=\""),
        ],
    )?;
    put_label(system.label(transition.label).bytes, out)?;
    put(out, b"\"];\n")
}

// Writes the bytes of a label, with a `\` before each byte that would be read as something else.
fn put_label<W: Sink>(bytes: &[u8], out: &mut W) -> Result<(), WriteFault>
    ensures { Wrote (W.taken out.old) (W.taken out.new) result (escaped bytes.now) }
{
    for byte in bytes {
        put_byte(*byte, out)?;
    }
    Ok(())
}

fn put_byte<W: Sink>(byte: u8, out: &mut W) -> Result<(), WriteFault>
    ensures { Wrote (W.taken out.old) (W.taken out.new) result (escape byte) }
{
    if byte == b'"' || byte == b'\\' {
        put(out, &[b'\\', byte])
    } else {
        put(out, &[byte])
    }
}
