// The text of a normal form.

ghost use Rattle.std.specs.Prelude.{◌≡◌, ◌++◌, ◌∷◌, [], codes, decimal};
ghost use Rattle.calculus.specs.View.{action_of};
ghost use Rattle.calculus.specs.Canon.{action_text};
ghost use Rattle.text.specs.Wrote.{Wrote};
ghost use Rattle.calculus.specs.Nodes.{greatest_node_priority as greatest_priority_of};
ghost use Rattle.text.specs.Pieces.{line_end};
ghost use Rattle.normal.specs.NormalText.{normal_text, summary_line, kind_text, rest_of, fields, after_spaces, node_line, node_lines};
ghost use Rattle.calculus.specs.NodeView.{node_of, nodes_of, shape_of};
ghost use Rattle.calculus.specs.Normal.{normal_nodes, normal_depth};

use calculus::form::Normal;
use calculus::node::{Kind, Node};
use calculus::put_action;
use calculus::tree::Act;
use text::sink::Sink;
use text::{Piece, WriteFault, put, put_pieces};

/// Writes a line with the number of nodes, the greatest priority and the depth, and then a line for each node: its number,
/// what it is, its priority, its children's numbers or its binder's, and a modality's action formula. It takes no memory.
///
/// # Errors
/// After a fault the writer holds a beginning of the text.
pub fn print_normal<W: Sink>(form: &Normal, writer: &mut W) -> Result<(), WriteFault>
    ensures wrote { Wrote (W.taken writer.old) (W.taken writer.new) result
        (normal_text (normal_nodes form.now) (normal_depth form.now)) }
{
    put_summary(form.nodes(), form.depth(), writer)?;
    put_nodes(form.nodes(), writer)
}

/// The greatest priority of the nodes, and 0 where there is none.
fn greatest_priority(nodes: &[Node]) -> u32
    ensures { result ≡ greatest_priority_of (nodes_of nodes.now) }
{
    let mut greatest = 0;
    for node in nodes {
        greatest = node.priority.max(greatest);
    }
    greatest
}

fn put_summary<W: Sink>(nodes: &[Node], depth: u32, writer: &mut W) -> Result<(), WriteFault>
    ensures { Wrote (W.taken writer.old) (W.taken writer.new) result (summary_line (nodes_of nodes.now) depth) }
{
    put_pieces(
        writer,
        &[
            Piece::Bytes(b"nodes "),
            Piece::Number(nodes.len() as u64),
            Piece::Bytes(b" priority "),
            Piece::Number(u64::from(greatest_priority(nodes))),
            Piece::Bytes(b" depth "),
            Piece::Number(u64::from(depth)),
            Piece::Bytes(b"\n"),
        ],
    )
}

// Writes a line for each node, in order.
fn put_nodes<W: Sink>(nodes: &[Node], writer: &mut W) -> Result<(), WriteFault>
    ensures { Wrote (W.taken writer.old) (W.taken writer.new) result (node_lines 0 (nodes_of nodes.now)) }
{
    for (number, node) in nodes.iter().enumerate() {
        put_node(number, node, writer)?;
    }
    Ok(())
}

fn put_node<W: Sink>(number: usize, node: &Node, writer: &mut W) -> Result<(), WriteFault>
    ensures { Wrote (W.taken writer.old) (W.taken writer.new) result (node_line number (node_of node.now)) }
{
    put_front(number, node, writer)?;
    put_rest(&node.kind, writer)
}

fn word(kind: &Kind) -> &'static [u8]
    ensures { result.now ≡ kind_text (shape_of kind.now) }
{
    match kind {
        Kind::True => b"true",
        Kind::False => b"false",
        Kind::And(..) => b"and",
        Kind::Or(..) => b"or",
        Kind::Dia(..) => b"dia",
        Kind::Box(..) => b"box",
        Kind::Mu(_) => b"mu",
        Kind::Nu(_) => b"nu",
        Kind::Var(_) => b"var",
    }
}

// Writes the fields that every node has.
fn put_front<W: Sink>(number: usize, node: &Node, writer: &mut W) -> Result<(), WriteFault>
    ensures { Wrote (W.taken writer.old) (W.taken writer.new) result
        (fields (decimal number ∷ kind_text (shape_of node.now.kind) ∷ decimal node.now.priority ∷ [])) }
{
    put_pieces(
        writer,
        &[
            Piece::Number(number as u64),
            Piece::Bytes(b" "),
            Piece::Bytes(word(&node.kind)),
            Piece::Bytes(b" "),
            Piece::Number(u64::from(node.priority)),
        ],
    )
}

// Writes the other fields, and the end of the line.
fn put_rest<W: Sink>(kind: &Kind, writer: &mut W) -> Result<(), WriteFault>
    ensures { Wrote (W.taken writer.old) (W.taken writer.new) result (after_spaces (rest_of (shape_of kind.now)) ++ line_end) }
{
    match kind {
        Kind::True | Kind::False => put(writer, b"\n"),
        Kind::And(left, right) | Kind::Or(left, right) => put_pieces(
            writer,
            &[
                Piece::Bytes(b" "),
                Piece::Number(u64::from(*left)),
                Piece::Bytes(b" "),
                Piece::Number(u64::from(*right)),
                Piece::Bytes(b"\n"),
            ],
        ),
        Kind::Dia(action, child) | Kind::Box(action, child) => put_modality(*child, action, writer),
        Kind::Mu(number) | Kind::Nu(number) | Kind::Var(number) => put_pieces(
            writer,
            &[
                Piece::Bytes(b" "),
                Piece::Number(u64::from(*number)),
                Piece::Bytes(b"\n"),
            ],
        ),
    }
}

fn put_modality<W: Sink>(child: u32, action: &Act, writer: &mut W) -> Result<(), WriteFault>
    ensures { Wrote (W.taken writer.old) (W.taken writer.new) result
        (codes " " ++ (decimal child ++ (codes " " ++ (action_text (action_of action.now) ++ line_end)))) }
{
    put_pieces(
        writer,
        &[
            Piece::Bytes(b" "),
            Piece::Number(u64::from(child)),
            Piece::Bytes(b" "),
        ],
    )?;
    put_action(action, writer)?;
    put(writer, b"\n")
}
