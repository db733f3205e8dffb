// The engine of the command `labels`.

ghost use Rattle.std.specs.Prelude.{◌≡◌, ℕ, IfErr, List, Option, false, option_map};
ghost use Rattle.std.specs.List.{list_any};
ghost use Rattle.calculus.specs.NodeView.{nodes_of, shape_of};
ghost use Rattle.requests.specs.Causes.{HaveCauses};
ghost use Rattle.commands.specs.Answers.{Answers};
ghost use Rattle.commands.specs.Labels.{AreGiven, IsListed, Lists, RefusesLabels, has_label, label_end};
ghost use Rattle.commands.specs.Ranking.{AreCounted, AreCounted-prop};

use crate::answer::answered;
use crate::label_counts::{Counted, ranked_labels};
use calculus::holds;
use calculus::node::{Kind, Node};
use lts::reader::read_aut;
use lts::system::Lts;
use lts::{LabelView, Piece, WriteFault, put_pieces};
use normal::make::normal;
use requests::error::MuError;
use requests::texts::read_both;
use std::alloc::Global;
use std::hash::BuildHasher;
use text::batch::{Lines, put_lines};
use text::sink::Sink;
use text::source::Source;

/// Writes each label of a system with how many distinct transitions have it, the most frequent first; where there is a formula, also which of them an
/// action formula in a modality of its normal form holds of. The answer is true.
///
/// # Errors
/// Those of both readers and of the normal form, unchanged; U3 where a read of the formula failed, U4 for the memory of its text or of the counts; W1
/// where a write failed. After a refusal that is not W1 nothing was written.
pub fn labels_text<L: BuildHasher + Drop, R: Source + Drop, S: Source + Drop, W: Sink>(
    alloc: Global,
    hasher: L,
    aut: R,
    formula: Option<S>,
    out: &mut W,
) -> Result<bool, MuError>
    ensures lists { Lists (R.remaining aut) (option_map S.remaining formula) (W.taken out.old) (W.taken out.new) result }
    ensures cause { IfErr result (HaveCauses R.can_fail S.can_fail) }
{
    match formula {
        None => {
            let system = read_aut(alloc, hasher, aut).map_err(MuError::System)?;
            write_labels(alloc, &system, &[], out)
        }
        Some(formula) => {
            let texts = read_both(alloc, hasher, aut, formula)?;
            let form = normal(alloc, &texts.formula).map_err(MuError::Normal)?;
            write_labels(alloc, &texts.system, form.nodes(), out)
        }
    }
}

/// Writes the labels of the system, and which of them a normal form with these nodes takes.
fn write_labels<W: Sink>(
    alloc: Global,
    system: &Lts,
    nodes: &[Node],
    out: &mut W,
) -> Result<bool, MuError>
    ensures answers { (first : List ℕ) (second : Option (List ℕ)) → AreGiven first second system.now.system (nodes_of nodes.now)
        → Answers (IsListed first second) (RefusesLabels first second) (W.taken out.old) (W.taken out.new) result }
    ensures cause { IfErr result (HaveCauses false false) }
{
    let ranked = ranked_labels(alloc, system)?;
    let lines = LabelLines {
        lts: system,
        ranked: &ranked,
        nodes,
    };
    answered(put_lines(&lines, out), true)
}

// A line for each of the labels.
#[derive(Clone, Copy)]
struct LabelLines<'a> {
    lts: &'a Lts,
    ranked: &'a [Counted],
    nodes: &'a [Node],
    ghost counted: { AreCounted lts.now ranked.now } by { AreCounted-prop lts.now ranked.now },
}

impl Lines for LabelLines<'_> {
    ghost use Rattle.std.specs.Prelude.{length};
    ghost use Rattle.commands.specs.Ranking.{counted_line_at};

    ghost count = { λ lines. length lines.ranked.now };

    ghost line = { λ lines number. counted_line_at lines.lts.now.labels (nodes_of lines.nodes.now) lines.ranked.now number };

    fn count(&self) -> usize {
        self.ranked.len()
    }

    fn put_line<W: Sink>(&self, number: usize, writer: &mut W) -> Result<(), WriteFault> {
        let counted = self.ranked[number];
        let label = self.lts.label(counted.number);
        put_pieces(
            writer,
            &[
                Piece::Number(u64::from(counted.count.0)),
                Piece::Bytes(b" \""),
                Piece::Bytes(label.bytes),
                Piece::Bytes(end_of_line(is_taken(self.nodes, &label))),
            ],
        )
    }
}

/// What stands behind a label.
fn end_of_line(taken: bool) -> &'static [u8]
    ensures { result.now ≡ label_end taken }
{
    if taken { b"\" taken\n" } else { b"\"\n" }
}

/// Whether one of the nodes has an action formula that holds of the label.
fn is_taken(nodes: &[Node], label: &LabelView<'_>) -> bool
    ensures { result ≡ list_any (λ node. has_label label.now.bytes.now (shape_of node.kind)) nodes.now }
{
    nodes.iter().any(|node| has_label(node, label))
}

/// Whether the node has an action formula that holds of the label.
fn has_label(node: &Node, label: &LabelView<'_>) -> bool
    ensures { result ≡ has_label label.now.bytes.now (shape_of node.now.kind) }
{
    match &node.kind {
        Kind::Dia(action, _) | Kind::Box(action, _) => holds(action, label),
        _ => false,
    }
}
