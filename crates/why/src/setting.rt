// What a telling is written with.

ghost use Rattle.std.specs.Prelude.{◌≡◌, ◌≤◌, ◌++◌, IfOk, false, length, map, slice_index_or};
ghost use Rattle.text.specs.Wrote.{Wrote};
ghost use Rattle.calculus.specs.Canon.{action_text};
ghost use Rattle.calculus.specs.View.{action_of};
ghost use Rattle.calculus.specs.Normal.{normal_nodes};
ghost use Rattle.calculus.specs.NodeView.{shape_of};
ghost use Rattle.why.specs.Story.{has_branch as has_branch_of, lines_of as lines_of_visit, verdict_text};
ghost use Rattle.why.specs.Story.{AreHeads, HasMarked, IsCut, modality_of, modality_text as modality_text_of};

use crate::visit::{Continuation, Visit};
use crate::writer::action_at;
use calculus::form::Normal;
use calculus::tree::Act;
use calculus::{node, put_action};
use std::alloc::Global;
use text::sink::Sink;
use text::{Memory, WriteFault, put};

/// The text of each node's modality, and nothing of a node that has none.
pub fn modality_texts(alloc: Global, normal: &Normal) -> Result<Vec<Vec<u8>>, Memory>
    ensures { IfOk result (λ texts. map (λ text. text.items) texts.items ≡ map modality_of (normal_nodes normal.now)) }
{
    let mut texts = Vec::new(alloc);
    for node in normal.nodes() {
        texts.push(modality_text(alloc, &node.kind)?)?;
    }
    Ok(texts)
}

fn modality_text(alloc: Global, kind: &node::Kind) -> Result<Vec<u8>, Memory>
    ensures { IfOk result (λ text. text.items ≡ modality_text_of (shape_of kind.now)) }
{
    let mut text = Vec::new(alloc);
    // A vector refuses what there is no memory for, and nothing else.
    match put_modality(kind, &mut text) {
        Ok(()) => Ok(text),
        Err(WriteFault) => Err(Memory),
    }
}

/// Writes a modality without what stands behind it.
fn put_modality<W: Sink>(kind: &node::Kind, out: &mut W) -> Result<(), WriteFault>
    ensures { Wrote (W.taken out.old) (W.taken out.new) result (modality_text_of (shape_of kind.now)) }
{
    match kind {
        node::Kind::Dia(action, _) => put_between(b"<", action, b">", out),
        node::Kind::Box(action, _) => put_between(b"[", action, b"]", out),
        _ => Ok(()),
    }
}

/// Writes an action formula between two texts.
pub(crate) fn put_between<W: Sink>(
    opening: &[u8],
    action: &Act,
    closing: &[u8],
    out: &mut W,
) -> Result<(), WriteFault>
    ensures { Wrote (W.taken out.old) (W.taken out.new) result (opening.now ++ (action_text (action_of action.now) ++ closing.now)) }
{
    put(out, opening)?;
    put_action(action, out)?;
    put(out, closing)
}

/// A mark for each visit, true where a run comes back to it.
pub fn heads(alloc: Global, visits: &[Visit]) -> Result<Vec<bool>, Memory>
    ensures { IfOk result (λ heads. AreHeads visits.now heads.items) }
{
    let mut heads = vec![in alloc; false; visits.len()]?;
    for visit in visits {
        mark_head(visit.kind, &mut heads);
    }
    Ok(heads)
}

/// Marks the visit to which a run comes back, where it does.
fn mark_head(kind: Continuation, heads: &mut Vec<bool>)
    ensures long { length heads.new.items ≡ length heads.old.items }
    ensures marks { HasMarked kind heads.old.items heads.new.items }
{
    if let Continuation::Back(i) = kind {
        if i < heads.len() {
            heads[i] = true;
        }
    }
}

/// Whether the visit of this number is marked.
pub(crate) fn is_head(heads: &[bool], number: usize) -> bool
    ensures { result ≡ slice_index_or heads.now number false }
{
    heads.get(number).copied().unwrap_or(false)
}

/// How many of the first visits have at most so many lines, or how many there are where the limit is 0.
pub fn told_within(normal: &Normal, visits: &[Visit], heads: &[bool], limit: u32) -> usize
    ensures { IsCut (normal_nodes normal.now) visits.now heads.now limit result }
{
    if limit == 0 {
        return visits.len();
    }
    let mut lines = 0;
    for i in 0..visits.len() {
        lines += lines_of(normal, visits.get(i).copied(), is_head(heads, i));
        if lines > u64::from(limit) {
            return i;
        }
    }
    visits.len()
}

/// How many lines a visit has.
fn lines_of(normal: &Normal, visit: Option<Visit>, head: bool) -> u64
    ensures count { result ≡ lines_of_visit (normal_nodes normal.now) head visit }
    ensures few { result ≤ 3 }
{
    let Some(visit) = visit else {
        return 0;
    };
    let is_step = match visit.way.from {
        Some(from) => action_at(normal, from).is_some(),
        None => false,
    };
    let is_end = !matches!(visit.kind, Continuation::On | Continuation::Branch);
    u64::from(is_step) + u64::from(head) + u64::from(is_end)
}

/// Whether some run branches.
pub fn has_branch(visits: &[Visit]) -> bool
    ensures { result ≡ has_branch_of visits.now }
{
    visits
        .iter()
        .any(|visit| visit.kind == Continuation::Branch)
}

/// Whether the initial state satisfies the formula, and whether one run shows it or several do.
pub fn verdict(answer: bool, several: bool) -> &'static [u8]
    ensures { result.now ≡ verdict_text answer several }
{
    match (answer, several) {
        (true, true) => b"initial yes: these runs show it",
        (true, false) => b"initial yes: this run shows it",
        (false, true) => b"initial no: these runs break it",
        (false, false) => b"initial no: this run breaks it",
    }
}
