// The text of a telling.

ghost use Rattle.std.specs.Prelude.{◌≡◌, ◌<◌, ◌≤◌, ◌-◌, ◌%◌, Some, option_map, drop, length, map, take};
ghost use Rattle.systems.specs.Numbered.{IsInside, arrow_of, arrows_from};
ghost use Rattle.text.specs.Wrote.{Wrote};
ghost use Rattle.calculus.specs.View.{action_of};
ghost use Rattle.calculus.specs.Normal.{normal_nodes};
ghost use Rattle.calculus.specs.NodeView.{shape_of};
ghost use Rattle.why.specs.declared.visit.TheConstants.{MOST_SHOWN};
ghost use Rattle.why.specs.Story.{action_at as action_at_of, action_in as action_in_of, arrow_text, blanks_before, by_text, end_text, everywhere_text, first_label as first_label_of, from_of, head_text, lack_text, long_before, long_line, long_with};
ghost use Rattle.why.specs.Story.{modality_at as modality_at_of, modality_of, modality_told as modality_told_of, number_from, reason_text, shape_at, sink_text};
ghost use Rattle.why.specs.Everywhere.{asked_test as asked_test_of, node_of as node_in, state_of as state_in, test_of};
ghost use Rattle.why.specs.Story.{step_before as step_before_of, step_text, rest_text, stop_text, story_text, told_text, way_text, which_text};

use crate::everywhere::{StepTest, asked_test};
use crate::setting::{is_head, put_between};
use crate::visit::{Continuation, MOST_BLANKS, MOST_COLUMNS, MOST_SHOWN, Visit, Way};
use arrayvec::ArrayVec;
use calculus::form::Normal;
use calculus::limits::MOST_NODES;
use calculus::tree::Act;
use calculus::{holds, node, put_action};
use lts::{Lts, Transition};
use text::sink::Sink;
use text::{Lines, Piece, WriteFault, put, put_lines, put_pieces};

/// With what lines begin.
static BLANKS: [u8; MOST_BLANKS] = [b' '; MOST_BLANKS];

/// A telling, and what its text is made of.
#[derive(Clone, Copy)]
pub struct Story<'a> {
    pub system: &'a Lts,
    pub normal: &'a Normal,
    /// The text of each node's modality.
    pub modalities: &'a [Vec<u8>],
    pub visits: &'a [Visit],
    /// A mark for each visit, true where a run comes back to it.
    pub heads: &'a [bool],
    /// How many visits are told.
    pub count: usize,
    /// How many visits are made at most.
    pub most: usize,
    ghost texts: { map (λ text. text.items) modalities.now ≡ map modality_of (normal_nodes normal.now) },
    ghost within: { count ≤ length visits.now },
}

/// A story, and vertices from which its steps by long modalities are taken. Its lines are those of the visits.
#[derive(Clone, Copy)]
struct Told<'a> {
    story: Story<'a>,
    long: &'a [u32],
}

impl Lines for Told<'_> {
    ghost use Rattle.calculus.specs.Normal.{normal_nodes};
    ghost use Rattle.why.specs.Story.{text_at};

    ghost count = { λ told. told.story.count };

    ghost line = { λ told. let s = told.story in text_at s.system.now.system (normal_nodes s.normal.now) told.long.now s.visits.now s.heads.now };

    fn count(&self) -> usize {
        self.story.count
    }

    fn put_line<W: Sink>(&self, number: usize, writer: &mut W) -> Result<(), WriteFault> {
        let visit = self.story.visits[number];
        let head = is_head(self.story.heads, number);
        let blanks = visit.way.blanks;
        put_way(self, number, visit.way, writer)?;
        put_head(head, blanks, writer)?;
        put_end(&self.story, visit.way.vertex, blanks, visit.kind, writer)
    }
}

/// The lines of the long modalities.
#[derive(Clone, Copy)]
struct LongLines<'a> {
    told: Told<'a>,
}

impl Lines for LongLines<'_> {
    ghost use Rattle.std.specs.Prelude.{length};
    ghost use Rattle.calculus.specs.Normal.{normal_nodes};
    ghost use Rattle.why.specs.Story.{long_line_at};

    ghost count = { λ lines. length lines.told.long.now };

    ghost line = { λ lines. long_line_at (normal_nodes lines.told.story.normal.now) lines.told.long.now };

    fn count(&self) -> usize {
        self.told.long.len()
    }

    fn put_line<W: Sink>(&self, number: usize, writer: &mut W) -> Result<(), WriteFault> {
        let vertex = self.told.long.get(number).copied().unwrap_or(0);
        put_long(&self.told.story, number as u64 + 1, vertex, writer)
    }
}

/// Writes what is told.
///
/// # Errors
/// After a fault the writer holds a beginning of the text.
pub fn write_story<W: Sink>(story: &Story<'_>, out: &mut W) -> Result<(), WriteFault>
    ensures { let s = story.now in Wrote (W.taken out.old) (W.taken out.new) result
        (story_text s.system.now.system (normal_nodes s.normal.now) s.most s.visits.now s.heads.now s.count) }
{
    let long = long_ones(story);
    let told = Told {
        story: *story,
        long: long.as_slice(),
    };
    put_told(&told, out)
}

/// Writes the lines of the long modalities and those of the visits.
fn put_told<W: Sink>(told: &Told<'_>, out: &mut W) -> Result<(), WriteFault>
    ensures { let s = told.now.story in Wrote (W.taken out.old) (W.taken out.new) result
        (told_text s.system.now.system (normal_nodes s.normal.now) told.now.long.now s.most s.visits.now s.heads.now s.count) }
{
    put_lines(&LongLines { told: *told }, out)?;
    put_lines(told, out)?;
    let story = told.story;
    put_rest(story.most, story.count, story.visits.len(), out)
}

/// The vertices from which steps that are told are taken by long modalities, the first of each.
fn long_ones(story: &Story<'_>) -> ArrayVec<u32, MOST_NODES>
    ensures { let s = story.now in result.items ≡ long_before (normal_nodes s.normal.now) s.visits.now s.count }
{
    let mut long = ArrayVec::new();
    for i in 0..story.count {
        note(story, story.visits.get(i).copied(), &mut long);
    }
    long
}

/// Notes the vertex from which the step to a visit is taken, where its modality is another long one.
fn note(story: &Story<'_>, visit: Option<Visit>, long: &mut ArrayVec<u32, MOST_NODES>)
    ensures { long.new.items ≡ long_with (normal_nodes story.now.normal.now) long.old.items (from_of visit) }
{
    let Some(visit) = visit else {
        return;
    };
    let Some(from) = visit.way.from else {
        return;
    };
    let modality = modality_at(story, from);
    if modality.len() > MOST_COLUMNS
        && number_of(story, long.as_slice(), modality).is_none()
        && !long.is_full()
    {
        long.push(from);
    }
}

/// The number of a modality, where it is that of one of these vertices.
fn number_of(story: &Story<'_>, long: &[u32], modality: &[u8]) -> Option<u64>
    ensures { result ≡ number_from (normal_nodes story.now.normal.now) 1 long.now modality.now }
{
    let mut number = 1;
    for v in long {
        if modality_at(story, *v) == modality {
            return Some(number);
        }
        number += 1;
    }
    None
}

/// Writes a long modality behind its number.
fn put_long<W: Sink>(
    story: &Story<'_>,
    number: u64,
    vertex: u32,
    out: &mut W,
) -> Result<(), WriteFault>
    ensures { Wrote (W.taken out.old) (W.taken out.new) result (long_line (normal_nodes story.now.normal.now) number vertex) }
{
    let modality = modality_at(story, vertex);
    put_pieces(
        out,
        &[
            Piece::Bytes(b"["),
            Piece::Number(number),
            Piece::Bytes(b"] = "),
            Piece::Bytes(begin_of(modality)),
            Piece::Bytes(b".."),
            Piece::Bytes(end_of(modality)),
            Piece::Bytes(b"\n"),
        ],
    )
}

/// Writes that there is more, or may be.
fn put_rest<W: Sink>(
    most: usize,
    count: usize,
    visits: usize,
    out: &mut W,
) -> Result<(), WriteFault>
    ensures { Wrote (W.taken out.old) (W.taken out.new) result (rest_text most count visits) }
{
    if count < visits || most <= visits {
        put(out, b".. (--limit 0 tells all)\n")
    } else {
        Ok(())
    }
}

/// What is told of a long modality before its last byte.
fn begin_of(modality: &[u8]) -> &[u8]
    ensures { result.now ≡ take MOST_SHOWN modality.now }
{
    &modality[..MOST_SHOWN.min(modality.len())]
}

/// The last byte of a modality.
fn end_of(modality: &[u8]) -> &[u8]
    ensures { result.now ≡ drop (length modality.now - 1) modality.now }
{
    &modality[modality.len().saturating_sub(1)..]
}

/// Writes the step that leads to the visit of this number.
fn put_way<W: Sink>(told: &Told<'_>, number: usize, way: Way, out: &mut W) -> Result<(), WriteFault>
    requires { number < length told.now.story.visits.now }
    ensures { let s = told.now.story in let nodes = normal_nodes s.normal.now in Wrote (W.taken out.old) (W.taken out.new) result
        (way_text s.system.now.system nodes told.now.long.now (step_before_of nodes s.visits.now number) way.from way.vertex way.blanks) }
{
    let Some(from) = way.from else {
        return Ok(());
    };
    match action_at(told.story.normal, from) {
        Some(action) => put_step(told, number, way, from, action, out),
        None => Ok(()),
    }
}

/// Writes a step from a vertex with a modality of this action.
fn put_step<W: Sink>(
    told: &Told<'_>,
    number: usize,
    way: Way,
    from: u32,
    action: &Act,
    out: &mut W,
) -> Result<(), WriteFault>
    requires { number < length told.now.story.visits.now }
    ensures { let s = told.now.story in let nodes = normal_nodes s.normal.now in Wrote (W.taken out.old) (W.taken out.new) result
        (step_text s.system.now.system nodes told.now.long.now (step_before_of nodes s.visits.now number) from way.vertex way.blanks (Some (action_of action.now))) }
{
    put_arrow(&told.story, way, from, action, out)?;
    put_by(told, modality_told(&told.story, number, from), out)
}

/// Writes from where to where a step leads, and a label by which it does.
fn put_arrow<W: Sink>(
    story: &Story<'_>,
    way: Way,
    from: u32,
    action: &Act,
    out: &mut W,
) -> Result<(), WriteFault>
    ensures { let s = story.now in Wrote (W.taken out.old) (W.taken out.new) result
        (arrow_text s.system.now.system (normal_nodes s.normal.now) from way.vertex way.blanks (action_of action.now)) }
{
    let source = state_of(story.normal, from);
    let target = state_of(story.normal, way.vertex);
    let steps = steps_from(story.system, source);
    put_pieces(
        out,
        &[
            Piece::Bytes(blanks_of(way.blanks)),
            Piece::Number(u64::from(source)),
            Piece::Bytes(b" -"),
            Piece::Bytes(first_label(story.system, steps, action, target)),
            Piece::Bytes(b"-> "),
            Piece::Number(u64::from(target)),
        ],
    )
}

/// Writes by which modality a step is taken, where it has to be told, and the line's end.
fn put_by<W: Sink>(told: &Told<'_>, modality: &[u8], out: &mut W) -> Result<(), WriteFault>
    ensures { let nodes = normal_nodes told.now.story.normal.now in Wrote (W.taken out.old) (W.taken out.new) result
        (by_text (number_from nodes 1 told.now.long.now modality.now) modality.now) }
{
    if modality.is_empty() {
        return put(out, b"\n");
    }
    match number_of(&told.story, told.long, modality) {
        Some(number) => put_pieces(
            out,
            &[
                Piece::Bytes(b" by ["),
                Piece::Number(number),
                Piece::Bytes(b"]"),
                Piece::Bytes(b"\n"),
            ],
        ),
        None => put_pieces(
            out,
            &[
                Piece::Bytes(b" by "),
                Piece::Bytes(modality),
                Piece::Bytes(b"\n"),
            ],
        ),
    }
}

/// The modality by which the step to the visit of this number is taken, and nothing where the line before is a step by the same one.
fn modality_told<'a>(story: &Story<'a>, number: usize, from: u32) -> &'a [u8]
    requires { number < length story.now.visits.now }
    ensures { let s = story.now in let nodes = normal_nodes s.normal.now in
        result.now ≡ modality_told_of nodes (step_before_of nodes s.visits.now number) from }
{
    let modality = modality_at(story, from);
    match step_before(story.normal, story.visits, number) {
        Some(before) if modality_at(story, before) == modality => b"",
        _ => modality,
    }
}

/// The text of a vertex's modality.
fn modality_at<'a>(story: &Story<'a>, v: u32) -> &'a [u8]
    ensures { result.now ≡ modality_at_of (normal_nodes story.now.normal.now) v }
{
    story.modalities[node_of(story.normal, v) as usize].as_slice()
}

/// The vertex from which the last step was taken before the visit of this number, where a line of the same run tells it.
fn step_before(normal: &Normal, visits: &[Visit], number: usize) -> Option<u32>
    requires { number ≤ length visits.now }
    ensures { result ≡ step_before_of (normal_nodes normal.now) visits.now number }
{
    if number == 0 {
        return None;
    }
    let visit = visits[number - 1];
    match (visit.kind, visit.way.from) {
        (Continuation::On, Some(from)) if action_at(normal, from).is_some() => Some(from),
        (Continuation::On, _) => step_before(normal, visits, number - 1),
        _ => None,
    }
}

/// The action formula of a vertex's modality.
pub(crate) fn action_at(normal: &Normal, v: u32) -> Option<&Act>
    ensures { option_map (λ a. action_of a.now) result ≡ action_at_of (normal_nodes normal.now) v }
{
    action_in(kind_at(normal, v))
}

fn action_in(kind: &node::Kind) -> Option<&Act>
    ensures { option_map (λ a. action_of a.now) result ≡ action_in_of (shape_of kind.now) }
{
    match kind {
        node::Kind::Dia(action, _) | node::Kind::Box(action, _) => Some(action),
        _ => None,
    }
}

/// The number of a vertex's node.
pub(crate) fn node_of(normal: &Normal, v: u32) -> u32
    ensures number { result ≡ node_in (length (normal_nodes normal.now)) v }
    ensures within { result < length (normal_nodes normal.now) }
{
    normal.known();
    v.saturating_sub(2) % normal.count()
}

/// What a vertex's node is.
fn kind_at(normal: &Normal, v: u32) -> &node::Kind
    ensures { shape_of result.now ≡ shape_at (normal_nodes normal.now) v }
{
    &normal.node(node_of(normal, v)).kind
}

/// The state of a vertex.
pub(crate) fn state_of(normal: &Normal, v: u32) -> u32
    ensures { result ≡ state_in (length (normal_nodes normal.now)) v }
{
    normal.known();
    v.saturating_sub(2) / normal.count()
}

/// The transitions from a state, and none from a number that is no state.
fn steps_from(system: &Lts, state: u32) -> &[Transition]
    ensures arrows { map (arrow_of system.now.labels) result.now ≡ arrows_from system.now.system state }
    ensures inside { IsInside system.now result.now }
{
    if state < system.states() {
        system.from(state)
    } else {
        &[]
    }
}

/// The label of the first of these transitions that leads to a state and has a label of which the action formula holds.
fn first_label<'a>(system: &'a Lts, steps: &[Transition], action: &Act, target: u32) -> &'a [u8]
    requires { IsInside system.now steps.now }
    ensures { result.now ≡ first_label_of (action_of action.now) target (map (arrow_of system.now.labels) steps.now) }
{
    for step in steps {
        if step.target == target && holds(action, &system.label(step.label)) {
            return system.label(step.label).bytes;
        }
    }
    b""
}

/// So many blanks, or as many as a line begins with at most.
fn blanks_of(count: usize) -> &'static [u8]
    ensures { result.now ≡ blanks_before count }
{
    &BLANKS[..count.min(MOST_BLANKS)]
}

/// Writes that a loop begins.
fn put_head<W: Sink>(head: bool, blanks: usize, out: &mut W) -> Result<(), WriteFault>
    ensures { Wrote (W.taken out.old) (W.taken out.new) result (head_text head blanks) }
{
    if head {
        put_pieces(
            out,
            &[Piece::Bytes(blanks_of(blanks)), Piece::Bytes(b"loop:\n")],
        )
    } else {
        Ok(())
    }
}

/// Writes how a run ends.
fn put_end<W: Sink>(
    story: &Story<'_>,
    v: u32,
    blanks: usize,
    kind: Continuation,
    out: &mut W,
) -> Result<(), WriteFault>
    ensures { let s = story.now in Wrote (W.taken out.old) (W.taken out.new) result
        (end_text s.system.now.system (normal_nodes s.normal.now) v blanks kind) }
{
    match kind {
        Continuation::On | Continuation::Branch => Ok(()),
        Continuation::Back(_) => put_pieces(
            out,
            &[
                Piece::Bytes(blanks_of(blanks)),
                Piece::Bytes(b"back to "),
                Piece::Number(u64::from(state_of(story.normal, v))),
                Piece::Bytes(b"\n"),
            ],
        ),
        _ => put_stop(story, v, blanks, kind, out),
    }
}

/// Writes that a run ends at a state, and why.
fn put_stop<W: Sink>(
    story: &Story<'_>,
    v: u32,
    blanks: usize,
    kind: Continuation,
    out: &mut W,
) -> Result<(), WriteFault>
    ensures { let s = story.now in Wrote (W.taken out.old) (W.taken out.new) result
        (stop_text s.system.now.system (normal_nodes s.normal.now) v blanks kind) }
{
    let state = state_of(story.normal, v);
    put_pieces(
        out,
        &[
            Piece::Bytes(blanks_of(blanks)),
            Piece::Number(u64::from(state)),
            Piece::Bytes(b": "),
        ],
    )?;
    put_reason(story, v, kind, out)?;
    put(out, b"\n")
}

/// Writes why a run ends.
fn put_reason<W: Sink>(
    story: &Story<'_>,
    v: u32,
    kind: Continuation,
    out: &mut W,
) -> Result<(), WriteFault>
    ensures { let s = story.now in Wrote (W.taken out.old) (W.taken out.new) result
        (reason_text s.system.now.system (normal_nodes s.normal.now) v kind) }
{
    let Story { system, normal, .. } = *story;
    match kind {
        Continuation::Sink => put_sink(system, state_of(normal, v), kind_at(normal, v), out),
        Continuation::Everywhere(count) => put_everywhere(normal, v, count, out),
        Continuation::Told => put(out, b"as above"),
        _ => Ok(()),
    }
}

/// Writes what is so of all states that are reachable from that of a vertex, of which there are so many.
fn put_everywhere<W: Sink>(
    form: &Normal,
    v: u32,
    count: usize,
    out: &mut W,
) -> Result<(), WriteFault>
    ensures { let nodes = normal_nodes form.now in Wrote (W.taken out.old) (W.taken out.new) result
        (everywhere_text count (asked_test_of nodes (node_in (length nodes) v))) }
{
    match asked_test(form, node_of(form, v)) {
        Some(test) => put_test(test, count, out),
        None => Ok(()),
    }
}

/// Writes that each of so many states has a step by an action, or that none has.
fn put_test<W: Sink>(test: StepTest<'_>, count: usize, out: &mut W) -> Result<(), WriteFault>
    ensures { Wrote (W.taken out.old) (W.taken out.new) result (everywhere_text count (Some (test_of test.entry))) }
{
    put_pieces(
        out,
        &[
            Piece::Bytes(which_states(test.possible)),
            Piece::Number(count as u64),
            Piece::Bytes(b" states has a step by "),
        ],
    )?;
    put_action(test.action, out)
}

fn which_states(possible: bool) -> &'static [u8]
    ensures { result.now ≡ which_text possible }
{
    if possible {
        b"from here each of "
    } else {
        b"from here none of "
    }
}

/// Writes why only a sink follows.
fn put_sink<W: Sink>(
    system: &Lts,
    state: u32,
    kind: &node::Kind,
    out: &mut W,
) -> Result<(), WriteFault>
    ensures { Wrote (W.taken out.old) (W.taken out.new) result (sink_text system.now.system state (shape_of kind.now)) }
{
    match kind {
        node::Kind::True => put(out, b"true here"),
        node::Kind::False => put(out, b"false here"),
        node::Kind::Dia(action, _) | node::Kind::Box(action, _) => {
            put_lack(system, state, action, out)
        }
        _ => Ok(()),
    }
}

/// Writes that no step by an action is possible at a state, or none at all.
fn put_lack<W: Sink>(system: &Lts, state: u32, action: &Act, out: &mut W) -> Result<(), WriteFault>
    ensures { Wrote (W.taken out.old) (W.taken out.new) result (lack_text system.now.system state (action_of action.now)) }
{
    if steps_from(system, state).is_empty() {
        put(out, b"deadlock")
    } else {
        put_between(b"no ", action, b" here", out)
    }
}
