// Whether the vertices of a node are ranked, state by state.

ghost use Rattle.std.specs.Prelude.{◌≡◌, ◌<◌, ◌≤◌, ◌↔◌, ℕ, IsTrue, false, length, slice_index_or};
ghost use Rattle.std.specs.List.{AllByRecursion};
ghost use Rattle.calculus.specs.Form.{IsNode};
ghost use Rattle.calculus.specs.NodeView.{node_of, shape_of};
ghost use Rattle.game.specs.Arena.{vertex_of};
ghost use Rattle.calculus.specs.Taken.{IsSetFor};
ghost use Rattle.rankings.specs.Cells.{cell, ranking_of};
ghost use Rattle.rankings.specs.Columns.{number_at};
ghost use Rattle.rankings.specs.Ranking.{IsRanked, winner_of};
ghost use Rattle.rankings.specs.Slopes.{TwoFollow, StepsFollow, StepsFollowAt, CanFollow, sink_of};

use crate::column::Numbers;
use crate::sheet::Sheet;
use crate::slope::Slopes;
use crate::slopes::winner;
use calculus::node::{Kind, Node};
use game::player::Player;
use systems::system::{Lts, Transition};

/// States from the first one up to the end.
#[derive(Clone, Copy)]
pub(crate) struct Span {
    pub(crate) first: u32,
    pub(crate) end: u32,
    ghost ordered: { first ≤ end },
}

impl Span {
    /// The first of so many parts of the same size, and what comes after it.
    pub(crate) fn cut(self, parts: u32) -> (Span, Span)
        requires { 0 < parts }
        ensures first { result.0.first ≡ self.first }
        ensures middle { result.1.first ≡ result.0.end }
        ensures end { result.1.end ≡ self.end }
    {
        let middle = self.first + (self.end - self.first) / parts;
        let front = Span {
            first: self.first,
            end: middle,
        };
        let rest = Span {
            first: middle,
            end: self.end,
        };
        (front, rest)
    }
}

// The number of the true sink.
const TRUE_SINK: u64 = 0;

// The number of the false sink.
const FALSE_SINK: u64 = 1;

// Whether a number says that this player wins.
#[inline(always)]
pub(crate) fn is_winner(player: Player, number: u64) -> bool
    ensures { IsTrue result ↔ (player ≡ winner_of number) }
{
    player == winner(number)
}

// Whether the label of a transition is in the set.
#[inline(always)]
fn has(set: &[bool], label: u32) -> bool
    ensures { result ≡ slice_index_or set.now label false }
{
    set.get(label as usize).copied().unwrap_or(false)
}

// Whether a vertex is ranked whose successors have these two numbers.
#[inline(always)]
fn two_lead(owner: Player, slopes: Slopes, own: u64, first: u64, second: u64) -> bool
    ensures { IsTrue result → TwoFollow slopes owner own first second }
{
    if is_winner(owner, own) {
        slopes.let_follow(own, first) || slopes.let_follow(own, second)
    } else {
        slopes.let_follow(own, first) && slopes.let_follow(own, second)
    }
}

// Whether the vertex of a modality is ranked, from whose state these transitions go.
#[inline(always)]
fn steps_lead(
    owner: Player,
    slopes: Slopes,
    own: u64,
    set: &[bool],
    row: &[Transition],
    next: Numbers<'_>,
    sink: u64,
) -> bool
    ensures { IsTrue result → StepsFollow slopes owner own set.now row.now (number_at next.entry) sink }
{
    let is_own = is_winner(owner, own);
    let mut some = false;
    for step in row {
        if has(set, step.label) {
            some = true;
            if slopes.let_follow(own, next.number(step.target)) == is_own {
                return is_own;
            }
        }
    }
    if some {
        !is_own
    } else {
        slopes.let_follow(own, sink)
    }
}

// Whether both columns have one number at all states, and the play goes on well from the one to the other.
fn always_follows(slopes: Slopes, own: Numbers<'_>, next: Numbers<'_>) -> bool
    ensures { IsTrue result → (s t : ℕ) → CanFollow slopes (number_at own.entry s) (number_at next.entry t) }
{
    match own {
        Numbers::Same(number) => match next {
            Numbers::Same(other) => slopes.let_follow(number, other),
            _ => false,
        },
        _ => false,
    }
}

// Whether the vertices of a constant are ranked.
fn constants_lead(slopes: Slopes, own: Numbers<'_>, sink: u64, span: Span) -> bool
    ensures { IsTrue result → (s : ℕ) → span.first ≤ s → s < span.end → CanFollow slopes (number_at own.entry s) sink }
{
    if always_follows(slopes, own, Numbers::Same(sink)) {
        return true;
    }
    for s in span.first..span.end {
        if !slopes.let_follow(own.number(s), sink) {
            return false;
        }
    }
    true
}

// Whether the vertices of a node with one child, at the same state, are ranked.
fn singles_lead(slopes: Slopes, own: Numbers<'_>, next: Numbers<'_>, span: Span) -> bool
    ensures { IsTrue result → (s : ℕ) → span.first ≤ s → s < span.end → CanFollow slopes (number_at own.entry s) (number_at next.entry s) }
{
    if always_follows(slopes, own, next) {
        return true;
    }
    for s in span.first..span.end {
        if !slopes.let_follow(own.number(s), next.number(s)) {
            return false;
        }
    }
    true
}

// Whether the vertices of a junction are ranked.
fn junctions_lead(
    owner: Player,
    slopes: Slopes,
    own: Numbers<'_>,
    left: Numbers<'_>,
    right: Numbers<'_>,
    span: Span,
) -> bool
    ensures { IsTrue result → (s : ℕ) → span.first ≤ s → s < span.end
        → TwoFollow slopes owner (number_at own.entry s) (number_at left.entry s) (number_at right.entry s) }
{
    if always_follows(slopes, own, left) && always_follows(slopes, own, right) {
        return true;
    }
    for s in span.first..span.end {
        if !two_lead(
            owner,
            slopes,
            own.number(s),
            left.number(s),
            right.number(s),
        ) {
            return false;
        }
    }
    true
}

// The number of the sink to which a modality of this owner leads where there is no step.
fn sink(owner: Player) -> u64
    ensures { result ≡ sink_of owner }
{
    match owner {
        Player::Even => FALSE_SINK,
        Player::Odd => TRUE_SINK,
    }
}

// Whether labels' numbers fit a word. They do; it is asked so that callers know it.
fn are_words(row: &[Transition]) -> bool
    ensures { IsTrue result → AllByRecursion (λ t. t.label < 4294967296) row.now }
{
    for step in row {
        if u64::from(step.label) > u64::from(u32::MAX) {
            return false;
        }
    }
    true
}

// Whether the vertices of a modality are ranked, whichever transitions there are.
fn steps_always_lead(slopes: Slopes, own: Numbers<'_>, next: Numbers<'_>, sink: u64) -> bool
    ensures { IsTrue result → (s t : ℕ) → CanFollow slopes (number_at own.entry s) (number_at next.entry t) × CanFollow slopes (number_at own.entry s) sink }
{
    always_follows(slopes, own, next) && always_follows(slopes, own, Numbers::Same(sink))
}

// Whether the vertices of a modality, which this player owns, are ranked.
fn modalities_lead(
    lts: &Lts,
    owner: Player,
    slopes: Slopes,
    own: Numbers<'_>,
    set: &[bool],
    next: Numbers<'_>,
    span: Span,
) -> bool
    requires { span.end ≤ lts.now.system.states }
    ensures { IsTrue result → (s : ℕ) → span.first ≤ s → s < span.end
        → StepsFollowAt lts.now slopes owner set.now (number_at own.entry) (number_at next.entry) (sink_of owner) s }
{
    let sink = sink(owner);
    let always = steps_always_lead(slopes, own, next, sink);
    for s in span.first..span.end {
        let row = lts.from(s);
        if !are_words(row) {
            return false;
        }
        if !always && !steps_lead(owner, slopes, own.number(s), set, row, next, sink) {
            return false;
        }
    }
    true
}

/// Whether the vertices of a node with the states of a span are ranked.
pub(crate) fn is_ranked(
    lts: &Lts,
    sheet: &Sheet,
    number: u32,
    node: &Node,
    set: &[bool],
    span: Span,
) -> bool
    requires states { span.end ≤ lts.now.system.states }
    requires node { IsNode (length sheet.now.nodes) (node_of node.now) }
    requires number { number < length sheet.now.nodes }
    requires set { IsSetFor lts.now.labels (shape_of node.now.kind) set.now }

    ensures { IsTrue result → (s : ℕ) → span.first ≤ s → s < span.end
        → IsRanked (ranking_of sheet.now) (cell sheet.now number s) (vertex_of lts.now.system (length sheet.now.nodes) s (node_of node.now)) }
{
    // For the proof: the clauses of this call say what the system has.
    let _states = lts.states();
    let slopes = sheet.slopes(node.priority);
    let own = sheet.column(number);
    match &node.kind {
        Kind::True => constants_lead(slopes, own, TRUE_SINK, span),
        Kind::False => constants_lead(slopes, own, FALSE_SINK, span),
        Kind::And(left, right) => {
            let left = sheet.column(*left);
            let right = sheet.column(*right);
            junctions_lead(Player::Odd, slopes, own, left, right, span)
        }
        Kind::Or(left, right) => {
            let left = sheet.column(*left);
            let right = sheet.column(*right);
            junctions_lead(Player::Even, slopes, own, left, right, span)
        }
        Kind::Dia(_, child) => {
            let next = sheet.column(*child);
            modalities_lead(lts, Player::Even, slopes, own, set, next, span)
        }
        Kind::Box(_, child) => {
            let next = sheet.column(*child);
            modalities_lead(lts, Player::Odd, slopes, own, set, next, span)
        }
        Kind::Mu(child) | Kind::Nu(child) | Kind::Var(child) => {
            singles_lead(slopes, own, sheet.column(*child), span)
        }
    }
}
