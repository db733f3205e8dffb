// Measures.

ghost use Rattle.std.specs.Prelude.{◌≡◌, ◌≤◌, ◌↔◌, ◌++◌, ◌+◌, ◌-◌, IsTrue, MatchBool, length, replicate, take};
ghost use Rattle.std.specs.Cmp.Lexicographic.{slice_cmp};
ghost use Rattle.std.specs.Ordering.{is_le, is_lt, nat_cmp};
ghost use Rattle.game.specs.Game.{Game};
ghost use Rattle.measures.specs.Measure.{Counts, IsAtMost, IsBelow, Measure, Reaches, Top, components, is_odd, measure_cmp};
ghost use Rattle.measures.specs.View.{counts_of, measure_of};

use arrayvec::ArrayVec;
use std::cmp::Ordering;
use std::marker::Model;

/// How many components a game has at most.
pub const COMPONENTS: usize = 16;

/// Top, or a count for each component of a game, that of the greatest first.
// The mark stands last, so that a measure is copied in whole words.
#[derive(Debug, Drop)]
pub struct Measure {
    counts: ArrayVec<u32, 16>,
    top: bool,
}

impl Model for Measure {
    ghost use Rattle.std.specs.Prelude.{◌≡◌, true, []};
    ghost use Rattle.measures.specs.Measure.{Measure};
    ghost use Rattle.measures.specs.View.{measure_of};

    ghost Value = { Measure };

    ghost view = { λ m. measure_of m.top m.counts.items };

    ghost invariant = { λ m. m.top ≡ true → m.counts.items ≡ [] };
}

impl Measure {
    /// Top, which is above all counts.
    pub fn top() -> Self
        ensures { result ≡ Top }
    {
        Measure {
            counts: ArrayVec::new(),
            top: true,
        }
    }

    /// These counts.
    pub fn of_counts(counts: &[u32]) -> Self
        requires { length counts.now ≤ COMPONENTS }
        ensures { result ≡ Counts counts.now }
    {
        Measure {
            counts: copy_of(counts),
            top: false,
        }
    }

    pub fn is_top(&self) -> bool
        ensures { IsTrue result ↔ (self.now ≡ Top) }
    {
        self.top
    }

    /// The counts, of which top has none.
    pub fn counts(&self) -> &[u32]
        ensures value { result.now ≡ counts_of self.now }
        ensures few { length result.now ≤ COMPONENTS }
    {
        self.counts.as_slice()
    }

    /// These counts, and zeros for the components that are left.
    pub(crate) fn padded(mut counts: ArrayVec<u32, 16>, width: usize) -> Self
        requires some { length counts.items ≤ width }
        requires few { width ≤ COMPONENTS }
        ensures { result ≡ Counts (counts.items ++ replicate (width - length counts.items) 0) }
    {
        for _ in counts.len()..width {
            counts.push(0);
        }
        Measure { counts, top: false }
    }

    /// These counts.
    pub(crate) fn of_array(counts: ArrayVec<u32, 16>) -> Self
        ensures { result ≡ Counts counts.items }
    {
        Measure { counts, top: false }
    }

    /// Whether the measure is enough where the play goes on at the next one, at a vertex of this priority, in a game of so many components.
    pub fn reaches(&self, next: &Measure, priority: u8, width: usize) -> bool
        ensures { (g : Game) → length (components g) ≡ width → (IsTrue result ↔ Reaches g priority next.now self.now) }
    {
        if self.is_top() {
            return true;
        }
        let kept = width.saturating_sub(priority as usize / 2);
        !next.is_top()
            && counts_reach(
                first(next.counts(), kept),
                first(self.counts(), kept),
                priority,
            )
    }

    /// A copy. It takes no memory.
    pub fn copied(&self) -> Self
        ensures { result ≡ self.now }
    {
        Measure {
            counts: copy_of(self.counts()),
            top: self.is_top(),
        }
    }

    /// The order of measures: by the first counts that differ, and top last.
    pub fn compare(&self, other: &Measure) -> Ordering
        ensures { result ≡ measure_cmp self.now other.now }
    {
        compare(self.is_top(), self.counts(), other.is_top(), other.counts())
    }

    pub fn is_below(&self, other: &Measure) -> bool
        ensures { IsTrue result ↔ IsBelow self.now other.now }
    {
        self.compare(other).is_lt()
    }
}

/// Compares two measures, each given by whether it is top and by its counts, which say nothing of top.
pub(crate) fn compare(top: bool, counts: &[u32], other_top: bool, other_counts: &[u32]) -> Ordering
    ensures { result ≡ measure_cmp (measure_of top counts.now) (measure_of other_top other_counts.now) }
{
    match (top, other_top) {
        (true, true) => Ordering::Equal,
        (true, false) => Ordering::Greater,
        (false, true) => Ordering::Less,
        (false, false) => compare_counts(counts, other_counts),
    }
}

/// Compares lists of counts. Mostly the first counts differ, or there are no others: then nothing else is called.
pub(crate) fn compare_counts(counts: &[u32], others: &[u32]) -> Ordering
    ensures { result ≡ slice_cmp nat_cmp counts.now others.now }
{
    match (counts.split_first(), others.split_first()) {
        (None, None) => Ordering::Equal,
        (None, Some(_)) => Ordering::Less,
        (Some(_), None) => Ordering::Greater,
        (Some((first, rest)), Some((other, more))) => match first.cmp(other) {
            Ordering::Equal if rest.is_empty() && more.is_empty() => Ordering::Equal,
            Ordering::Equal => rest.cmp(more),
            order => order,
        },
    }
}

/// The first so many counts, or all.
#[inline(always)]
pub(crate) fn first(counts: &[u32], kept: usize) -> &[u32]
    ensures { result.now ≡ take kept counts.now }
{
    &counts[..kept.min(counts.len())]
}

/// Whether what a vertex of this priority has is enough, where the next vertex's is in this order to it: no greater, and less where the priority is odd.
#[inline(always)]
pub(crate) fn is_reach(order: Ordering, priority: u8) -> bool
    ensures { IsTrue result ↔ MatchBool (is_odd priority) (IsTrue (is_lt order)) (IsTrue (is_le order)) }
{
    if priority % 2 == 0 {
        order.is_le()
    } else {
        order.is_lt()
    }
}

/// Whether the counts at or above a vertex's priority are enough where the play goes on at a vertex with the next ones.
#[inline(always)]
pub(crate) fn counts_reach(next: &[u32], own: &[u32], priority: u8) -> bool
    ensures { IsTrue result ↔ MatchBool (is_odd priority) (IsBelow (Counts next.now) (Counts own.now)) (IsAtMost (Counts next.now) (Counts own.now)) }
{
    is_reach(compare_counts(next, own), priority)
}

pub(crate) fn copy_of(counts: &[u32]) -> ArrayVec<u32, 16>
    requires { length counts.now ≤ COMPONENTS }
    ensures { result.items ≡ counts.now }
{
    let mut copy = ArrayVec::new();
    for count in counts {
        copy.push(*count);
    }
    copy
}
