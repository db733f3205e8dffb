// Values that are proposed, as numbers have them.

ghost use Rattle.std.specs.Prelude.{◌≡◌, ◌≢◌, ◌≤◌, ◌↔◌, ◌+◌, ◌-◌, IsTrue, length};
ghost use Rattle.std.specs.List.{AllZip};
ghost use Rattle.std.specs.Cmp.Lexicographic.{slice_cmp};
ghost use Rattle.std.specs.Ordering.{nat_cmp};
ghost use Rattle.game.specs.Game.{Game};
ghost use Rattle.measures.specs.Measure.{Counts, Reaches, Top, components, cut, digit_of, measure_cmp};
ghost use Rattle.measures.specs.Proposal.{MatchUpTo};
ghost use Rattle.measures.specs.StoredProposal.{counts_in, value_said};
ghost use Rattle.measures.specs.View.{counts_of};

use crate::field::CountField;
use crate::measure::{COMPONENTS, Measure, is_reach};
use crate::proposal::PlayerLayout;
use arrayvec::ArrayVec;
use std::cmp::Ordering;

/// A value that is proposed for a player: top, or what the player's fields have of a number. No count is read before it is asked for.
#[derive(Clone, Copy)]
pub(crate) struct ProposedValue<'a> {
    pub layout: &'a PlayerLayout,
    pub number: u64,
    pub is_top: bool,
}

// Compares what fields have of two numbers, one field after the other.
fn compare_counts(fields: &[CountField], number: u64, other: u64) -> Ordering
    ensures { result ≡ slice_cmp nat_cmp (counts_in fields.now number) (counts_in fields.now other) }
{
    for field in fields {
        let order = field.count(number).cmp(&field.count(other));
        if order.is_ne() {
            return order;
        }
    }
    Ordering::Equal
}

// What fields have of a number.
fn counts_of(fields: &[CountField], number: u64) -> ArrayVec<u32, 16>
    requires { length fields.now ≤ COMPONENTS }
    ensures { result.items ≡ counts_in fields.now number }
{
    let mut counts = ArrayVec::new();
    for field in fields {
        counts.push(field.count(number));
    }
    counts
}

// Whether no count that a number has in fields is above its bound.
fn are_within(fields: &[CountField], number: u64, bounds: &[u32]) -> bool
    ensures { IsTrue result → AllZip (λ count bound. count ≤ bound) (counts_in fields.now number) bounds.now }
{
    if fields.len() != bounds.len() {
        return false;
    }
    for place in 0..fields.len() {
        if fields[place].count(number) > bounds[place] {
            return false;
        }
    }
    true
}

impl ProposedValue<'_> {
    /// The value as a measure.
    #[inline(always)]
    pub(crate) fn measure(self) -> Measure
        ensures { result ≡ value_said self.entry }
    {
        if self.is_top {
            Measure::top()
        } else {
            Measure::of_array(counts_of(self.layout.fields.as_slice(), self.number))
        }
    }

    /// Whether the value is top, or has as many counts as there are bounds and none above its bound.
    #[inline(always)]
    pub(crate) fn is_within(self, bounds: &[u32]) -> bool
        ensures { IsTrue result → value_said self.entry ≢ Top → AllZip (λ count bound. count ≤ bound) (counts_of (value_said self.entry)) bounds.now }
    {
        self.is_top || are_within(self.layout.fields.as_slice(), self.number, bounds)
    }

    /// A digit of the value.
    pub(crate) fn digit(self, digit: usize) -> u32
        ensures { result ≡ digit_of (value_said self.entry) digit }
    {
        if digit == 0 {
            return u32::from(self.is_top);
        }
        match self.layout.fields.get(digit - 1) {
            Some(field) if !self.is_top => field.count(self.number),
            _ => 0,
        }
    }

    /// Compares two values as far as their first counts.
    pub(crate) fn compare_first(self, other: ProposedValue<'_>, kept: usize) -> Ordering
        requires { self.layout.now ≡ other.layout.now }
        ensures { result ≡ measure_cmp (cut kept (value_said self.entry)) (cut kept (value_said other.entry)) }
    {
        match (self.is_top, other.is_top) {
            (true, true) => Ordering::Equal,
            (true, false) => Ordering::Greater,
            (false, true) => Ordering::Less,
            (false, false) => {
                let fields = self.layout.fields.as_slice();
                let first = &fields[..kept.min(fields.len())];
                compare_counts(first, self.number, other.number)
            }
        }
    }

    /// Whether before a digit the next value has more, or as much and at it at most one less.
    pub(crate) fn has_all_but_one(self, next: ProposedValue<'_>, digit: usize) -> bool
        requires { self.layout.now ≡ next.layout.now }
        ensures { IsTrue result ↔ MatchUpTo (measure_cmp (cut (digit - 1) (value_said self.entry)) (cut (digit - 1) (value_said next.entry))) (Unit {0})
            (digit_of (value_said self.entry) digit ≤ digit_of (value_said next.entry) digit + 1) }
    {
        match self.compare_first(next, digit.saturating_sub(1)) {
            Ordering::Less => true,
            Ordering::Equal => self.digit(digit) <= next.digit(digit).saturating_add(1),
            Ordering::Greater => false,
        }
    }

    /// Whether the value is enough where the play goes on at the next one, at a vertex of this priority, in a game of so many components.
    pub(crate) fn reaches(self, next: ProposedValue<'_>, priority: u8, width: usize) -> bool
        requires { self.layout.now ≡ next.layout.now }
        ensures { (g : Game) → length (components g) ≡ width → (IsTrue result ↔ Reaches g priority (value_said next.entry) (value_said self.entry)) }
    {
        if self.is_top {
            return true;
        }
        let kept = width.saturating_sub(priority as usize / 2);
        is_reach(next.compare_first(self, kept), priority)
    }
}
