// The measures of many vertices, in one list of counts.

ghost use Rattle.std.specs.Prelude.{◌≡◌, ◌<◌, ◌≤◌, ◌↔◌, ◌+◌, ◌-◌, ◌*◌, ◌++◌, drop, length, map, replicate, slice_set, take, IfOk, IsTrue};
ghost use Rattle.measures.specs.Measure.{Counts, Top, components, measure_cmp};
ghost use Rattle.measures.specs.Progress.{IsBestFor, IsTable, value_at};
ghost use Rattle.measures.specs.Settling.{IsStill};
ghost use Rattle.std.specs.List.{AllByRecursion};
ghost use Rattle.measures.specs.View.{HasWidth, ReachesAt, Rows, is_top_of, measure_of};

use crate::measure::{COMPONENTS, Measure, compare, counts_reach};
use crate::progs::is_better;
use game::graph::Game;
use game::limits::MOST_VERTICES;
use game::player::Player;
use std::alloc::{AllocError, Global};
use std::cmp::Ordering;
use std::marker::Model;

/// A measure for each vertex. All have as many counts, those of top say nothing.
#[derive(Drop)]
pub struct MeasureRows {
    width: usize,
    tops: Vec<bool>,
    counts: Vec<u32>,
}

impl Model for MeasureRows {
    ghost use Rattle.std.specs.Prelude.{◌≡◌, ◌*◌, length};
    ghost use Rattle.measures.specs.View.{Rows, rows_of};

    ghost Value = { Rows };

    ghost view = { λ r. record { width = r.width; values = rows_of r.width r.tops.items r.counts.items } };

    ghost invariant = { λ r. length r.counts.items ≡ length r.tops.items * r.width };
}

impl MeasureRows {
    /// So many measures whose counts are zero.
    ///
    /// # Errors
    /// Out of memory, and nothing else.
    #[tactic(auto, using(crate::proofs::Stored::rows_zeros))]
    pub fn zeros(alloc: Global, length: usize, width: usize) -> Result<Self, AllocError>
        requires vertices { length ≤ MOST_VERTICES }
        requires width { width ≤ COMPONENTS }
        ensures width { IfOk result (λ r. r.width ≡ width) }
        ensures zeros { IfOk result (λ r. r.values ≡ replicate length (Counts (replicate width 0))) }
    {
        Ok(MeasureRows {
            width,
            tops: vec![in alloc; false; length]?,
            counts: vec![in alloc; 0; length * width]?,
        })
    }

    #[tactic(auto, using(crate::proofs::Stored::top_is, crate::proofs::Stored::long_is))]
    pub(crate) fn is_top(&self, v: usize) -> bool
        requires { v < length self.now.values }
        ensures { result ≡ is_top_of (value_at self.now.values v) }
    {
        self.tops[v]
    }

    /// The counts of a measure. Those of top are any.
    #[tactic(auto, using(crate::proofs::Stored::row_value, crate::proofs::Stored::row_long, crate::proofs::Stored::row_inside))]
    pub(crate) fn counts(&self, v: usize) -> &[u32]
        requires { v < length self.now.values }
        ensures value { measure_of (is_top_of (value_at self.now.values v)) result.now ≡ value_at self.now.values v }
        ensures width { length result.now ≡ self.now.width }
    {
        row(self.counts.as_slice(), self.width, v)
    }

    /// A copy of a measure.
    pub fn value(&self, v: usize) -> Measure
        requires vertex { v < length self.now.values }
        requires few { self.now.width ≤ COMPONENTS }
        ensures { result ≡ value_at self.now.values v }
    {
        if self.is_top(v) {
            Measure::top()
        } else {
            Measure::of_counts(self.counts(v))
        }
    }

    /// Compares the measures of two places.
    pub(crate) fn compare(&self, v: usize, u: usize) -> Ordering
        requires first { v < length self.now.values }
        requires second { u < length self.now.values }
        ensures { result ≡ measure_cmp (value_at self.now.values v) (value_at self.now.values u) }
    {
        compare(
            self.is_top(v),
            self.counts(v),
            self.is_top(u),
            self.counts(u),
        )
    }

    /// Compares the measure of a place with another.
    pub fn compare_with(&self, v: usize, m: &Measure) -> Ordering
        requires { v < length self.now.values }
        ensures { result ≡ measure_cmp (value_at self.now.values v) m.now }
    {
        compare(self.is_top(v), self.counts(v), m.is_top(), m.counts())
    }

    /// Whether the measure of a place is enough where its play goes on at the other, at a vertex of this priority.
    pub(crate) fn reaches(&self, v: usize, next: usize, priority: u8) -> bool
        requires place { v < length self.now.values }
        requires next { next < length self.now.values }
        ensures { ReachesAt self.now priority next v result }
    {
        if self.is_top(v) {
            return true;
        }
        if self.is_top(next) {
            return false;
        }
        let kept = self.width.saturating_sub(priority as usize / 2);
        counts_reach(
            &self.counts(next)[..kept],
            &self.counts(v)[..kept],
            priority,
        )
    }

    /// Whether no lift raises a vertex of a game whose vertices have these measures.
    pub(crate) fn is_still(&self, game: &Game, v: u32) -> bool
        requires table { IsTable game.now self.now.values }
        requires width { length (components game.now) ≡ self.now.width }
        requires vertex { v < length game.now.vertices }
        ensures { IsTrue result ↔ IsStill game.now self.now.values v }
    {
        game.known();
        let best = self.best(game.owner(v), game.successors(v));
        self.reaches(v as usize, best as usize, game.priority(v))
    }

    /// The place with whose measure a player goes on, of some.
    pub(crate) fn best(&self, player: Player, places: &[u32]) -> u32
        requires some { 0 < length places.now }
        requires inside { AllByRecursion (λ t. t < length self.now.values) places.now }
        ensures inside { result < length self.now.values }
        ensures best { IsBestFor player (map (value_at self.now.values) places.now) (value_at self.now.values result) }
    {
        let mut best = places[0];
        for k in 1..places.len() {
            if is_better(player, self.compare(places[k] as usize, best as usize)) {
                best = places[k];
            }
        }
        best
    }

    /// Puts a measure in the place of another.
    pub fn set(&mut self, v: usize, m: &Measure)
        requires vertex { v < length self.old.values }
        requires width { HasWidth self.old.width m.now }
        ensures { self.new ≡ record self.old { values = slice_set self.old.values v m.now } }
    {
        if m.is_top() {
            self.tops[v] = true;
        } else {
            self.set_counts(v, m.counts());
        }
    }

    /// Puts these counts in the place of a measure.
    pub(crate) fn set_counts(&mut self, v: usize, counts: &[u32])
        requires vertex { v < length self.old.values }
        requires width { length counts.now ≡ self.old.width }
        ensures { self.new ≡ record self.old { values = slice_set self.old.values v (Counts counts.now) } }
    {
        self.tops[v] = false;
        write_row(self.counts.as_mut_slice(), self.width, v, counts);
    }
}

/// So many of the numbers, after as many for each place before.
pub fn row(numbers: &[u32], width: usize, place: usize) -> &[u32]
    requires { place * width + width ≤ length numbers.now }
    ensures { result.now ≡ take width (drop (place * width) numbers.now) }
{
    &numbers[place * width..place * width + width]
}

/// Puts these numbers in the place of as many, after as many for each place before.
pub fn write_row(numbers: &mut [u32], width: usize, place: usize, row: &[u32])
    requires inside { place * width + width ≤ length numbers.old }
    requires whole { length row.now ≡ width }
    ensures { numbers.new ≡ take (place * width) numbers.old ++ (row.now ++ drop (place * width + width) numbers.old) }
{
    numbers[place * width..place * width + width].copy_from_slice(row);
}
