// What the vertices of a set have, in two lists.

ghost use Rattle.std.specs.Prelude.{◌≡◌, ◌<◌, ◌≤◌, ◌*◌, ℕ, List, None, Some, length, replicate, slice_index_or, slice_set, IfOk};
ghost use Rattle.std.specs.Prelude.{MatchOption};
ghost use Rattle.evidence.specs.View.{entry_of};

use game::limits::MOST_VERTICES;
use measures::rows::{row, write_row};
use std::alloc::{AllocError, Global};
use std::marker::Model;

/// How many counts a rank has at most.
pub(crate) const MOST_COUNTS: usize = 17;

// What a vertex has, its rank aside.
#[derive(Clone, Copy)]
enum EntryPlace {
    Outside,
    Stays,
    Goes(u32),
}

/// What a vertex of the set has: where its player goes on, if it is the player's, and a rank.
#[derive(Clone, Copy)]
pub struct EntryView<'a> {
    pub next: Option<u32>,
    pub rank: &'a [u32],
}

/// An entry or none for each vertex. All ranks have as many counts, those of vertices outside the set say nothing.
#[derive(Drop)]
pub(crate) struct Entries {
    width: usize,
    places: Vec<EntryPlace>,
    counts: Vec<u32>,
}

impl Model for Entries {
    ghost use Rattle.std.specs.Prelude.{◌≡◌, ◌*◌, length};
    ghost use Rattle.evidence.specs.View.{Entries, entries_of};

    ghost Value = { Entries };

    ghost view = { λ e. record { width = e.width; entries = entries_of e.width e.places.items e.counts.items } };

    ghost invariant = { λ e. length e.counts.items ≡ length e.places.items * e.width };
}

impl Entries {
    /// No entry at so many vertices, with all memory that entries will need.
    pub(crate) fn none(alloc: Global, length: usize, width: usize) -> Result<Self, AllocError>
        requires vertices { length ≤ MOST_VERTICES }
        requires width { width ≤ MOST_COUNTS }
        ensures { IfOk result (λ e. e ≡ record { width = width; entries = replicate length None }) }
    {
        Ok(Entries {
            width,
            places: vec![in alloc; EntryPlace::Outside; length]?,
            counts: vec![in alloc; 0; length * width]?,
        })
    }

    /// How many counts each rank has.
    pub(crate) fn width(&self) -> usize
        ensures { result ≡ self.now.width }
    {
        self.width
    }

    /// How many vertices there are, with an entry or without.
    pub(crate) fn len(&self) -> usize
        ensures { result ≡ length self.now.entries }
    {
        self.places.len()
    }

    /// What a vertex has, if it is in the set.
    pub(crate) fn get(&self, v: usize) -> Option<EntryView<'_>>
        requires { v < length self.now.entries }
        ensures { MatchOption result (slice_index_or self.now.entries v None ≡ None)
            (λ x. slice_index_or self.now.entries v None ≡ Some record { move = x.next; rank = x.rank.now }) }
    {
        let rank = row(self.counts.as_slice(), self.width, v);
        match self.places[v] {
            EntryPlace::Outside => None,
            EntryPlace::Stays => Some(EntryView { next: None, rank }),
            EntryPlace::Goes(next) => Some(EntryView {
                next: Some(next),
                rank,
            }),
        }
    }

    /// Puts an entry in the place of another or of none.
    pub(crate) fn set(&mut self, v: usize, next: Option<u32>, rank: &[u32])
        requires vertex { v < length self.old.entries }
        requires width { length rank.now ≡ self.old.width }
        ensures { self.new ≡ record self.old { entries = slice_set self.old.entries v (Some record { move = next; rank = rank.now }) } }
    {
        self.places[v] = place_of(next);
        write_row(self.counts.as_mut_slice(), self.width, v, rank);
    }
}

fn place_of(next: Option<u32>) -> EntryPlace
    ensures { (rank : List ℕ) → entry_of result rank ≡ Some record { move = next; rank = rank } }
{
    match next {
        Some(next) => EntryPlace::Goes(next),
        None => EntryPlace::Stays,
    }
}
