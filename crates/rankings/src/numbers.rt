// The numbers of a column, by state.

ghost use Rattle.std.specs.Prelude.{◌≡◌, [], if◌then◌else◌, map, slice_index_or};
ghost use Rattle.rankings.specs.Columns.{is_state_marked, number_at, kept_number, won_at};

use crate::column::{ColumnView, Numbers};
use game::column::{Column, Columns, Marked};

// A list, by its place, or none.
fn list<T>(lists: &[Vec<T>], place: u32) -> &[T]
    ensures { result.now ≡ slice_index_or (map (λ list. list.items) lists.now) place [] }
{
    match lists.get(place as usize) {
        Some(list) => list.as_slice(),
        None => &[],
    }
}

// Whether the mark of a state is set, where the marks begin with this word.
#[inline(always)]
fn has_mark(marks: &[u64], first: u32, state: u32) -> bool
    ensures { result ≡ is_state_marked marks.now first state }
{
    let word = marks.get(first as usize + (state / 64) as usize);
    (word.copied().unwrap_or(0) >> (state % 64)) % 2 == 1
}

impl ColumnView<'_> {
    // The number of whoever is said to win a state.
    #[inline(always)]
    fn base(self, state: u32) -> u64
        ensures { result ≡ (if is_state_marked self.entry.marks.now self.entry.first state then self.entry.odd else self.entry.even) }
    {
        if has_mark(self.marks, self.first, state) {
            self.odd
        } else {
            self.even
        }
    }

    #[inline(always)]
    fn number(self, state: u32) -> u64
        ensures { result ≡ won_at self.entry state }
    {
        let count = self.counts.get(state as usize).copied().unwrap_or(0);
        let counted = self.unit.wrapping_mul(u64::from(count));
        let word = self.words.get(state as usize).copied().unwrap_or(0);
        self.base(state).wrapping_add(counted).wrapping_add(word)
    }
}

impl Numbers<'_> {
    /// The number of a state.
    #[inline(always)]
    pub(crate) fn number(self, state: u32) -> u64
        ensures { result ≡ number_at self.entry state }
    {
        match self {
            Numbers::Same(number) => number,
            Numbers::Won(shown) => shown.number(state),
        }
    }
}

// The numbers of whoever is said to win, with their lists.
fn shown(columns: &Columns, marked: Marked) -> ColumnView<'_>
    ensures { won_at result ≡ kept_number columns.now.marks.items (map (λ list. list.items) columns.now.counts.items) (map (λ list. list.items) columns.now.words.items)
        (Column.Won marked) }
{
    let counts = list(&columns.counts, marked.counts);
    let words = list(&columns.words, marked.words);
    ColumnView {
        marks: columns.marks.as_slice(),
        first: marked.marks,
        even: marked.even,
        odd: marked.odd,
        unit: marked.unit,
        counts,
        words,
    }
}

/// The numbers of a column.
pub(crate) fn lent(columns: &Columns, column: Column) -> Numbers<'_>
    ensures { number_at result ≡ kept_number columns.now.marks.items (map (λ list. list.items) columns.now.counts.items) (map (λ list. list.items) columns.now.words.items) column }
{
    match column {
        Column::Same(number) => Numbers::Same(number),
        Column::Won(marked) => Numbers::Won(shown(columns, marked)),
    }
}

/// The numbers of a node, or else zero at each state.
pub(crate) fn numbers(columns: &Columns, node: u32) -> Numbers<'_>
    ensures { number_at result ≡ kept_number columns.now.marks.items (map (λ list. list.items) columns.now.counts.items) (map (λ list. list.items) columns.now.words.items)
        (slice_index_or columns.now.nodes.items node (Column.Same 0)) }
{
    let column = columns.nodes.get(node as usize);
    lent(columns, column.copied().unwrap_or(Column::Same(0)))
}
