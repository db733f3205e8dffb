// The least measures of both players, with heights by which it can be seen that they are.

use crate::arena::{Arena, SearchNode};
use crate::fields::{Fields, MARK};
use crate::search::ArenaSearch;
use calculus::form::Normal;
use game::list::List;
use std::alloc::Global;
use systems::system::Lts;

// How many priorities have a shift: those of the dual game, too.
const SHIFTS: u32 = 33;

// The mark of a height that says that the vertex counts below the digit. A vertex that counts at or above it has none.
const COUNTS_BELOW: u64 = 1 << 63;

/// Where a count stands in a number: what is left of the number, shifted to the left and then to the right.
#[derive(Clone, Copy)]
pub struct GuessedField {
    pub left: u32,
    pub right: u32,
}

/// How a player's counts and heights are read: a field for each priority that the player counts in its game, the greatest first, and for each priority
/// of that game how many of the lowest bits of heights don't count.
#[derive(Drop)]
pub struct GuessedLayout {
    pub fields: Vec<GuessedField>,
    pub shifts: Vec<u32>,
}

/// For each of so many vertices of the arena, first both sinks, a row: a number, whose lowest bit says that Odd wins and whose fields have what the winner
/// counts; and so many heights, one for each field of the winner, but none where no vertex counts. Odd's measures and priorities are those of the dual game.
#[derive(Drop)]
pub struct GuessedMeasures {
    pub vertices: u32,
    pub width: u32,
    pub rows: Vec<u64>,
    pub even: GuessedLayout,
    pub odd: GuessedLayout,
}

// The search once it has ended, with the greatest priority, and whether any vertex counts.
#[derive(Drop)]
struct FoundMeasures<'a> {
    search: ArenaSearch<'a>,
    greatest: u32,
    has_counts: bool,
}

/// Guesses the least measures of both players. There are none where that takes too long, where counts don't fit a word, or where memory runs out.
pub fn least_measures(alloc: Global, lts: &Lts, form: &Normal) -> Option<GuessedMeasures> {
    let arena = Arena::of(alloc, lts, form, true)?;
    let search = ArenaSearch::of(alloc, &arena)?;
    let (mut greatest, mut has_counts) = (1, false);
    for node in arena.nodes.as_slice() {
        greatest = node.priority.max(greatest);
        has_counts |= search.has_counts(search.measures(node.number));
    }
    let found = FoundMeasures {
        search,
        greatest,
        has_counts,
    };
    Some(found.measures(alloc))
}

impl FoundMeasures<'_> {
    // How many counts a player's measures have. Odd's priorities are one more in the dual game.
    fn width(&self, is_odd: bool) -> u32 {
        let greatest = self.greatest.saturating_add(u32::from(is_odd));
        greatest.saturating_add(1) / 2
    }

    // The priority in the arena that a player's count of this place counts.
    fn priority(&self, is_odd: bool, place: u32) -> u32 {
        let above = self.width(is_odd).saturating_sub(1).saturating_sub(place);
        above.saturating_mul(2).saturating_add(u32::from(!is_odd))
    }

    // How many heights a vertex has: none where no vertex counts.
    fn heights(&self) -> u32 {
        if self.has_counts { self.width(true) } else { 0 }
    }

    fn raised(&self, word: u64) -> u64 {
        word.checked_shl(self.search.layout.raised).unwrap_or(0)
    }

    // What falls along the edges of a component where the winner's count of this priority stays the same. It counts what the opponent does.
    fn fallen(&self, is_odd: bool, priority: u32, node: SearchNode, state: usize) -> u64 {
        let part = self.search.arena.part(node.number);
        let inner = priority.wrapping_sub(part.least).wrapping_sub(1) as usize;
        let base = if is_odd || part.counts_steps || !part.is_cyclic {
            0
        } else {
            let unit = self.search.layout.unit(0);
            unit.wrapping_mul(u64::from(node.height))
        };
        if inner.wrapping_add(1) >= part.blocks {
            return base;
        }
        let list = self.search.list(inner, node.number);
        base.wrapping_add(self.search.counted(list, state))
    }

    // Writes the row of a vertex from a place on: its number, and a height at each count of the winner's, where there is anything to count.
    #[inline(always)]
    fn write(&self, rows: &mut List<u64>, first: usize, node: SearchNode, state: usize) {
        let ArenaSearch { arena, layout, .. } = &self.search;
        let above = layout.group(arena, node);
        let word = self
            .search
            .counted(self.search.measures(node.number), state);
        let is_odd = self.search.odd.has(node.number, state);
        let number = self.raised(word).wrapping_add(above);
        rows.set(first, number.wrapping_add(u64::from(is_odd)));
        let counts = if word == 0 { 0 } else { self.width(is_odd) };
        for place in 0..counts {
            let priority = self.priority(is_odd, place);
            let count = layout.fields(is_odd).count(priority, word);
            if node.priority < priority && count > 0 {
                let fallen = self.raised(self.fallen(is_odd, priority, node, state));
                let height = fallen.wrapping_add(above).wrapping_add(COUNTS_BELOW);
                rows.set(first.wrapping_add(1).wrapping_add(place as usize), height);
            }
        }
    }

    // The field of a priority, and for one that has none the highest bit, which no number has.
    fn field(&self, fields: Fields, priority: u32) -> GuessedField {
        let end = fields.place(priority.saturating_add(1));
        let width = end.saturating_sub(fields.place(priority));
        if width == 0 {
            return GuessedField { left: 0, right: 63 };
        }
        let end = end.saturating_add(self.search.layout.raised);
        GuessedField {
            left: u64::BITS.saturating_sub(end),
            right: u64::BITS.saturating_sub(width),
        }
    }

    // How a player's numbers are read. Heights count what the opponent does.
    fn layout(&self, alloc: Global, is_odd: bool) -> GuessedLayout {
        let layout = self.search.layout;
        let mut fields = List::none(alloc);
        for place in 0..self.width(is_odd) {
            let priority = self.priority(is_odd, place);
            fields.push(self.field(layout.fields(is_odd), priority));
        }
        let mut shifts = List::none(alloc);
        for priority in 0..SHIFTS {
            let own = priority.saturating_sub(u32::from(is_odd));
            let place = layout.fields(!is_odd).place(own);
            shifts.push(place.saturating_add(layout.raised));
        }
        GuessedLayout {
            fields: fields.into_items(),
            shifts: shifts.into_items(),
        }
    }

    // The rows are by state and then by node. The sinks come first: Odd wins the second one.
    fn measures(&self, alloc: Global) -> GuessedMeasures {
        let arena = self.search.arena;
        let vertices = arena.states.saturating_mul(arena.count()).saturating_add(2);
        let stride = (self.heights() as usize).saturating_add(1);
        let mut rows = List::filled(alloc, vertices.saturating_mul(stride), 0);
        rows.set(stride, MARK);
        let mut first = stride.saturating_mul(2);
        for state in 0..arena.states {
            for node in arena.nodes.as_slice() {
                self.write(&mut rows, first, *node, state);
                first = first.wrapping_add(stride);
            }
        }
        GuessedMeasures {
            vertices: u32::try_from(vertices).unwrap_or(0),
            width: self.heights(),
            rows: rows.into_items(),
            even: self.layout(alloc, false),
            odd: self.layout(alloc, true),
        }
    }
}
