// Who wins each node at each state, as a ranking.

use crate::arena::Arena;
use crate::fields::{Fields, MARK, PRIORITIES};
use crate::search::ArenaSearch;
use calculus::form::Normal;
use game::column::{Column, Columns, Marked};
use game::list::List;
use std::alloc::Global;
use systems::system::Lts;

/// A ranking of the arena of a system and a normal form: for each node a number for each state. Bit 0 of a number is one where Odd wins. A
/// play goes on well from a vertex to another one where both numbers have the same bit 0 and the other one isn't greater, if the lowest
/// bits of both are dropped, and is less where the priority of the vertex is of the parity that the winner loses by.
#[derive(Drop)]
pub struct GuessedRanking {
    pub columns: Columns,
    /// How many bits are dropped at a vertex of each priority where Even wins.
    pub even_shifts: Vec<u32>,
    /// How many bits are dropped at a vertex of each priority where Odd wins.
    pub odd_shifts: Vec<u32>,
}

impl ArenaSearch<'_> {
    // The numbers of a node, above the number of its component.
    fn column(&self, number: usize) -> Column {
        let node = self.arena.node(number);
        let real = self.arena.real(number);
        let even = self.layout.group(self.arena, node);
        let height = u64::from(node.height).wrapping_mul(2).wrapping_add(MARK);
        let odd = even.wrapping_add(height);
        let is_constant = !self.has_counts(real);
        let width = self.odd.width;
        if is_constant && (0..width).all(|word| self.odd.word(real, word) == 0) {
            return Column::Same(even);
        }
        if is_constant && (0..width).all(|word| self.odd.word(real, word) == self.odd.all(word)) {
            return Column::Same(odd);
        }
        let list = u32::try_from(real).unwrap_or(u32::MAX);
        let marks = real.wrapping_mul(width);
        Column::Won(Marked {
            marks: u32::try_from(marks).unwrap_or(u32::MAX),
            even,
            odd,
            unit: 1_u64.checked_shl(self.layout.raised).unwrap_or(0),
            counts: list,
            words: list,
        })
    }

    // How many of the lowest bits don't count for a player at each priority. At priority 0 heights count.
    fn shifts(&self, fields: Fields) -> List<u32> {
        let mut shifts = List::filled(self.alloc, 1, 1);
        for priority in 1..PRIORITIES {
            shifts.push(fields.place(priority).saturating_add(self.layout.raised));
        }
        shifts
    }
}

/// Guesses who wins each node of a normal form at each state of a system, as a ranking. There is none where that takes too long, where
/// its counts don't fit their fields, or where memory runs out.
pub fn ranking(alloc: Global, lts: &Lts, form: &Normal) -> Option<GuessedRanking> {
    let arena = Arena::of(alloc, lts, form, false)?;
    let search = ArenaSearch::of(alloc, &arena)?;
    let mut nodes = List::none(alloc);
    for number in 0..arena.count() {
        nodes.push(search.column(number));
    }
    let even_shifts = search.shifts(search.layout.even).into_items();
    let odd_shifts = search.shifts(search.layout.odd).into_items();
    Some(GuessedRanking {
        columns: Columns {
            nodes: nodes.into_items(),
            marks: search.odd.words.into_items(),
            counts: search.counts.lists,
            words: search.words.lists,
        },
        even_shifts,
        odd_shifts,
    })
}
