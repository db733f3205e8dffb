// A guess of who wins each vertex, with moves and what ranks are made of.

use crate::cells::{Cell, NO_REASON, NONE, NOWHERE, Reason, open_cells};
use crate::search::settle_all;
use game::gauge::Gauge;
use game::graph::Game;
use game::list::List;
use game::player::Player;
use std::alloc::Global;

/// Who wins each vertex, and the winner's moves, as they are guessed. Nothing is promised of them.
#[derive(Drop)]
pub struct Guess {
    pub(crate) cells: List<Cell>,
    pub(crate) reasons: List<Reason>,
    // For each time one more than the priority of the vertex that was settled then, if it is bad in the end, and else 0.
    pub(crate) bad_at: List<u8>,
}

impl Guess {
    /// Guesses who wins each vertex of a game. There is no guess where a budget of looks was spent, and a wrong one, if any, where memory was
    /// refused. A gauge shows how many of those looks there have been.
    pub fn of(alloc: Global, game: &Game, gauge: Option<&Gauge>) -> Option<Self> {
        let mut guess = Guess {
            cells: open_cells(alloc, game),
            reasons: List::filled(alloc, game.vertices() as usize, NO_REASON),
            bad_at: List::none(alloc),
        };
        let last = settle_all(alloc, game, &mut guess, gauge)?;
        guess.bad_at = List::filled(alloc, last as usize + 1, 0);
        guess.note_bad(game);
        Some(guess)
    }

    fn note_bad(&mut self, game: &Game) {
        for v in 0..game.vertices() {
            let cell = self.cell(v);
            if cell.is_bad() {
                let time = self.reason(v).time as usize;
                self.bad_at.set(time, cell.priority.saturating_add(1));
            }
        }
    }

    pub(crate) fn cell(&self, v: u32) -> Cell {
        self.cells.get_or(v as usize, NOWHERE)
    }

    pub(crate) fn reason(&self, v: u32) -> Reason {
        self.reasons.get_or(v as usize, NO_REASON)
    }

    /// Who wins the vertex.
    pub fn winner(&self, v: u32) -> Player {
        self.cell(v).winner
    }

    /// Where the winner goes on from a vertex of its own.
    pub fn next(&self, v: u32) -> Option<u32> {
        Some(self.reason(v).next).filter(|next| *next != NONE)
    }
}
