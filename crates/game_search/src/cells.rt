// What a search knows of each vertex.

use game::graph::Game;
use game::list::List;
use game::player::Player;
use std::alloc::Global;

/// No vertex.
pub(crate) const NONE: u32 = u32::MAX;

#[derive(Clone, Copy, PartialEq, Eq)]
pub(crate) enum CellState {
    /// Thought to be won by its priority, for no reason.
    Open,
    /// Thought to be won by its priority, as its successors' winners say. They may turn yet.
    Calm,
    /// Its successors' winners say who wins it.
    Settled,
}

/// A vertex. A search comes to it at random, mostly for this alone, so it has 4 bytes.
#[derive(Clone, Copy)]
pub(crate) struct Cell {
    pub(crate) priority: u8,
    pub(crate) owner: Player,
    /// Who is thought to win.
    pub(crate) winner: Player,
    pub(crate) state: CellState,
}

/// Why a vertex is won.
#[derive(Clone, Copy)]
pub(crate) struct Reason {
    /// Where its owner goes on, if it wins, or `NONE`. Of an open vertex some successor that is open too, or was, or `NONE`.
    pub(crate) next: u32,
    /// When it was settled.
    pub(crate) time: u32,
}

/// What stands at a number that is no vertex.
pub(crate) const NOWHERE: Cell = Cell {
    priority: 0,
    owner: Player::Even,
    winner: Player::Even,
    state: CellState::Settled,
};

pub(crate) const NO_REASON: Reason = Reason {
    next: NONE,
    time: 0,
};

/// All vertices, open.
pub(crate) fn open_cells(alloc: Global, game: &Game) -> List<Cell> {
    let mut cells = List::filled(alloc, game.vertices() as usize, NOWHERE);
    for v in 0..game.vertices() {
        let cell = Cell {
            priority: game.priority(v),
            owner: game.owner(v),
            winner: winner_by(game.priority(v)),
            state: CellState::Open,
        };
        cells.set(v as usize, cell);
    }
    cells
}

/// The player that wins where this priority is the greatest that is met again and again.
pub(crate) fn winner_by(priority: u8) -> Player {
    if priority % 2 == 0 {
        Player::Even
    } else {
        Player::Odd
    }
}

impl Cell {
    /// Who wins where the owner goes on so, or can't win.
    pub(crate) fn winner_by_next(self, next: u32) -> Player {
        match self.owner {
            _ if next != NONE => self.owner,
            Player::Even => Player::Odd,
            Player::Odd => Player::Even,
        }
    }

    /// Whether its priority is the loser's.
    pub(crate) fn is_bad(self) -> bool {
        self.winner != winner_by(self.priority)
    }

    /// Whether the search goes by the winner, where open vertices of less than this priority are yet to be drawn.
    pub(crate) fn is_solid(self, priority: u8) -> bool {
        self.state == CellState::Settled || self.priority >= priority
    }
}
