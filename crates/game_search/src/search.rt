// The search: iteration of the nested fixpoint with justifications (Lapauw, Bruynooghe, Denecker 2020), where layers are drawn as attractors are.
//
// Open vertices of the least priority are looked at. Where their successors say otherwise, they turn: they are settled for the other player, who
// takes all that it can force by that, what rested on what it took is opened, and what open vertices of lesser priorities draw is settled anew. Else
// they are calm, and are settled. These hold:
//
// - when `look(p)` begins, all vertices of less than p are settled;
// - what a calm or settled vertex rests on has the same winner, and is settled or has at least the priority of the look, of the drawing or, once all
//   has fallen, of the turn;
// - what isn't settled is won by its priority's player;
// - `next` is `NONE` just where the owner loses, but at open vertices.
//
// At the end all is settled, and moves and winners fit.

use crate::cells::{Cell, CellState, NONE, Reason, winner_by};
use crate::guess::Guess;
use crate::layers::{Layers, PRIORITIES};
use game::gauge::Gauge;
use game::graph::Game;
use game::list::List;
use game::player::Player;
use game::predecessors::Predecessors;
use std::alloc::Global;

// A prime greater than any row is long: with this step all of a long row is come to. What is shorter is gone through one by one.
const PRIME: u32 = 2_654_435_761;

const LONG: usize = 16;

// There may be so many looks at vertices and edges, and so many times those that see the game once.
const LEAST_BUDGET: u64 = 67_108_864;

const TIMES: u64 = 300;

// What is done with what leads to a changed vertex.
#[derive(Clone, Copy)]
enum ChangeAction {
    Take,
    Open,
    Join,
}

#[derive(Drop)]
struct GameSearch<'g> {
    game: &'g Game,
    before: &'g Predecessors,
    gauge: Option<&'g Gauge>,
    guess: &'g mut Guess,
    // For each priority the open vertices, and others that were.
    open: Layers,
    // For each priority the calm vertices, and others that were.
    calm: Layers,
    // What was changed, while what leads to it has to be looked at.
    changed: List<u32>,
    // What rested on a vertex that the other player took.
    unsupported: List<u32>,
    // How often a bad vertex was settled.
    now: u32,
    looks: u64,
}

/// Settles all vertices, and tells when the last of them was settled: none where a budget of looks was spent before. What memory is
/// refused for is left out, so that what is found is wrong.
pub(crate) fn settle_all(
    alloc: Global,
    game: &Game,
    guess: &mut Guess,
    gauge: Option<&Gauge>,
) -> Option<u32> {
    let Ok(before) = Predecessors::of(alloc, game) else {
        return None;
    };
    let mut search = GameSearch {
        game,
        before: &before,
        gauge,
        guess,
        open: Layers::none(alloc),
        calm: Layers::none(alloc),
        changed: List::none(alloc),
        unsupported: List::none(alloc),
        now: 0,
        looks: 0,
    };
    if search.run() { Some(search.now) } else { None }
}

// Where a vertex leads. A number that is no vertex leads nowhere.
fn successors(game: &Game, v: u32) -> &[u32] {
    if v < game.vertices() {
        game.successors(v)
    } else {
        &[]
    }
}

impl GameSearch<'_> {
    // Whether all was settled within the budget.
    fn run(&mut self) -> bool {
        let size = self.open_all();
        let budget = size.saturating_mul(TIMES).saturating_add(LEAST_BUDGET);
        if let Some(gauge) = self.gauge {
            gauge.begin(budget);
        }
        self.draw(PRIORITIES);
        let mut p = 0_u8;
        for _ in 0..u64::MAX {
            if p >= PRIORITIES || self.looks > budget {
                break;
            }
            self.look(p);
            if self.changed.is_empty() {
                self.confirm(p);
                p = p.saturating_add(1);
            } else {
                self.turn(p);
                p = 0;
            }
        }
        p >= PRIORITIES
    }

    // Opens all vertices, and tells how many vertices and edges there are.
    fn open_all(&mut self) -> u64 {
        let game = self.game;
        let mut size = u64::from(game.vertices());
        for v in 0..game.vertices() {
            self.open.push(game.priority(v), v);
            size = size.saturating_add(game.successors(v).len() as u64);
        }
        size
    }

    fn put(&mut self, v: u32, cell: Cell) {
        self.guess.cells.set(v as usize, cell);
    }

    fn go(&mut self, v: u32, next: u32) {
        let time = self.now;
        self.guess.reasons.set(v as usize, Reason { next, time });
    }

    // Looks at the open vertices of this priority: their successors' winners calm or turn them.
    fn look(&mut self, p: u8) {
        for _ in 0..u64::MAX {
            let Some(v) = self.open.pop(p) else { break };
            let cell = self.guess.cell(v);
            if cell.state == CellState::Open {
                self.look_at(v, cell);
            }
        }
    }

    // What is calm isn't settled before all of its priority is, so what rests on it needn't fall when it is opened.
    fn look_at(&mut self, v: u32, mut cell: Cell) {
        let next = self.choose(v, cell, 0);
        if cell.winner_by_next(next) != cell.winner {
            self.settle(v, cell, next);
            return;
        }
        self.calm.push(cell.priority, v);
        cell.state = CellState::Calm;
        self.put(v, cell);
        self.go(v, next);
    }

    // Settles a vertex by its move, at a time of its own if it is bad.
    fn settle(&mut self, v: u32, mut cell: Cell, next: u32) {
        cell.state = CellState::Settled;
        cell.winner = cell.winner_by_next(next);
        if cell.is_bad() {
            self.now = self.now.saturating_add(1);
        }
        self.put(v, cell);
        self.go(v, next);
        self.changed.push(v);
    }

    // Settles the calm vertices of this priority: no vertex up to it is open.
    fn confirm(&mut self, p: u8) {
        for _ in 0..u64::MAX {
            let Some(v) = self.calm.pop(p) else { break };
            let mut cell = self.guess.cell(v);
            if cell.state == CellState::Calm {
                cell.state = CellState::Settled;
                self.put(v, cell);
                let next = self.guess.reason(v).next;
                self.go(v, next);
            }
        }
    }

    // Vertices of this priority turned. What lost its support by that is opened only once all is taken: opened, a bad one would be thought the other
    // player's, and its neighbours be taken for that.
    fn turn(&mut self, p: u8) {
        self.spread(ChangeAction::Take, p);
        for _ in 0..u64::MAX {
            let Some(v) = self.unsupported.pop() else {
                break
            };
            if self.guess.cell(v).winner == winner_by(p) {
                self.unsettle(v);
            }
        }
        self.spread(ChangeAction::Open, p);
        self.draw(p);
    }

    // Does this with what leads to changed vertices, and with what leads to what is changed by that.
    fn spread(&mut self, step: ChangeAction, p: u8) {
        for _ in 0..u64::MAX {
            let Some(v) = self.changed.pop() else { break };
            self.pass(v, step, p);
        }
    }

    fn pass(&mut self, v: u32, step: ChangeAction, p: u8) {
        let row = self.before.get(v);
        self.looks = self
            .looks
            .saturating_add(row.len() as u64)
            .saturating_add(1);
        for u in row {
            match step {
                ChangeAction::Take => self.take(*u, v, p),
                ChangeAction::Open => self.fall(*u, v),
                ChangeAction::Join => self.join(*u, v, p),
            }
        }
    }

    // Whether a vertex has its winner by way of this successor: by the move, or by all steps.
    fn rests_on(&self, u: u32, cell: Cell, t: u32) -> bool {
        cell.state != CellState::Open
            && (cell.winner != cell.owner || self.guess.reason(u).next == t)
    }

    // Takes a vertex that led to what turned, if its winner has no other way, and its priority is no greater.
    fn take(&mut self, u: u32, turned: u32, p: u8) {
        let cell = self.guess.cell(u);
        let loser = winner_by(p);
        if cell.winner != loser || !self.rests_on(u, cell, turned) {
            return;
        }
        if cell.priority > p {
            self.unsupported.push(u);
            return;
        }
        let next = if cell.owner == loser {
            self.choose(u, cell, 0)
        } else {
            turned
        };
        if cell.winner_by_next(next) == loser {
            self.go(u, next);
            self.unsupported.push(u);
        } else {
            self.settle(u, cell, next);
        }
    }

    fn fall(&mut self, u: u32, opened: u32) {
        let cell = self.guess.cell(u);
        if self.rests_on(u, cell, opened) {
            self.unsettle(u);
        }
    }

    fn unsettle(&mut self, v: u32) {
        let mut cell = self.guess.cell(v);
        match cell.state {
            CellState::Open => return,
            CellState::Calm => {}
            CellState::Settled => self.changed.push(v),
        }
        cell.state = CellState::Open;
        cell.winner = winner_by(cell.priority);
        self.put(v, cell);
        self.open.push(cell.priority, v);
    }

    // Settles what open vertices of less than this priority draw, and what that draws, the greatest priority first. Those of the least draw nothing.
    fn draw(&mut self, p: u8) {
        let is_any = |q: &u8| self.open.at(*q, 0).is_some();
        let least = (0..p).find(is_any).unwrap_or(p);
        for q in (least..p).rev() {
            if let Some(gauge) = self.gauge {
                gauge.put(self.looks);
            }
            if q > least {
                self.draw_from(q);
            }
        }
    }

    fn draw_from(&mut self, p: u8) {
        for place in 0..usize::MAX {
            let Some(v) = self.open.at(p, place) else {
                break
            };
            if self.guess.cell(v).state == CellState::Open {
                self.changed.push(v);
                self.spread(ChangeAction::Join, p);
            }
        }
    }

    // Settles an open vertex of less than this priority, if its solid successors do. This one is solid now.
    fn join(&mut self, u: u32, drawn: u32, p: u8) {
        let cell = self.guess.cell(u);
        if cell.state != CellState::Open || cell.priority >= p {
            return;
        }
        let next = if self.guess.cell(drawn).winner == cell.owner {
            drawn
        } else {
            self.choose(u, cell, p)
        };
        if next == NONE || self.guess.cell(next).is_solid(p) {
            self.settle(u, cell, next);
        } else {
            self.go(u, next);
        }
    }

    // A solid successor that the owner wins, or else one that isn't solid, or `NONE`. Of priority 0 all are solid.
    fn choose(&mut self, u: u32, cell: Cell, p: u8) -> u32 {
        let hint = if p == 0 {
            NONE
        } else {
            self.guess.reason(u).next
        };
        if hint != NONE && !self.guess.cell(hint).is_solid(p) {
            return hint;
        }
        let row = successors(self.game, u);
        let len = row.len();
        // What turns first often stands first, so it is by chance where to look first, and what to look at next.
        let chance = u64::from(self.now.wrapping_mul(PRIME)).wrapping_mul(len as u64);
        let mut place = (chance >> 32) as usize;
        let step = if len < LONG { 1 } else { PRIME as usize % len };
        let mut other = NONE;
        for _ in 0..len {
            self.looks = self.looks.saturating_add(1);
            let t = if place < len { row[place] } else { NONE };
            let next = self.guess.cell(t);
            if !next.is_solid(p) {
                other = t;
            } else if next.winner == cell.owner {
                return t;
            }
            place = place.wrapping_add(step);
            if place >= len {
                place = place.wrapping_sub(len);
            }
        }
        other
    }
}
