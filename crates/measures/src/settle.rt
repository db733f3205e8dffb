// Lifting to the least progress table.

ghost use Rattle.std.specs.Prelude.{◌≡◌, ◌<◌, ◌≤◌, ◌*◌, ◌↔◌, IsTrue, length, IfOk};
ghost use Rattle.game.specs.Wins.{Wins};
ghost use Rattle.measures.specs.Lifting.{height, sum_of};
ghost use Rattle.measures.specs.Progress.{IsLeastTable, IsProgress};
ghost use Rattle.measures.specs.Settling.{Sweeps};

use crate::table::{PlainTable, Settled, opening};
use game::graph::Game;
use std::alloc::Global;
use text::Memory;

// Lifts each vertex once. The answer says whether one rose.
fn sweep(game: &Game, table: &mut PlainTable) -> bool
    requires { table.old.game ≡ game.now }
    ensures game { table.new.game ≡ game.now }
    ensures sweeps { Sweeps game.now table.old.values table.new.values result }
    ensures limit { sum_of game.now table.new.values ≤ length game.now.vertices * height game.now }
{
    let mut rose = false;
    for v in (0..game.vertices()).rev() {
        if table.lift_at(game, v) {
            rose = true;
        }
    }
    table.known();
    rose
}

// Lifts the vertices that may rise, as long as some are noted.
fn drain(game: &Game, table: &mut PlainTable)
    requires { table.old.game ≡ game.now }
    ensures game { table.new.game ≡ game.now }
    ensures kept { sum_of game.now table.old.values ≤ sum_of game.now table.new.values }
{
    for _ in 0..u64::MAX {
        match table.next_pending() {
            Some(v) if v < game.vertices() => {
                table.lift_at(game, v);
            }
            _ => return,
        }
    }
}

/// Leaves the least progress table. It takes no memory.
///
/// It drains the list of what may rise, which is fast, and ends when a sweep over all vertices raises none.
#[tactic(auto, using(crate::proofs::Settling::swept_least))]
pub fn settle(game: &Game, table: &mut PlainTable)
    requires { table.old.game ≡ game.now }
    ensures game { table.new.game ≡ game.now }
    ensures least { IsLeastTable game.now table.new.values }
{
    loop {
        drain(game, table);
        let rose = sweep(game, table);
        if !rose {
            table.known();
            return;
        }
    }
}

/// Whether no lift raises a vertex of the table.
pub fn is_settled(game: &Game, table: &PlainTable) -> bool
    requires { table.now.game ≡ game.now }
    ensures { IsTrue result ↔ IsProgress game.now table.now.values }
{
    table.known();
    for v in 0..game.vertices() {
        if !table.is_still(game, v) {
            return false;
        }
    }
    true
}

/// Whether Even wins a vertex.
pub fn even_wins(settled: &Settled, v: u32) -> bool
    requires { v < length settled.now.game.vertices }
    ensures { IsTrue result ↔ Wins settled.now.game v }
{
    !settled.is_top(v)
}

/// The least progress table of a game, on one thread.
///
/// # Errors
/// Out of memory for the table itself.
pub fn solve_one(alloc: Global, game: &Game) -> Result<Settled, Memory>
    ensures game { IfOk result (λ s. s.game ≡ game.now) }
    ensures least { IfOk result (λ s. IsLeastTable game.now s.values) }
{
    let table = opening(alloc, game)?;
    Ok(solve_one_from(game, table))
}

/// The least progress table of a game, on one thread, from any table of the game.
pub fn solve_one_from(game: &Game, mut table: PlainTable) -> Settled
    requires { table.game ≡ game.now }
    ensures game { result.game ≡ game.now }
    ensures least { IsLeastTable game.now result.values }
{
    settle(game, &mut table);
    table.into_settled()
}
