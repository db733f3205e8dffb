// Rankings of arenas, a column of numbers for each node.

ghost use Rattle.std.specs.Prelude.{◌≡◌, ◌<◌, ◌≤◌, ℕ, IfSome, IsTrue, length, slice_index_or};
ghost use Rattle.rankings.specs.Cells.{AreShifts, cell, ranking_of, shift_in};
ghost use Rattle.rankings.specs.Columns.{number_at};
ghost use Rattle.rankings.specs.Ranking.{IsRising};

use crate::column::Numbers;
use crate::nodes::is_winner;
use crate::numbers::{lent, numbers};
use crate::slope::{Slope, Slopes};
use crate::slopes::is_of;
use game::column::Columns;
use game::player::Player;
use std::alloc::{AllocError, Global};
use std::marker::Model;

// The shift of all priorities past the last that has one, by which no bit but the highest counts.
const LAST_SHIFT: u32 = 63;

/// For each node of a normal form a column of numbers, one for each state, and for each player and priority how many of the lowest bits of
/// numbers don't count there.
#[derive(Drop)]
pub struct Sheet {
    columns: Columns,
    evens: Vec<u32>,
    odds: Vec<u32>,
}

impl Model for Sheet {
    ghost use Rattle.rankings.specs.Cells.{Cells};
    ghost use Rattle.rankings.specs.Stored.{AreColumnsStored, cells_of};

    ghost Value = { Cells };

    ghost view = { cells_of };

    ghost invariant = { AreColumnsStored };
}

// Whether shifts don't fall, and are below the width of a word.
fn are_shifts(shifts: &[u32]) -> bool
    ensures { IsTrue result → AreShifts shifts.now }
{
    let mut least = 0;
    for shift in shifts {
        if *shift < least || *shift > LAST_SHIFT {
            return false;
        }
        least = *shift;
    }
    true
}

// The number that stands there, or else the last shift.
fn or_last(shifts: &[u32], priority: u32) -> u32
    ensures { result ≡ slice_index_or shifts.now priority LAST_SHIFT }
{
    shifts.get(priority as usize).copied().unwrap_or(LAST_SHIFT)
}

// The shift of a priority.
#[tactic(auto, using(crate::proofs::Shifts::shift_few))]
fn shift_of(shifts: &[u32], priority: u32) -> u32
    requires { AreShifts shifts.now }
    ensures shift { result ≡ slice_index_or shifts.now priority LAST_SHIFT }
    ensures few { result ≤ LAST_SHIFT }
{
    or_last(shifts, priority)
}

impl Sheet {
    ghost use Rattle.rankings.specs.Slopes.{AreSlopes};
    ghost use Rattle.rankings.specs.Stored.{AreColumnsStored, cells_of};

    /// The sheet of these columns and shifts, of which each list is by priority. There is none where the shifts fall, or one is above 63.
    pub fn of(columns: Columns, evens: Vec<u32>, odds: Vec<u32>) -> Option<Sheet>
        ensures { IfSome result (λ c. c ≡ cells_of (record { columns = columns; evens = evens; odds = odds })) }
    {
        if are_shifts(&evens) && are_shifts(&odds) {
            Some(Sheet {
                columns,
                evens,
                odds,
            })
        } else {
            None
        }
    }

    /// What holds of every sheet.
    pub fn known(&self)
        ensures { IsRising (ranking_of self.now) }
    {
        // For the proof: reading a field makes the invariant known.
        let _ = &self.columns;
    }

    /// Whether there is a column for each of so many nodes.
    pub(crate) fn has_size(&self, nodes: u32) -> bool
        ensures { IsTrue result → length self.now.nodes ≡ nodes }
    {
        self.columns.nodes.len() == nodes as usize
    }

    /// The numbers of a node, by state.
    pub(crate) fn column(&self, node: u32) -> Numbers<'_>
        ensures { number_at result ≡ cell self.now node }
    {
        numbers(&self.columns, node)
    }

    /// For each vertex of the arena of so many states, in its order, whether the sheet says that Even wins it.
    pub fn even_wins(&self, alloc: Global, states: u32) -> Result<Vec<bool>, AllocError> {
        // The sinks.
        let mut marks = vec![in alloc; true, false]?;
        for state in 0..states {
            self.push_marks(&mut marks, state)?;
        }
        Ok(marks)
    }

    // Adds the marks of the vertices of a state.
    fn push_marks(&self, marks: &mut Vec<bool>, state: u32) -> Result<(), AllocError> {
        for column in &self.columns.nodes {
            let number = lent(&self.columns, *column).number(state);
            marks.push(is_winner(Player::Even, number))?;
        }
        Ok(())
    }

    // How many bits don't count for a player at a priority.
    fn shift(&self, player: Player, priority: u32) -> u32
        ensures shift { result ≡ shift_in self.now player priority }
        ensures few { result ≤ LAST_SHIFT }
    {
        match player {
            Player::Even => shift_of(&self.evens, priority),
            Player::Odd => shift_of(&self.odds, priority),
        }
    }

    /// How numbers are compared at the vertices of a priority.
    pub(crate) fn slopes(&self, priority: u32) -> Slopes
        ensures { AreSlopes (ranking_of self.now) priority result }
    {
        Slopes {
            even: Slope {
                shift: self.shift(Player::Even, priority),
                falls: is_of(Player::Odd, priority),
            },
            odd: Slope {
                shift: self.shift(Player::Odd, priority),
                falls: is_of(Player::Even, priority),
            },
        }
    }
}
