// Ranks by the times at which vertices were settled.
//
// A bad vertex is one whose priority is the loser's. Whenever one is settled a new time begins, which is its own. Of each priority q of the other parity
// than the winner's the rank of a vertex v has a count: 0 if v has a greater priority than q, and else how many vertices that are bad in the end, and
// have q or more, were settled up to the time of v.
//
// Why ranks are good: let v lead to t by a step that the winner's moves leave, and q be counted and no less than the priority of v. If t has a
// greater priority than q, its count is 0, and that of v isn't if v has q, since v is bad then. Else there are two cases.
//
// - t was settled before v and stayed so, or v had fallen. Then its time is no greater, so no count is; and if v has q, it is bad, and counts itself.
// - t was not settled when v was. It stayed so until its own time, or v had fallen. It was thought to be won by its priority then, so q is not its
//   priority, but greater; and t has no less than v, by what v may rest on. So nothing need fall. A bad vertex of q or more that was settled in between
//   would count against v, but none was: a look comes to greater priorities once all lesser ones are settled, and a drawing goes down.

use crate::guess::Guess;
use game::list::List;
use game::player::Player;
use std::alloc::Global;

// The table has no more than so many words for each vertex.
const WORDS: usize = 4;

/// The ranks of what a player wins.
#[derive(Drop)]
pub struct Ranks<'g> {
    guess: &'g Guess,
    player: Player,
    // How many counts a rank has.
    width: usize,
    // A row is kept for one of so many times.
    step: usize,
    table: List<u32>,
}

impl Guess {
    /// The ranks of what a player wins, of so many counts each. Where memory is refused they are wrong.
    pub fn ranks(&self, alloc: Global, player: Player, width: usize) -> Ranks<'_> {
        let words = self.bad_at.len().saturating_mul(width);
        let most = self.cells.len().saturating_mul(WORDS).saturating_add(1);
        let mut ranks = Ranks {
            guess: &*self,
            player,
            width,
            step: (words / most).saturating_add(1),
            table: List::none(alloc),
        };
        ranks.fill(alloc);
        ranks
    }
}

impl Ranks<'_> {
    fn fill(&mut self, alloc: Global) {
        let mut begun = List::filled(alloc, self.width, 0);
        let mut rest = 0_usize;
        for bad in self.guess.bad_at.as_slice() {
            let place = self.kept(*bad);
            begun.set(place, begun.get_or(place, 0_u32).wrapping_add(1));
            if rest == 0 {
                self.push_row(begun.as_slice());
                rest = self.step;
            }
            rest = rest.saturating_sub(1);
        }
    }

    // Keeps a row, where it is told at each place how many counts begin there to count.
    fn push_row(&mut self, begun: &[u32]) {
        let mut sum = 0_u32;
        for more in begun {
            sum = sum.wrapping_add(*more);
            self.table.push(sum);
        }
    }

    // Where the counts of lesser priorities than this one begin.
    fn kept(&self, priority: u8) -> usize {
        let below = match self.player {
            Player::Even => priority / 2,
            Player::Odd => priority.div_ceil(2),
        };
        self.width.saturating_sub(usize::from(below))
    }

    // Counts the vertex that was settled at a time.
    fn count(&self, bad: u8, counts: &mut [u32]) {
        for place in self.kept(bad)..counts.len() {
            counts[place] = counts[place].wrapping_add(1);
        }
    }

    /// Writes the rank of a vertex that the player wins.
    pub fn put(&self, v: u32, rank: &mut [u32]) {
        let time = self.guess.reason(v).time as usize;
        let row = time.checked_div(self.step).unwrap_or(0);
        let from = row.saturating_mul(self.width);
        let counts = self.table.slice(from, from.saturating_add(self.width));
        if counts.len() == rank.len() {
            rank.copy_from_slice(counts);
        }
        let later = row.saturating_mul(self.step).saturating_add(1);
        for bad in self.guess.bad_at.slice(later, time + 1) {
            self.count(*bad, rank);
        }
        let kept = self.kept(self.guess.cell(v).priority).min(rank.len());
        rank[kept..].fill(0);
    }
}
