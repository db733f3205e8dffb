// A loop in a ball, to which and round which there are as few steps as are found.

use crate::ball::Ball;
use crate::field::{Field, wins_by};
use crate::order::{SearchOrder, whole};
use crate::part::LowPlaces;
use game::list::List;
use std::alloc::{AllocError, Global};

// How many ways are looked at for better loops, beside one for each vertex that was found.
const LOOKS: u64 = 1_048_576;

// One more than the greatest priority of a game.
const PRIORITIES: u8 = 33;

// A place to which ways lead, by how many steps, whether they have had the greatest priority, and the number of the stage before.
#[derive(Clone, Copy, Default)]
struct LoopStage {
    place: u32,
    steps: u32,
    had_top: bool,
    before: usize,
}

// A search for loops, each by stages from one of its places on.
#[derive(Drop)]
struct LoopSearch<'a> {
    alloc: Global,
    ball: &'a Ball<'a>,
    // The last search that came to each place without the greatest priority, and the last one that did so with it.
    searches: List<[u32; 2]>,
    search: u32,
    stages: List<LoopStage>,
    // How many ways were looked at.
    looks: u64,
    // The places of the best loop, the last first.
    best: List<u32>,
    // How many steps it takes to come to a place of the best loop and go round it once.
    total: u32,
}

/// The places of a loop whose greatest priority is the player's, the last first, or none where there is no such loop.
pub(crate) fn best_loop(alloc: Global, ball: &Ball) -> Result<List<u32>, AllocError> {
    let Field { game, player, .. } = ball.field;
    let mut search = LoopSearch {
        alloc,
        ball,
        searches: whole(List::filled(alloc, ball.len() as usize, [0, 0]))?,
        search: 0,
        stages: List::none(alloc),
        looks: 0,
        best: List::none(alloc),
        total: u32::MAX,
    };
    for top in 0..PRIORITIES {
        if wins_by(player, top) && game.count(u32::from(top)) > 0 {
            search.look_in(&LowPlaces::of(alloc, ball, top)?)?;
        }
    }
    whole(search.stages)?;
    whole(search.best)
}

impl<'a> LoopSearch<'a> {
    // Looks for loops with a part's greatest priority: for better ones where one is found, first for those with no more steps than lead to the last place, then
    // for those with up to twice as many, and so on.
    fn look_in(&mut self, part: &LowPlaces) -> Result<(), AllocError> {
        let last = self.ball.at(self.ball.len().saturating_sub(1));
        let mut limit = last.far.saturating_add(1);
        let mut may_be_better = self.finds_any(part)?;
        for _ in 0..u32::BITS {
            if !may_be_better {
                break;
            }
            self.look_below(part, limit);
            may_be_better = limit < self.total;
            limit = limit.saturating_mul(2);
        }
        Ok(())
    }

    // Finds a loop with a part's greatest priority, if there is one. It looks at each way once, since what leads to no loop from one of these places leads to
    // none from a later one.
    fn finds_any(&mut self, part: &LowPlaces) -> Result<bool, AllocError> {
        self.search = self.search.saturating_add(1);
        for start in part.left_tops(self.alloc, self.ball)?.as_slice() {
            if self.finds(part, *start, u32::MAX) {
                return Ok(true);
            }
        }
        Ok(false)
    }

    // Looks for better loops with fewer steps than this, through the nearest heads first.
    fn look_below(&mut self, part: &LowPlaces, limit: u32) {
        let budget = LOOKS.saturating_add(u64::from(self.ball.len()));
        for head in part.heads.as_slice().iter().rev() {
            let limit = limit.min(self.total);
            if self.ball.at(*head).far >= limit || self.looks > budget {
                break;
            }
            self.search = self.search.saturating_add(1);
            self.finds(part, *head, limit);
        }
    }

    // Finds a shortest loop through a place of a part, with the greatest priority, if it takes fewer steps than this. It finds none that leads through a
    // place to which this search came before.
    fn finds(&mut self, part: &LowPlaces, start: u32, limit: u32) -> bool {
        let first = self.ball.at(start);
        let mut order = SearchOrder::START;
        self.stages.clear();
        self.comes_to(LoopStage {
            place: start,
            steps: first.far,
            had_top: first.priority == part.top,
            before: 0,
        });
        for _ in 0..u64::MAX {
            let Some((number, by_step)) = order.next(self.stages.len()) else {
                break;
            };
            if self.closes(part, start, limit, number, by_step) {
                self.keep(number);
                return true;
            }
        }
        false
    }

    // Looks at the ways from a stage, if it takes a step to go on from there, or if it takes none. The answer is whether one closes the loop.
    fn closes(
        &mut self,
        part: &LowPlaces,
        start: u32,
        limit: u32,
        before: usize,
        by_step: bool,
    ) -> bool {
        let ball = self.ball;
        let stage = self.stages.get_or(before, LoopStage::default());
        let steps = stage.steps.saturating_add(u32::from(by_step));
        if ball.at(stage.place).is_step != by_step || steps >= limit {
            return false;
        }
        for to in ball.after(stage.place) {
            self.looks = self.looks.saturating_add(1);
            if part.leads_on(*to) {
                let had_top = stage.had_top || ball.at(*to).priority == part.top;
                if had_top && *to == start {
                    return true;
                }
                self.comes_to(LoopStage {
                    place: *to,
                    steps,
                    had_top,
                    before,
                });
            }
        }
        false
    }

    // Comes to a stage, unless this search came to its place before, with the greatest priority or without as here. The answer is whether it does.
    fn comes_to(&mut self, stage: LoopStage) -> bool {
        let had_top = usize::from(stage.had_top);
        let mut searches = self.searches.get_or(stage.place as usize, [0, 0]);
        let is_new = searches[had_top] != self.search;
        if is_new {
            searches[had_top] = self.search;
            self.searches.set(stage.place as usize, searches);
            self.stages.push(stage);
        }
        is_new
    }

    // Keeps the loop that is closed from a stage, if it is better than the best, and leads through no place twice: else one that is no longer leads through
    // another place.
    fn keep(&mut self, last: usize) {
        self.search = self.search.saturating_add(1);
        let mut places = List::none(self.alloc);
        let mut number = last;
        for _ in 0..self.stages.len() {
            let stage = self.stages.get_or(number, LoopStage::default());
            if !self.comes_to(LoopStage {
                had_top: true,
                ..stage
            }) {
                return;
            }
            places.push(stage.place);
            if number == 0 {
                break;
            }
            number = stage.before;
        }
        let stage = self.stages.get_or(last, LoopStage::default());
        let total = stage
            .steps
            .saturating_add(u32::from(self.ball.at(stage.place).is_step));
        if total < self.total {
            self.total = total;
            self.best = places;
        }
    }
}
