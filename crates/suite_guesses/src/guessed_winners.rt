// Who wins a game at random by evidence that is guessed: there is such, so the checker accepted it, and lifting says the same.

use crate::common::{certified, holds_of, is_lifted};
use crate::known_games::{owner_of, push};
use evidence::decide::certified_winners;
use game::gauge::Gauge;
use game::graph::{Game, GameBuilder};
use samples::dice::Dice;
use samples::holds;
use samples::host::Host;

// A game of so many vertices, with so many priorities and with so many steps from each vertex at most.
fn rolled(rt: &impl Host, dice: &mut Dice, vertices: u32, priorities: u32, steps: u32) -> Game {
    holds!(rt; vertices > 0 && steps > 0);
    holds!(rt; priorities > 0 && priorities <= 33);
    let mut builder = GameBuilder::new(rt.alloc());
    let mut row = Vec::new(rt.alloc());
    for _ in 0..vertices {
        row.clear();
        for _ in 0..1 + dice.roll(steps) {
            row.push(dice.roll(vertices)).expect(rt, "memory");
        }
        row.sort_unstable();
        row.dedup();
        let (priority, owner) = (dice.roll(priorities) as u8, owner_of(dice.roll(2)));
        push(rt, &mut builder, owner, priority, row.as_slice());
    }
    drop(row);
    builder.finish().expect(rt, "a game")
}

// Games of at most so many vertices. Lifting is asked of those with eight at most, as it takes long for others.
fn are_won(rt: &impl Host, dice: &mut Dice, most: u32, priorities: u32, steps: u32) {
    holds!(rt; most > 0);
    for number in 0..2_500 {
        let vertices = 1 + dice.roll(most);
        let game = rolled(rt, dice, vertices, priorities, steps);
        let marks = certified(rt, &game);
        let is_won = vertices > 8 || is_lifted(rt, &game, marks.as_slice());
        holds_of(rt, is_won, "at", number);
        drop(marks);
        drop(game);
    }
}

#[test]
fn games_at_random_are_won(rt: HostRuntime) {
    let mut dice = Dice::new(7);
    for (most, priorities, steps) in [(8, 8, 4), (12, 4, 2), (12, 33, 3), (40, 12, 2)] {
        are_won(&rt, &mut dice, most, priorities, steps);
    }
}

#[test]
fn a_gauge_shows_how_far_a_guess_has_come(rt: HostRuntime) {
    let game = rolled(&rt, &mut Dice::new(11), 70_000, 10, 3);
    let gauge = Gauge::new();
    let marks = certified_winners(rt.alloc(), &game, Some(&gauge)).expect(&rt, "marks");
    holds!(&rt; gauge.reading().is_some_and(|reading| reading.done > 70_000));
    drop(marks);
    drop(game);
}
