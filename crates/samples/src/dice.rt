// Games at random, the same in each run.

ghost use Rattle.std.specs.Prelude.{◌<◌, ◌≤◌};

use crate::games::push_row;
use game::graph::{Game, GameBuilder};
use game::player::Player;
use std::alloc::AllocError;

/// A linear congruential generator.
#[derive(Drop)]
pub struct Dice {
    state: u32,
}

impl Dice {
    pub fn new(seed: u32) -> Self {
        Dice { state: seed }
    }

    /// A number below so many.
    pub fn roll(&mut self, sides: u32) -> u32
        requires { 0 < sides }
        ensures { result < sides }
    {
        self.state = self
            .state
            .wrapping_mul(1_664_525)
            .wrapping_add(1_013_904_223);
        (self.state >> 8) % sides
    }
}

// Successors among so many vertices, ascending: one at least.
fn roll_successors(
    dice: &mut Dice,
    vertices: u32,
    successors: &mut Vec<u32>,
) -> Result<(), AllocError>
    requires { 0 < vertices }
{
    successors.clear();
    let sure = dice.roll(vertices);
    for t in 0..vertices {
        if dice.roll(6) == 0 || t == sure {
            successors.push(t)?;
        }
    }
    Ok(())
}

fn roll_vertex(
    dice: &mut Dice,
    builder: &mut GameBuilder,
    priorities: u32,
    successors: &[u32],
) -> Result<(), AllocError>
    requires some { 0 < priorities }
    requires few { priorities ≤ 33 }
{
    let owner = if dice.roll(2) == 0 {
        Player::Even
    } else {
        Player::Odd
    };
    push_row(builder, owner, dice.roll(priorities) as u8, successors)
}

/// A game of so many vertices, whose priorities are below so many.
pub fn roll_game(
    rt: &impl AllocGlobal,
    dice: &mut Dice,
    vertices: u32,
    priorities: u32,
) -> Result<Option<Game>, AllocError>
    requires vertices { 0 < vertices }
    requires some { 0 < priorities }
    requires few { priorities ≤ 33 }
{
    let mut builder = GameBuilder::new(rt.alloc());
    let mut successors = Vec::new(rt.alloc());
    for _ in 0..vertices {
        roll_successors(dice, vertices, &mut successors)?;
        roll_vertex(dice, &mut builder, priorities, successors.as_slice())?;
    }
    Ok(builder.finish())
}
