// A path into a loop, of as few steps as are found.

use crate::ball::Ball;
use crate::field::Field;
use crate::loops::best_loop;
use crate::order::whole;
use game::list::List;
use std::alloc::{AllocError, Global};

// How many vertices the search looks at first: twice as many each time that it finds no loop among them.
const FIRST_VERTICES: u32 = 65_536;

/// The vertices of a play in which the opponent never has a choice, the last first: of a loop whose greatest priority is the player's, twice, and of a path to
/// it from a vertex. None where there is no such play. The list tells which vertices the player wins: they are unmet, and the others lost.
pub(crate) fn find_lasso(
    alloc: Global,
    field: Field,
    of_vertices: List<u32>,
    root: u32,
) -> Result<List<u32>, AllocError> {
    let mut ball = Ball::new(alloc, field, of_vertices, root);
    let mut most = FIRST_VERTICES;
    for _ in 0..u32::BITS {
        ball.grow(most)?;
        let places = best_loop(alloc, &ball)?;
        if !places.is_empty() || ball.len() < most {
            return play_back(alloc, &ball, places.as_slice());
        }
        most = most.saturating_mul(2);
    }
    Ok(List::none(alloc))
}

// The vertices of a loop, twice, and of a shortest way to it, the last first, where these are the loop's places.
fn play_back(alloc: Global, ball: &Ball, places: &[u32]) -> Result<List<u32>, AllocError> {
    let first = places.iter().copied().min().unwrap_or(0);
    let entry = places.iter().position(|place| *place == first).unwrap_or(0);
    let (front, rest) = places.split_at(entry.saturating_add(1).min(places.len()));
    let mut play = List::none(alloc);
    for place in rest.iter().chain(front).chain(rest).chain(front) {
        play.push(ball.at(*place).vertex);
    }
    push_way_back(&mut play, ball, first);
    whole(play)
}

// Adds the vertices of a shortest way to a place, the last first, without its own.
fn push_way_back(play: &mut List<u32>, ball: &Ball, place: u32) {
    let mut place = place;
    for _ in 0..ball.len() {
        if place == 0 {
            break;
        }
        place = ball.at(place).before;
        play.push(ball.at(place).vertex);
    }
}
