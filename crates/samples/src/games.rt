// Games by their rows, and those of formulas.

use crate::texts::{form_of, system_read};
use game::build::build;
use game::graph::{Game, GameBuilder};
use game::limits::MOST_VERTICES;
use game::player::Player;
use std::alloc::AllocError;
use std::sync::Arc;
use std::thread::Threads;

/// A vertex: its owner, its priority and its successors.
pub type GameRow = (Player, u8, &'static [u32]);

/// One more vertex. A builder that is full has no room for it.
pub fn push_row(
    builder: &mut GameBuilder,
    owner: Player,
    priority: u8,
    successors: &[u32],
) -> Result<(), AllocError> {
    if builder.vertices() >= MOST_VERTICES || successors.len() > MOST_VERTICES {
        return Err(AllocError);
    }
    builder.push(owner, priority, successors)
}

/// The game of these vertices, if they make one.
pub fn made(rt: &impl AllocGlobal, rows: &[GameRow]) -> Result<Option<Game>, AllocError> {
    let mut builder = GameBuilder::new(rt.alloc());
    for (owner, priority, successors) in rows {
        push_row(&mut builder, *owner, *priority, successors)?;
    }
    Ok(builder.finish())
}

/// The game of these vertices, which make one, where memory suffices.
pub fn game_of_rows(rt: &impl AllocGlobal, rows: &[GameRow]) -> Option<Game> {
    made(rt, rows).ok()?
}

/// The game of the texts of a system and of a formula, to be shared, where they are such and memory suffices.
pub fn shared_arena_of(
    rt: &(impl AllocGlobal + Threads + Sync),
    system: &str,
    formula: &str,
) -> Option<Arc<Game>> {
    let lts = system_read(rt.alloc(), system).ok()?;
    let form = form_of(rt.alloc(), formula)?;
    let game = build(rt, rt.alloc(), &lts, &form).ok()?;
    Arc::new(rt.alloc(), game).ok()
}
