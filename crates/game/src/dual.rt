// The game with the players exchanged.

ghost use Rattle.std.specs.Prelude.{◌≡◌, ◌≤◌, IfOk, IsOkUnless};
ghost use Rattle.game.specs.Game.{dual as dual_of, greatest};

use crate::error::BuildError;
use crate::graph::{Game, GameBuilder};
use crate::player::Player;
use calculus::limits::GREATEST_PRIORITY;
use std::alloc::Global;

/// The greatest priority that a vertex of the game has, and 0 where there is no vertex. It takes no look at the vertices.
pub fn greatest_priority(game: &Game) -> u32
    ensures { result ≡ greatest game.now }
{
    game.greatest()
}

/// The other player owns each vertex, and each priority is one more, so that the other player wins where one did. The
/// vertices have no names.
///
/// # Errors
/// Out of memory, B2, and nothing else.
pub fn dual(alloc: Global, game: &Game) -> Result<Game, BuildError>
    requires { greatest game.now ≤ GREATEST_PRIORITY }
    ensures game { IfOk result (λ g. g ≡ dual_of game.now) }
    ensures memory { IsOkUnless result BuildError.Memory }
{
    game.known();
    let mut builder = GameBuilder::new(alloc);
    for v in 0..game.vertices() {
        let owner = game.owner(v).opponent();
        builder.push(owner, game.priority(v) + 1, game.successors(v))?;
    }
    Ok(builder.into_game())
}
