// Names of games in contracts.

ghost use Rattle.std.specs.Prelude.{[], None};
ghost use Rattle.game.specs.Game.{Game};

use std::marker::Brand;

/// Names one game to contracts. It has no function: a type that cannot hold a game names it by a type parameter.
pub trait GameName {
    ghost game: { Game };
}

impl GameName for Brand {
    ghost game = { record { vertices = []; named = None } };
}
