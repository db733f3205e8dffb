// The two players.

ghost use Rattle.std.specs.Prelude.{◌≡◌};
ghost use Rattle.game.specs.Game.{opponent};

/// A player. Even wins a play whose greatest priority that is met again and again is even.
#[derive(Clone, Copy, Debug, PartialEq, Eq)]
pub enum Player {
    Even,
    Odd,
}

impl Player {
    /// The other player.
    pub fn opponent(self) -> Player
        ensures { result ≡ opponent self }
    {
        match self {
            Player::Even => Player::Odd,
            Player::Odd => Player::Even,
        }
    }
}
