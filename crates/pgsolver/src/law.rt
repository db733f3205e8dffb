// What holds of all texts of games.

ghost use Rattle.pgsolver.specs.Laws.{OneGame, NoPgFault, OnePgFault, GameTextIsDecided, GameTextSpells};

/// A text spells at most one game.
pub fn one_game()
    ensures { OneGame }
{}

/// A text that spells a game has no deciding fault.
pub fn no_pg_fault()
    ensures { NoPgFault }
{}

/// A text has at most one deciding fault, at one line.
pub fn one_pg_fault()
    ensures { OnePgFault }
{}

/// A text spells a game, or a fault decides: with the laws above, one of the two and just one of its kind.
pub fn game_text_is_decided()
    ensures { GameTextIsDecided }
{}

/// The canonical text of a game spells the game without its names, and by `one_game` no other: what is written is read again.
pub fn game_text_spells()
    ensures { GameTextSpells }
{}
