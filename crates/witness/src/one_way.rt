// Evidence of a play that goes one way from each of its vertices.

ghost use Rattle.std.specs.Prelude.{◌≡◌, ◌<◌, IsTrue, length};
ghost use Rattle.witness.specs.Witness.{GoesOneWay, GoesOneWayFrom};

use evidence::evidence::Evidence;
use game::graph::Game;

// Whether the play goes one way from a vertex, if the evidence has it: its player owns it, or there is only one way on.
fn goes_one_way_from(game: &Game, evidence: &Evidence, v: u32) -> bool
    requires same { evidence.now.game ≡ game.now }
    requires vertex { v < length game.now.vertices }
    ensures { IsTrue result → GoesOneWayFrom game.now evidence.now.evidence v }
{
    !evidence.has(v) || game.successors(v).len() == 1 || game.owner(v) == evidence.player()
}

/// Whether the player of the evidence owns each of its vertices from which there is more than one way on. It takes no memory, and looks at each vertex
/// of the game once.
pub fn goes_one_way(game: &Game, evidence: &Evidence) -> bool
    requires { evidence.now.game ≡ game.now }
    ensures { IsTrue result → GoesOneWay game.now evidence.now.evidence }
{
    for v in 0..game.vertices() {
        if !goes_one_way_from(game, evidence, v) {
            return false;
        }
    }
    true
}
