// Vertices that are looked at without their game.

ghost use Rattle.std.specs.Prelude.{◌≡◌, ◌<◌};
ghost use Rattle.game.specs.Lent.{lent_vertex, turned};

use crate::player::Player;

/// A vertex that is lent: its owner, its priority, and its successors, ascending.
#[derive(Clone, Copy)]
pub struct VertexView<'a> {
    pub owner: Player,
    pub priority: u8,
    pub successors: &'a [u32],
}

impl VertexView<'_> {
    /// The vertex in the dual game.
    pub fn turned(self) -> Self
        requires { self.priority < 255 }
        ensures { lent_vertex result ≡ turned (lent_vertex self.entry) }
    {
        VertexView {
            owner: self.owner.opponent(),
            priority: self.priority + 1,
            ..self
        }
    }
}
