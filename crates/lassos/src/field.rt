// Where a play can go on in which the winner alone chooses.

use crate::ball::Place;
use calculus::node::{Kind, Node};
use game::graph::Game;
use game::player::Player;

// The first vertex that is no sink, in a game of states with nodes.
const FIRST_PLACE: u32 = 2;

/// A game of states with these nodes, and a player who wins some of it.
#[derive(Clone, Copy)]
pub(crate) struct Field<'g> {
    pub(crate) game: &'g Game,
    pub(crate) nodes: &'g [Node],
    pub(crate) player: Player,
}

impl<'g> Field<'g> {
    /// What is known of a vertex that the player wins, and where a play can go on from it, if the player wins there, too: to each successor of the player's
    /// own vertices, and to the only one of the opponent's. No play goes on where the opponent has a choice.
    pub(crate) fn place(self, vertex: u32) -> Option<(Place, &'g [u32])> {
        if vertex >= self.game.vertices() {
            return None;
        }
        let ways = self.game.successors(vertex);
        let place = Place {
            vertex,
            priority: self.game.priority(vertex),
            is_step: self.is_modal(vertex) && matches!(ways, [t, ..] if *t >= FIRST_PLACE),
            ..Place::default()
        };
        (ways.len() == 1 || self.game.owner(vertex) == self.player).then_some((place, ways))
    }

    // Whether the node of a vertex is a modality.
    fn is_modal(self, v: u32) -> bool {
        let place = v.saturating_sub(FIRST_PLACE) as usize;
        let node = place.checked_rem(self.nodes.len()).unwrap_or(0);
        match self.nodes.get(node) {
            Some(node) => matches!(node.kind, Kind::Dia(_, _) | Kind::Box(_, _)),
            None => false,
        }
    }
}

/// Whether a player wins where this priority is the greatest that is met again and again.
pub(crate) fn wins_by(player: Player, priority: u8) -> bool {
    (priority % 2 == 1) == (player == Player::Odd)
}
