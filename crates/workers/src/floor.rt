// What all workers share.

use crate::jobs::Other;
use crate::rest::Rest;
use crate::watched::Watched;
use game::graph::Game;
use game::name::GameName;
use game::predecessors::Predecessors;

/// A game, its predecessors and its board, what is told of turns, a handle to each worker's deque, the vertices that are pending, and who
/// rests.
#[derive(Drop)]
pub(crate) struct Floor<'a, K: GameName, B, G, O, M> {
    pub(crate) game: &'a Game,
    pub(crate) predecessors: &'a Predecessors,
    pub(crate) board: &'a B,
    pub(crate) watched: &'a Watched<'a, G, O>,
    pub(crate) others: &'a [Other<K>],
    pub(crate) marks: &'a M,
    pub(crate) rest: &'a Rest,
}
