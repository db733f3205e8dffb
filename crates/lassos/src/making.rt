// Evidence of a play that goes one way from each of its vertices.

ghost use Rattle.std.specs.Prelude.{◌≡◌, ◌<◌, IfOk, IfSome, IsTrue, length};
ghost use Rattle.evidence.specs.Evidence.{IsGood, counted, has as has_entry};
ghost use Rattle.game.specs.Arena.{arena};
ghost use Rattle.calculus.specs.Normal.{normal_nodes};
ghost use Rattle.witness.specs.Witness.{GoesOneWay, root_of};

use crate::ball::{LOST, UNMET};
use crate::field::{Field, wins_by};
use crate::finding::find_lasso;
use calculus::form::Normal;
use evidence::evidence::Evidence;
use evidence::verdict::Verdict;
use evidence::verify::verify;
use game::graph::Game;
use game::list::List;
use game::player::Player;
use lts::Lts;
use std::alloc::Global;
use text::Memory;
use witness::one_way::goes_one_way;
use witness::part::{has_root, root_vertex};

// For each vertex that the player wins that it is unmet, and for the others that they are lost.
fn unmet_places(alloc: Global, even_wins: &[bool], player: Player) -> List<u32> {
    let mut places = List::none(alloc);
    for is_even in even_wins {
        let is_won = *is_even == (player == Player::Even);
        places.push(if is_won { UNMET } else { LOST });
    }
    places
}

// The rank of a vertex of this priority, of the rank of the one to which it leads: counts of lower priorities begin anew, and one of its own rises.
fn count_on(player: Player, priority: u8, rank: &mut [u32]) {
    let below = match player {
        Player::Even => priority / 2,
        Player::Odd => priority.saturating_add(1) / 2,
    };
    let kept = rank.len().saturating_sub(below as usize);
    for count in rank.iter_mut().skip(kept) {
        *count = 0;
    }
    if !wins_by(player, priority) {
        if let Some(count) = rank.get_mut(kept.saturating_sub(1)) {
            *count = count.saturating_add(1);
        }
    }
}

// Evidence of a player with the vertices of a play, and no others. The first ones are a loop that is gone round twice: their ranks are right the second time
// that they are put.
fn evidence_of(
    alloc: Global,
    game: &Game,
    play_back: &[u32],
    player: Player,
) -> Result<Evidence, Memory>
    ensures { IfOk result (λ e. e.game ≡ game.now) }
{
    let mut evidence = Evidence::none(alloc, game, player)?;
    let mut rank = vec![in alloc; 0; evidence.width()]?;
    let mut next = u32::MAX;
    for v in play_back {
        let v = *v;
        if v < game.vertices() {
            count_on(player, game.priority(v), rank.as_mut_slice());
            let is_own = game.owner(v) == player && next < game.vertices();
            evidence.put(v, is_own.then_some(next), rank.as_slice());
        }
        next = v;
    }
    Ok(evidence)
}

/// Good evidence of the player who wins the vertex of the initial state with the root, where a play is found there that goes one way from each of its
/// vertices: a path into a loop. It has as few transitions as are found. A mark for each vertex, true for Even, guesses who wins it. Where the guess is wrong,
/// or a mark is missing, a play may not be found.
///
/// # Errors
/// Out of memory.
pub fn one_way_evidence(
    alloc: Global,
    system: &Lts,
    normal: &Normal,
    game: &Game,
    even_wins: &[bool],
) -> Result<Option<Evidence>, Memory>
    requires { game.now ≡ arena system.now.system (normal_nodes normal.now) }
    ensures game { IfOk result (λ found. IfSome found (λ e. e.game ≡ game.now)) }
    ensures good { IfOk result (λ found. IfSome found (λ e. IsGood game.now e.evidence)) }
    ensures root { IfOk result (λ found. IfSome found (λ e. IsTrue (has_entry e.evidence (root_of system.now.system (normal_nodes normal.now))))) }
    ensures one { IfOk result (λ found. IfSome found (λ e. GoesOneWay game.now e.evidence)) }
{
    let root = root_vertex(system, normal, game);
    let player = if even_wins.get(root as usize).copied().unwrap_or(false) {
        Player::Even
    } else {
        Player::Odd
    };
    let field = Field {
        game,
        nodes: normal.nodes(),
        player,
    };
    let places = unmet_places(alloc, even_wins, player);
    let play_back = find_lasso(alloc, field, places, root)?;
    if play_back.is_empty() {
        return Ok(None);
    }
    let evidence = evidence_of(alloc, game, play_back.as_slice(), player)?;
    if has_root(system, normal, game, &evidence)
        && goes_one_way(game, &evidence)
        && verify(game, &evidence) == Verdict::Good
    {
        Ok(Some(evidence))
    } else {
        Ok(None)
    }
}
