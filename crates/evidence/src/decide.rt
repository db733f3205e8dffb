// Who wins each vertex of a game, and evidence of it, by a guess of which a checker accepts evidence of both players.

ghost use Rattle.std.specs.Prelude.{◌≡◌, ◌<◌, IfOk, IfSome, IsTrue, length};
ghost use Rattle.calculus.specs.Meaning.{MarksOf};
ghost use Rattle.evidence.specs.Pair.{AreFull, AreOf};
ghost use Rattle.game.specs.Wins.{Wins};
ghost use Rattle.evidence.specs.Evidence.{has};
ghost use Rattle.evidence.specs.Laws.{IsSmall};

use crate::evidence::Evidence;
use crate::guessed::guessed_pair;
use crate::law::evidence_text_spells;
use crate::pair::EvidencePair;
use crate::small::is_small;
use crate::verdict::Both;
use crate::verify::check_both;
use game::gauge::Gauge;
use game::graph::Game;
use std::alloc::{AllocError, Global};

/// A mark for each vertex that Even's evidence has.
///
/// # Errors
/// Out of memory.
pub fn set_marks(alloc: Global, game: &Game, even: &Evidence) -> Result<Vec<bool>, AllocError>
    requires same { even.now.game ≡ game.now }
    ensures { IfOk result (λ marks. MarksOf (length game.now.vertices) marks.items (λ v. IsTrue (has even.now.evidence v))) }
{
    let vertices = game.vertices();
    let mut marks = Vec::with_capacity(alloc, vertices as usize)?;
    for v in 0..vertices {
        marks.push(even.has(v))?;
    }
    Ok(marks)
}

/// A mark for each vertex, true where Even wins it, by evidence that is guessed. There is none where there is no such evidence, or where memory runs out.
pub fn certified_winners(alloc: Global, game: &Game, gauge: Option<&Gauge>) -> Option<Vec<bool>>
    ensures { IfSome result (λ marks. MarksOf (length game.now.vertices) marks.items (Wins game.now)) }
{
    let pair = certified_evidence(alloc, game, gauge)?;
    match set_marks(alloc, game, &pair.even) {
        Ok(marks) => Some(marks),
        Err(AllocError) => None,
    }
}

// A pair that the checker accepts, where no vertex is left out, and its texts can be read again.
fn checked_pair(game: &Game, pair: EvidencePair) -> Option<EvidencePair>
    requires { AreOf game.now pair }
    ensures { IfSome result (AreFull game.now) }
{
    evidence_text_spells();
    game.known();
    pair.even.known();
    pair.odd.known();
    let both = check_both(game, &pair.even, &pair.odd);
    if matches!(both, Both::Yes) && are_small(game, &pair) {
        Some(pair)
    } else {
        None
    }
}

// Whether the texts of both can be read again.
fn are_small(game: &Game, pair: &EvidencePair) -> bool
    requires { AreOf game.now pair.now }
    ensures even { IsTrue result → IsSmall pair.now.even.evidence }
    ensures odd { IsTrue result → IsSmall pair.now.odd.evidence }
{
    let vertices = game.vertices();
    is_small(&pair.even, vertices) && is_small(&pair.odd, vertices)
}

/// Evidence of all that each player wins, by a guess of winners, moves and ranks. There is none where the checker refuses the evidence that is
/// made of the guess, where a count is too great for its text, where the guess took too long, or where memory runs out. A gauge shows how far the guess has
/// come.
pub fn certified_evidence(alloc: Global, game: &Game, gauge: Option<&Gauge>) -> Option<EvidencePair>
    ensures { IfSome result (AreFull game.now) }
{
    let pair = guessed_pair(alloc, game, gauge)?;
    checked_pair(game, pair)
}
