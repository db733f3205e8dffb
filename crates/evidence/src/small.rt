// Whether evidence has a text that is read again.

ghost use Rattle.std.specs.Prelude.{◌≡◌, ◌<◌, ◌≤◌, Some, IsTrue, length};
ghost use Rattle.std.specs.List.{AllByRecursion};
ghost use Rattle.evidence.specs.Evidence.{Entry, entry_at};
ghost use Rattle.evidence.specs.Laws.{IsSmall};

use crate::evidence::Evidence;
use crate::limits::GREATEST_COUNT;

// Whether no count of the rank is above the limit of the texts.
fn are_small(rank: &[u32]) -> bool
    ensures { IsTrue result → AllByRecursion (λ k. k ≤ GREATEST_COUNT) rank.now }
{
    for count in rank {
        if *count > GREATEST_COUNT {
            return false;
        }
    }
    true
}

// Whether none is in the rank of the vertex, if it is in the set.
fn is_small_at(evidence: &Evidence, v: u32) -> bool
    requires { v < length evidence.now.game.vertices }
    ensures { IsTrue result → (x : Entry) → entry_at evidence.now.evidence v ≡ Some x → AllByRecursion (λ k. k ≤ GREATEST_COUNT) x.rank }
{
    match evidence.get(v) {
        Some(entry) => are_small(entry.rank),
        None => true,
    }
}

// Whether none is in any rank of evidence for a game with so many vertices.
pub(crate) fn is_small(evidence: &Evidence, vertices: u32) -> bool
    requires { vertices ≡ length evidence.now.game.vertices }
    ensures { IsTrue result → IsSmall evidence.now.evidence }
{
    evidence.known();
    for v in 0..vertices {
        if !is_small_at(evidence, v) {
            return false;
        }
    }
    true
}
