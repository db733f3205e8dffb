// The labels of a system in the order of how many transitions have them.

ghost use Rattle.std.specs.Prelude.{◌≡◌, ◌<◌, ◌≤◌, IfOk, length, map};
ghost use Rattle.std.specs.List.{AllByRecursion, range_with_len};
ghost use Rattle.commands.specs.Ranking.{IsRanking, counted_at, times_among};

use std::alloc::{AllocError, Global};
use std::cmp::Reverse;
use systems::limits::MOST_TRANSITIONS;
use systems::system::{Lts, Transition};

/// A label by its number, and how many transitions have it: the more frequent one comes first.
#[derive(Clone, Copy, PartialEq, Eq, PartialOrd, Ord)]
pub(crate) struct Counted {
    pub count: Reverse<u32>,
    pub number: u32,
}

/// How many of the transitions have each of so many labels, by number.
fn counts_of(
    alloc: Global,
    labels: usize,
    transitions: &[Transition],
) -> Result<Vec<u32>, AllocError>
    requires inside { AllByRecursion (λ t. t.label < labels) transitions.now }
    requires few { length transitions.now ≤ MOST_TRANSITIONS }
    ensures { IfOk result (λ counts. counts.items ≡ map (times_among transitions.now) (range_with_len 0 labels)) }
{
    let mut counts = vec![in alloc; 0; labels]?;
    for transition in transitions {
        counts[transition.label as usize] += 1;
    }
    Ok(counts)
}

/// The labels with their counts, by number. Where a number did not fit, there would be no room for the counts either.
fn numbered(alloc: Global, counts: &[u32]) -> Result<Vec<Counted>, AllocError>
    ensures { IfOk result (λ counted. counted.items ≡ map (counted_at counts.now) (range_with_len 0 (length counts.now))) }
{
    let mut counted = Vec::with_capacity(alloc, counts.len())?;
    for (number, count) in counts.iter().enumerate() {
        let Ok(number) = u32::try_from(number) else {
            return Err(AllocError);
        };
        counted.push(Counted {
            count: Reverse(*count),
            number,
        })?;
    }
    Ok(counted)
}

/// The labels of a system, the most frequent first, and those that are as frequent in the order of their bytes.
///
/// # Errors
/// Out of memory, and nothing else.
pub(crate) fn ranked_labels(alloc: Global, lts: &Lts) -> Result<Vec<Counted>, AllocError>
    ensures { IfOk result (λ ranked. IsRanking lts.now ranked.items) }
{
    let counts = counts_of(alloc, lts.labels(), lts.all())?;
    let mut ranked = numbered(alloc, &counts)?;
    ranked.sort_unstable();
    Ok(ranked)
}
