// Evidence of both players.

use crate::evidence::Evidence;

/// Evidence of Even and of Odd.
#[derive(Drop)]
pub struct EvidencePair {
    pub even: Evidence,
    pub odd: Evidence,
}
