// What holds of all normal forms.

ghost use Rattle.normal.specs.Laws.{PriorityWithinDepth, CountIsSize, DependentIsLower};

/// The greatest priority, nested or dependent, is at most the depth.
pub fn priority_within_depth()
    ensures { PriorityWithinDepth }
{}

/// A formula's normal form has as many nodes as are counted without making it.
pub fn count_is_size()
    ensures { CountIsSize }
{}

/// No node's dependent priority is above its nested one.
#[tactic(auto, using(crate::proofs::Depth::dependent_is_lower))]
pub fn dependent_is_lower()
    ensures { DependentIsLower }
{}
