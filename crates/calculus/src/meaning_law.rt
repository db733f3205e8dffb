// What holds of the meaning of all formulas.

ghost use Rattle.calculus.specs.FixpointLaws.{MeaningIsDecided, BodyIsMonotone, IteratesReach, MuIsLeast, NuIsGreatest};

/// At each state a formula holds or not, and a test tells which.
pub fn meaning_is_decided()
    ensures { MeaningIsDecided }
{}

/// Below its binder, the meaning of an admitted formula grows with the set of the binder's variable.
pub fn body_is_monotone()
    ensures { BodyIsMonotone }
{}

/// For n states, n turns of a binder's iteration suffice.
pub fn iterates_reach()
    ensures { IteratesReach }
{}

/// A `mu` means the least fixpoint of its formula, and a `nu` the greatest (Kozen 1983).
pub fn binders_are_fixpoints()
    ensures least { MuIsLeast }
    ensures greatest { NuIsGreatest }
{}
