//! What the definition of reach has.

ghost use Rattle.cap_reach.specs.Computed.{ReachIsComputed};
ghost use Rattle.cap_reach.specs.Laws.{ReachIsOne, ReachIsLeast};

/// States that there is one list alone of all that is reached, that it is the least closed one, and that `reach_of`
/// computes it. It computes nothing itself.
pub fn reach_laws()
    ensures one { ReachIsOne }
    ensures least { ReachIsLeast }
    ensures computed { ReachIsComputed }
{}
