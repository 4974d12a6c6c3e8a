//! PBFT without one of its rules. The functions compute nothing: their contracts are the theorems.
ghost use Rattle.counterexamples.specs.Pbft.{by_the_lowest, counting_votes};
ghost use Rattle.iss_sb.specs.Laws.{IsSafe};

/// Votes must be of distinct replicas. Here replica 3 repeats its Prepare and its Commit until replica 1 delivers a
/// batch. Nobody else heard of it, so the next view chooses nil, which replica 2 delivers.
pub fn pbft_needs_distinct_voters()
    ensures { IsSafe counting_votes → ⊥ }
{}

/// A new view must propose the value of the highest certificate. Here view 1 decides nil, of which two replicas have
/// certificates. The Byzantine primary of view 3 also shows a certificate of view 0 for a batch. That one is lower, so
/// view 3 decides the batch.
pub fn pbft_needs_the_highest_certificate()
    ensures { IsSafe by_the_lowest → ⊥ }
{}
