//! HotStuff without one of its rules. The function computes nothing: its contract is the theorem.
ghost use Rattle.counterexamples.specs.Hotstuff.{without_safe_test};
ghost use Rattle.sb_chained.specs.Variants.{IsNotSafe};

/// A vote must pass the safe test: the node extends the lock, or its certificate is above the lock. Here a Byzantine
/// leader has a batch committed, on which two replicas are locked, and one delivers it. In its next round it proposes
/// nil at the same slot. A locked replica votes for it, so another delivers nil.
pub fn hotstuff_needs_the_safe_test()
    ensures { IsNotSafe without_safe_test }
{}
