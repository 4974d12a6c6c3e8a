//! Chained HotStuff without one of its rules. The function computes nothing: its contract is the theorem.
ghost use Rattle.counterexamples.specs.Chained.{without_views};
ghost use Rattle.sb_chained.specs.Variants.{IsNotSafe};

/// A node's digest must show its view. Here a node that is proposed again in a later view is the same node, so two
/// replicas see three nodes of consecutive views whose certificates are of other views. They deliver nil and a batch.
/// (That three nodes must have consecutive views is `sb_chained::commits_need_consecutive_views`.)
pub fn chained_needs_views_in_digests()
    ensures { IsNotSafe without_views }
{}
