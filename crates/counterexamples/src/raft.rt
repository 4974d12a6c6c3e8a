//! Raft without two of its rules. The function computes nothing: its contract is the theorem.
ghost use Rattle.counterexamples.specs.Raft.{counting_older_terms};
ghost use Rattle.sb_chained.specs.Variants.{IsNotSafe};

/// A leader must append an entry of its own term at once, or not commit an older entry because a quorum holds it. Here
/// it does neither (Ongaro and Ousterhout, "In Search of an Understandable Consensus Algorithm", figure 8). Node 0
/// copies its batch of term 1 to node 2 in term 3, and delivers it. Node 1 has nil of term 2, so node 2 votes for it in
/// term 4 and replaces the batch.
pub fn raft_needs_entries_of_the_own_term()
    ensures { IsNotSafe counting_older_terms }
{}
