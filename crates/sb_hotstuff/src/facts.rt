//! The facts behind agreement, of each reachable world of an instance, in the order of the proof (HotStuff: Theorem 2,
//! safety). The functions compute nothing: their contracts are the theorems.
ghost use Rattle.hs_tree.specs.declared.messages.Message.{Message};
ghost use Rattle.iss_sb.specs.Calls.{IsGoodParams};
ghost use Rattle.iss_sb.specs.Evidence.{IsReached, IsString, Separate, World};
ghost use Rattle.iss_sb.specs.declared.effects.Params.{Params};
ghost use Rattle.sb_hotstuff.specs.Facts.{AreAgreed, AreBacked, AreCertified, AreExtending, AreFromLeader, AreOnce, AreRested, AreSafeVotes, HaveOneNode, HaveSharedAcceptor, VoteOnce};
ghost use Rattle.sb_hotstuff.specs.HotStuff.{hotstuff};

/// A correct replica votes at most once for a phase of a view, in views that never decrease.
pub fn votes_are_once_in_ascending_views()
    ensures { (p : Params) (w : World Message) → IsGoodParams hotstuff p → IsReached hotstuff p w → VoteOnce w }
{}

/// A valid certificate that a replica received is votes: each correct replica of some quorum sent the vote.
pub fn good_certificates_are_votes()
    ensures { (p : Params) (w : World Message) → IsGoodParams hotstuff p → IsReached hotstuff p w → AreCertified p w }
{}

/// A pre-commit vote implies a prepareQC for its node in its view, and a commit vote implies a precommitQC.
pub fn later_votes_rest_on_certificates()
    ensures { (p : Params) (w : World Message) → IsGoodParams hotstuff p → IsReached hotstuff p w → AreRested p w }
{}

/// After a commit vote in view u, each prepare vote respects a lock of a view from u on. Its node extends the locked
/// one, or its justification is above the lock (HotStuff: safeNode).
pub fn first_votes_respect_locks()
    ensures { (p : Params) (w : World Message) → IsGoodParams hotstuff p → IsReached hotstuff p w → AreSafeVotes p w }
{}

/// Two certificates of one view are for the same node, whatever their phases.
pub fn views_have_one_node()
    ensures { (p : Params) (w : World Message) → IsGoodParams hotstuff p → IsReached hotstuff p w → HaveOneNode p w }
{}

/// A node with a prepareQC extends each node with a commitQC of the same or an earlier view.
pub fn certified_nodes_extend_decided_ones()
    ensures { (p : Params) (w : World Message) → IsGoodParams hotstuff p → IsReached hotstuff p w → AreExtending p w }
{}

/// A delivered batch has prepare votes of a quorum, whose correct replicas accepted it at that slot.
pub fn a_quorum_accepted_what_is_delivered()
    ensures { (p : Params) (w : World Message) → IsGoodParams hotstuff p → IsReached hotstuff p w →
        Separate (IsString w) → AreBacked p w }
{}

/// Agreement: replicas that deliver a slot deliver the same value there.
pub fn nodes_agree()
    ensures { (p : Params) (w : World Message) → IsGoodParams hotstuff p → IsReached hotstuff p w →
        Separate (IsString w) → AreAgreed p w }
{}

/// For any two delivered batches, some correct replica accepted both.
pub fn batches_share_an_acceptor()
    ensures { (p : Params) (w : World Message) → IsGoodParams hotstuff p → IsReached hotstuff p w →
        Separate (IsString w) → HaveSharedAcceptor p w }
{}

/// If the segment's leader is correct, it accepted each delivered batch at its slot.
pub fn the_leader_accepted_what_is_delivered()
    ensures { (p : Params) (w : World Message) → IsGoodParams hotstuff p → IsReached hotstuff p w →
        Separate (IsString w) → AreFromLeader p w }
{}

/// If the segment's leader is correct, it accepts at most one batch at a slot.
pub fn batches_are_accepted_once()
    ensures { (p : Params) (w : World Message) → IsGoodParams hotstuff p → IsReached hotstuff p w →
        Separate (IsString w) → AreOnce p w }
{}
