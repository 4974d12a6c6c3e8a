//! The facts behind agreement, of each reachable world of an instance, in the order of the proof (HotStuff: Theorem 2,
//! safety). The functions compute nothing: their contracts are the theorems.
ghost use Rattle.hs_tree.specs.declared.messages.Message.{Message};
ghost use Rattle.iss_sb.specs.Calls.{IsGoodParams};
ghost use Rattle.iss_sb.specs.Evidence.{IsReached, IsString, Separate, World};
ghost use Rattle.iss_sb.specs.declared.effects.Params.{Params};
ghost use Rattle.sb_chained.specs.Chained.{chained};
ghost use Rattle.sb_chained.specs.Facts.{AreAgreed, AreBacked, AreCertified, AreDecided, AreExtending, AreFromLeader, AreOnce, AreSafeVotes, AreStanding, HaveOneNode, HaveSharedAcceptor, VoteOnce};

/// A correct replica votes at most once a view, in ascending views.
pub fn votes_are_once_in_ascending_views()
    ensures { (p : Params) (w : World Message) → IsGoodParams chained p → IsReached chained p w → VoteOnce w }
{}

/// The node of a vote has the vote's view. Its parent is the root, or has a certificate of a lower view.
pub fn votes_stand_on_certificates()
    ensures { (p : Params) (w : World Message) → IsGoodParams chained p → IsReached chained p w → AreStanding p w }
{}

/// A valid certificate that a replica received is votes: each correct replica of some quorum sent the vote.
pub fn good_certificates_are_votes()
    ensures { (p : Params) (w : World Message) → IsGoodParams chained p → IsReached chained p w → AreCertified p w }
{}

/// Two certificates of one view are for the same node.
pub fn views_have_one_node()
    ensures { (p : Params) (w : World Message) → IsGoodParams chained p → IsReached chained p w → HaveOneNode p w }
{}

/// A vote locks its node's grandparent. The node of each later vote extends that of a lock at or above it, or its
/// parent is certified above that lock (HotStuff: safeNode). The one exception is a view's own leader, whose node a
/// quorum certified without it.
pub fn votes_respect_locks()
    ensures { (p : Params) (w : World Message) → IsGoodParams chained p → IsReached chained p w →
        Separate (IsString w) → AreSafeVotes p w }
{}

/// A committed node is the lowest of three of consecutive views, of which the highest is certified. Each node certified
/// in its view or a later one extends it.
pub fn certified_nodes_extend_committed_ones()
    ensures { (p : Params) (w : World Message) → IsGoodParams chained p → IsReached chained p w →
        Separate (IsString w) → AreExtending p w }
{}

/// What is delivered at a slot stands there on the branch of a committed node.
pub fn what_is_delivered_is_committed()
    ensures { (p : Params) (w : World Message) → IsGoodParams chained p → IsReached chained p w →
        Separate (IsString w) → AreDecided p w }
{}

/// A delivered batch has votes of a quorum, whose correct replicas accepted it at that slot.
pub fn a_quorum_accepted_what_is_delivered()
    ensures { (p : Params) (w : World Message) → IsGoodParams chained p → IsReached chained p w →
        Separate (IsString w) → AreBacked p w }
{}

/// Agreement: replicas that deliver a slot deliver the same value there.
pub fn nodes_agree()
    ensures { (p : Params) (w : World Message) → IsGoodParams chained p → IsReached chained p w →
        Separate (IsString w) → AreAgreed p w }
{}

/// For any two delivered batches, some correct replica accepted both.
pub fn batches_share_an_acceptor()
    ensures { (p : Params) (w : World Message) → IsGoodParams chained p → IsReached chained p w →
        Separate (IsString w) → HaveSharedAcceptor p w }
{}

/// If the segment's leader is correct, it accepted each delivered batch at its slot.
pub fn the_leader_accepted_what_is_delivered()
    ensures { (p : Params) (w : World Message) → IsGoodParams chained p → IsReached chained p w →
        Separate (IsString w) → AreFromLeader p w }
{}

/// If the segment's leader is correct, it accepts at most one batch at a slot.
pub fn batches_are_accepted_once()
    ensures { (p : Params) (w : World Message) → IsGoodParams chained p → IsReached chained p w →
        Separate (IsString w) → AreOnce p w }
{}
