//! Facts about every reachable world of an instance, in the order in which agreement follows from them. The functions
//! compute nothing: their contracts are the theorems.
ghost use Rattle.iss_sb.specs.Calls.{IsGoodParams};
ghost use Rattle.iss_sb.specs.Evidence.{IsReached, IsString, Separate, World};
ghost use Rattle.iss_sb.specs.declared.effects.Params.{Params};
ghost use Rattle.pbft_wire.specs.declared.messages.Message.{Message};
ghost use Rattle.sb_pbft.specs.Facts.{AreChosen, AreDecided, AreFixed, AreOnce, AreQuiet, AreRooted, AreShown, HaveOneDigest, HaveOneVote};
ghost use Rattle.sb_pbft.specs.Pbft.{pbft};

/// A correct replica votes once: all its PrePrepares of a view and slot have one digest, and also its Prepares and
/// its Commits.
pub fn nodes_vote_once()
    ensures { (p : Params) (w : World Message) → IsGoodParams pbft p → IsReached pbft p w → HaveOneVote p w }
{}

/// After its ViewChange for view v a replica sends no Commit of a view below v.
pub fn nodes_commit_nothing_below()
    ensures { (p : Params) (w : World Message) → IsGoodParams pbft p → IsReached pbft p w → AreQuiet p w }
{}

/// The ViewChange of a correct replica shows, for each slot that it committed in a lower view, a certificate of that
/// view or a higher one.
pub fn view_changes_show_what_is_committed()
    ensures { (p : Params) (w : World Message) → IsGoodParams pbft p → IsReached pbft p w → AreShown p w }
{}

/// Above view 0, each PrePrepare and Prepare of a correct replica is for the value that 2f+1 good ViewChanges choose.
pub fn proposals_are_choices()
    ensures { (p : Params) (w : World Message) → IsGoodParams pbft p → IsReached pbft p w → AreChosen p w }
{}

/// Valid prepared certificates of one view and slot have the same digest.
pub fn certificates_of_a_view_agree()
    ensures { (p : Params) (w : World Message) → IsGoodParams pbft p → IsReached pbft p w → HaveOneDigest p w }
{}

/// Once a view has decided a slot, each valid prepared certificate of the slot in that view or a higher one has the
/// decided digest.
pub fn later_views_keep_what_is_decided()
    ensures { (p : Params) (w : World Message) → IsGoodParams pbft p → IsReached pbft p w → AreFixed p w }
{}

/// What a correct replica delivers was decided in some view: 2f+1 replicas committed it there.
pub fn what_is_delivered_was_decided()
    ensures { (p : Params) (w : World Message) → IsGoodParams pbft p → IsReached pbft p w → AreDecided p w }
{}

/// If a valid prepared certificate holds a batch that a correct replica hashed, then 2f+1 replicas, the leader among
/// them, accepted the batch. This assumes that no two hashed strings have one digest.
pub fn batches_come_from_a_quorum()
    ensures { (p : Params) (w : World Message) → IsGoodParams pbft p → IsReached pbft p w → Separate (IsString w) →
        AreRooted p w }
{}

/// A replica accepts one batch for a slot, however often it receives it.
pub fn batches_are_accepted_once()
    ensures { (p : Params) (w : World Message) → IsGoodParams pbft p → IsReached pbft p w → AreOnce p w }
{}
