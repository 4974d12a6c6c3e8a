//! The facts behind agreement, of each reachable world of an instance, in the order of the proof (Raft: election
//! safety, log matching, leader completeness, state machine safety). The functions compute nothing: their contracts are
//! the theorems.
ghost use Rattle.iss_sb.specs.Calls.{IsGoodParams};
ghost use Rattle.iss_sb.specs.Evidence.{IsReached, World};
ghost use Rattle.iss_sb.specs.declared.effects.Params.{Params};
ghost use Rattle.raft_wire.specs.declared.messages.Message.{Message};
ghost use Rattle.sb_raft.specs.Facts.{AreAgreed, AreByFirst, AreFromLeader, AreKept, AreMatching, AreOnce, HaveOneLeader, HaveSharedAcceptor};
ghost use Rattle.sb_raft.specs.Raft.{raft};

/// Election safety: at most one node leads a term.
pub fn terms_have_one_leader()
    ensures { (p : Params) (w : World Message) → IsGoodParams raft p → IsReached raft p w → HaveOneLeader p w }
{}

/// Log matching: two logs with entries of the same term at an index are equal up to it.
pub fn logs_match()
    ensures { (p : Params) (w : World Message) → IsGoodParams raft p → IsReached raft p w → AreMatching p w }
{}

/// Leader completeness: what a node has committed is in the log of each leader of a later term.
pub fn later_leaders_keep_what_is_committed()
    ensures { (p : Params) (w : World Message) → IsGoodParams raft p → IsReached raft p w → AreKept p w }
{}

/// Only the leader of term 1 accepts batches, and it accepted each batch in a log.
pub fn the_first_leader_accepts()
    ensures { (p : Params) (w : World Message) → IsGoodParams raft p → IsReached raft p w → AreByFirst p w }
{}

/// A node accepts at most one batch at a slot, however often a batch is cast there.
pub fn batches_are_accepted_once()
    ensures { (p : Params) (w : World Message) → IsGoodParams raft p → IsReached raft p w → AreOnce p w }
{}

/// Agreement: nodes that deliver a slot deliver the same value there.
pub fn nodes_agree()
    ensures { (p : Params) (w : World Message) → IsGoodParams raft p → IsReached raft p w → AreAgreed p w }
{}

/// For any two delivered batches, some node accepted both.
pub fn batches_share_an_acceptor()
    ensures { (p : Params) (w : World Message) → IsGoodParams raft p → IsReached raft p w → HaveSharedAcceptor p w }
{}

/// The segment's leader accepted each delivered batch at its slot.
pub fn the_leader_accepted_what_is_delivered()
    ensures { (p : Params) (w : World Message) → IsGoodParams raft p → IsReached raft p w → AreFromLeader p w }
{}
