//! The laws of Raft as an ordering module. The functions compute nothing: their contracts are the theorems.
ghost use Rattle.std.specs.Prelude.{◌≡◌, ◌<◌, ℕ, List, true};
ghost use Rattle.iss_request.specs.Fields.{IsGrammar};
ghost use Rattle.iss_sb.specs.Calls.{IsGoodParams};
ghost use Rattle.iss_sb.specs.Evidence.{Item};
ghost use Rattle.iss_sb.specs.declared.effects.Params.{Params};
ghost use Rattle.raft_wire.specs.declared.messages.Message.{Message};
ghost use Rattle.sb_raft.specs.Committed.{IsCommitted};
ghost use Rattle.iss_sb.specs.Laws.{IsLawful, IsSafe};
ghost use Rattle.sb_raft.specs.Raft.{commit, raft};

/// Each reachable world has the safety properties of Sequenced Broadcast, over any number of terms.
pub fn raft_is_safe()
    ensures { IsSafe raft }
{}

/// The steps meet the laws of single steps that each module proves.
pub fn raft_is_lawful()
    ensures { IsLawful raft }
{}

/// The module's tag and fault model. In each format version a message has at most one encoding, and none is a prefix of
/// another.
pub fn raft_has_a_grammar()
    ensures tagged { raft.tag ≡ 2 }
    ensures stopping { raft.stopping ≡ true }
    ensures grammar { (version : ℕ) → IsGrammar (raft.spell version) (raft.parse version) }
{}

/// For each history, the commit index is the greatest index that may be committed.
pub fn the_greatest_is_committed()
    ensures { (p : Params) (me : ℕ) (xs : List (Item Message)) → IsGoodParams raft p → me < p.setup.n →
        IsCommitted p me xs (commit p me xs) }
{}
