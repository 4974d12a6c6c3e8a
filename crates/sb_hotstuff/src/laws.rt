//! The laws of HotStuff as an ordering module. The functions compute nothing: their contracts are the theorems.
ghost use Rattle.std.specs.Prelude.{◌≡◌, ℕ, false};
ghost use Rattle.iss_request.specs.Fields.{IsGrammar};
ghost use Rattle.iss_sb.specs.Laws.{IsLawful, IsSafe};
ghost use Rattle.sb_hotstuff.specs.HotStuff.{hotstuff};

/// Each reachable world has the safety properties of Sequenced Broadcast, over any number of rounds, unless SHA-256
/// collides on its strings.
pub fn hotstuff_is_safe()
    ensures { IsSafe hotstuff }
{}

/// The steps meet the laws of single steps that each module proves.
pub fn hotstuff_is_lawful()
    ensures { IsLawful hotstuff }
{}

/// The module's tag and fault model. In each format version a message has at most one encoding, and none is a prefix of
/// another.
pub fn hotstuff_has_a_grammar()
    ensures tagged { hotstuff.tag ≡ 4 }
    ensures stopping { hotstuff.stopping ≡ false }
    ensures grammar { (version : ℕ) → IsGrammar (hotstuff.spell version) (hotstuff.parse version) }
{}
