//! The laws of chained HotStuff. The functions compute nothing: their contracts are the theorems.
ghost use Rattle.std.specs.Prelude.{◌≡◌, ℕ, false};
ghost use Rattle.iss_request.specs.Fields.{IsGrammar};
ghost use Rattle.iss_sb.specs.Laws.{IsLawful, IsSafe, SignsOnce};
ghost use Rattle.sb_chained.specs.Chained.{chained};
ghost use Rattle.sb_chained.specs.Variants.{IsNotSafe, loose};

/// Every reachable world is a broadcast, over any number of rounds, unless SHA-256 collides on its strings.
pub fn chained_is_safe()
    ensures { IsSafe chained }
{}

/// Its steps meet the laws of single steps.
pub fn chained_is_lawful()
    ensures { IsLawful chained }
{}

/// Each leaf that a step uses signs one statement.
pub fn chained_signs_once()
    ensures { SignsOnce chained }
{}

/// Its tag and kind, and that a message has one encoding in each version.
pub fn chained_has_a_grammar()
    ensures tagged { chained.tag ≡ 5 }
    ensures stopping { chained.stopping ≡ false }
    ensures grammar { (version : ℕ) → IsGrammar (chained.spell version) (chained.parse version) }
{}

/// Without consecutive views commits are not safe: in some reachable world the variant that commits the grandparent of
/// any certified node makes two correct replicas deliver different values.
pub fn commits_need_consecutive_views()
    ensures { IsNotSafe loose }
{}
