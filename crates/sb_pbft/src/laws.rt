//! The laws of PBFT. The functions compute nothing: their contracts are the theorems.
ghost use Rattle.std.specs.Prelude.{◌≡◌, ℕ, false, List};
ghost use Rattle.iss_request.specs.Fields.{IsGrammar};
ghost use Rattle.iss_sb.specs.Calls.{IsGoodParams};
ghost use Rattle.iss_sb.specs.Evidence.{Item};
ghost use Rattle.iss_sb.specs.Laws.{IsLawful, IsSafe};
ghost use Rattle.iss_sb.specs.declared.effects.Input.{Input};
ghost use Rattle.iss_sb.specs.declared.effects.Params.{Params};
ghost use Rattle.pbft_wire.specs.declared.messages.Message.{Message};
ghost use Rattle.sb_pbft.specs.Pbft.{pbft};
ghost use Rattle.sb_pbft.specs.Internal.Turns.{TurnsTo, model, turn};

/// Safety: every reachable world is a Sequenced Broadcast (ISS), over any number of views, whatever Byzantine
/// replicas send.
pub fn pbft_is_safe()
    ensures { IsSafe pbft }
{}

/// The laws of single steps hold of each step of PBFT.
pub fn pbft_is_lawful()
    ensures { IsLawful pbft }
{}

/// The module's tag, its fault model (Byzantine), and that a message has one encoding in each version of the formats.
pub fn pbft_has_a_grammar()
    ensures tagged { pbft.tag ≡ 3 }
    ensures stopping { pbft.stopping ≡ false }
    ensures grammar { (version : ℕ) → IsGrammar (pbft.spell version) (pbft.parse version) }
{}

/// The state represents the history: `turn` computes from the state alone the step that the definitions compute from
/// the whole history.
pub fn turns_are_as_defined()
    ensures { (p : Params) (me : ℕ) (xs : List (Item Message)) (i : Input Message) (leaf : ℕ) → IsGoodParams pbft p →
        TurnsTo p me xs i leaf (turn p me leaf (model p me xs) i) }
{}
