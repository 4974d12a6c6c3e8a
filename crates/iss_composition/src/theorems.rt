//! The composition theorem, as a call without a body: calling it makes its contract available.
ghost use Rattle.iss_request.specs.declared.setups.Setup.{Setup};
ghost use Rattle.iss_sb.specs.Evidence.{Separate};
ghost use Rattle.iss_composition.specs.Checkpoints.{scheme_of};
ghost use Rattle.iss_composition.specs.Cluster.{Cluster, Reach, Scheme};
ghost use Rattle.iss_rules.specs.SoundRules.{IsSoundRules};
ghost use Rattle.iss_composition.specs.Ordered.{Among, IsExact, Ordered};
ghost use Rattle.iss_rules.specs.Rules.{Rules};

use iss_sb::Sequenced;

/// Whatever the moves of a cluster over all its epochs, the logs of its correct nodes are prefixes of one log (ISS,
/// whole protocol). Moves are steps of instances, ends of epochs, and adopted epochs. `part` is for any exact scheme of
/// chains and votes; `whole` is for the set-up's own scheme, with no premise on signatures.
pub fn composition<M: Sequenced>()
    ensures part { (s : Setup) (S : Scheme) (R : Rules) → IsSoundRules s M.spec R → (w : Cluster M.Msg) →
        IsExact s S w → Separate (Among w.strings) → Reach s S R M.spec w → Ordered s R M.spec w.pasts }
    ensures whole { (s : Setup) (R : Rules) → IsSoundRules s M.spec R → (w : Cluster M.Msg) →
        Separate (Among w.strings) → Reach s (scheme_of s) R M.spec w → Ordered s R M.spec w.pasts }
{
    M::laws();
}
