//! Theorems about failure-free runs, and about how runs end. Each is a call without a body: calling one makes its
//! contract available.
ghost use Rattle.std.specs.Prelude.{◌≡◌, ℕ, List, ◌∷◌, ◌++◌, length, true, Some};
ghost use Rattle.iss_base.specs.Lists.{Extends};
ghost use Rattle.iss_composition.specs.Ordered.{Ordered};
ghost use Rattle.iss_request.specs.declared.requests.Value.{Value};
ghost use Rattle.iss_request.specs.declared.setups.Setup.{Setup};
ghost use Rattle.iss_sb.specs.Evidence.{delivered, is_correct};
ghost use Rattle.iss_schedule.specs.declared.schedules.Event.{Event};
ghost use Rattle.iss_theorems.specs.Casts.{AreCastsAccepted};
ghost use Rattle.iss_theorems.specs.Certified.{AreCertified};
ghost use Rattle.iss_theorems.specs.Ends.{AreWritten, HasEvidence};
ghost use Rattle.iss_theorems.specs.OneLog.{AreOfCluster, AreOneLog, free_after, shown};
ghost use Rattle.iss_rules.specs.Concrete.{rules_of};
ghost use Rattle.iss_rules.specs.Past.{Past, epoch_at, leader_at, log_of, params_at};
ghost use Rattle.iss_rules.specs.Rules.{Rules};
ghost use Rattle.iss_rules.specs.Setups.{IsSetupOf};
ghost use Rattle.iss_model.specs.Runs.{AreAtCores, IsPrefix, pasts_of};

use iss_composition::composition;
use iss_sb::Sequenced;

/// Every run refines moves of a cluster with the same books, up to the event that reveals a forged signature or a
/// collision. There the run stops (`reached`). So the composition theorem holds of it (`ordered`), and the logs of
/// correct nodes are prefixes of one log (`one_log`). More events only extend them (`grows`; ISS, whole protocol).
pub fn cluster_runs<M: Sequenced>()
    ensures reached { (s : Setup) → IsSetupOf M.spec s → (events : List Event) → AreAtCores s events →
        AreOfCluster s M.spec (free_after s M.spec events) }
    ensures ordered { (s : Setup) → IsSetupOf M.spec s → (events : List Event) → AreAtCores s events →
        Ordered s (rules_of s) M.spec (pasts_of (free_after s M.spec events).net) }
    ensures one_log { (s : Setup) → IsSetupOf M.spec s → (events : List Event) → AreAtCores s events →
        AreOneLog s M.spec (free_after s M.spec events) }
    ensures grows { (s : Setup) → IsSetupOf M.spec s → (events more : List Event) → AreAtCores s events →
        AreAtCores s more → (i : ℕ) → is_correct s i ≡ true →
        IsPrefix (shown s M.spec (free_after s M.spec events) i)
        (shown s M.spec (free_after s M.spec (events ++ more)) i) }
{
    M::laws();
    composition::<M>();
}

/// A true certificate whose correct signers are in the book describes the log of one of them at the end of the epoch,
/// and a correct node keeps no other. Each value that a correct node adopted was delivered by a correct node in the
/// slot's instance (ISS, checkpoints and state transfer).
pub fn certificates_are_of_logs<M: Sequenced>()
    ensures { (s : Setup) → IsSetupOf M.spec s → (events : List Event) → AreAtCores s events →
        AreCertified s M.spec (free_after s M.spec events) }
{
    M::laws();
}

/// Where a node's own instance delivered a value, its log holds that value, whatever it adopted.
pub fn deliveries_come_first<M: Sequenced>()
    ensures { (R : Rules) (me : ℕ) (c : Past M.Msg) (older : List Value) (v u : Value) →
        Extends (v ∷ older) (log_of R M.spec me c) →
        delivered M.spec (params_at R older) me (c.evidence (epoch_at R older) (leader_at R older)) (length older)
        ≡ Some u → v ≡ u }
{}

/// A batch that a core proposes is accepted: its module takes it at that slot, and its own judge does not refuse it.
pub fn casts_are_accepted<M: Sequenced>()
    ensures { (s : Setup) → IsSetupOf M.spec s → (events : List Event) → AreAtCores s events →
        AreCastsAccepted s M.spec (free_after s M.spec events) }
{
    M::laws();
}

/// The book holds every claim and every checkpoint vote that a correct node signed and sent.
pub fn books_are_complete<M: Sequenced>()
    ensures { (s : Setup) → IsSetupOf M.spec s → (events : List Event) → AreAtCores s events →
        AreWritten s M.spec (free_after s M.spec events) }
{
    M::laws();
}

/// A run that stops shows evidence: a valid signature of a correct node that the node never made, or two different
/// hashed strings with one digest. It is in what the event with that number gave to a core. Later events change
/// nothing.
pub fn runs_end_with_evidence<M: Sequenced>()
    ensures { (s : Setup) → IsSetupOf M.spec s → (events : List Event) → HasEvidence s M.spec events }
{}
