//! Theorems about exported logs, each as a call without a body: calling one makes its contract available.
ghost use Rattle.std.specs.Prelude.{◌≡◌, ℕ, Bool, List, [], true};
ghost use Rattle.iss_audit.specs.Exports.{EachEpoch, IsCertifiedText};
ghost use Rattle.iss_audit.specs.declared.exports.CertifiedEpoch.{CertifiedEpoch};
ghost use Rattle.iss_audit.specs.declared.exports.Export.{Export};
ghost use Rattle.iss_certified.specs.Exported.{AreCertifiedIfShort, AreExported, IsRanged, certs_shown};
ghost use Rattle.iss_certified.specs.OfRun.{AreEnough, AreTrusted, IsOfRun};
ghost use Rattle.iss_model.specs.Runs.{AreAtCores};
ghost use Rattle.iss_request.specs.declared.setups.Setup.{Setup};
ghost use Rattle.iss_rules.specs.Setups.{IsSetupOf};
ghost use Rattle.iss_schedule.specs.Schedules.{IsKnown};
ghost use Rattle.iss_schedule.specs.declared.schedules.Event.{Event};
ghost use Rattle.iss_sb.specs.Evidence.{is_correct};
ghost use Rattle.iss_theorems.specs.Headline.{held_after, shown};

use iss_sb::Sequenced;
use iss_theorems::restarts_change_nothing;

/// What a correct node exports after a run is the text of a certified log, if it is short enough to be audited.
pub fn exports_are_certified<M: Sequenced>()
    ensures { (s : Setup) → IsSetupOf M.spec s → IsKnown s → (events : List Event) → AreAtCores s events →
        (i : ℕ) (silent : Bool) → is_correct s i ≡ true → (epochs : List CertifiedEpoch) →
        AreExported s (shown s M.spec (held_after s M.spec events) i)
        (certs_shown ((held_after s M.spec events).net.cores i) silent) epochs →
        EachEpoch (IsRanged s) [] epochs → AreCertifiedIfShort s epochs }
{
    M::laws();
    restarts_change_nothing::<M>();
}

/// What an auditor may conclude who trusts f + 1 nodes, and their keys, and no one else. A certified log under the
/// header of a run is a log of that run: one of the nodes that he trusts signed each epoch, and at the epoch's end the
/// log is a prefix of this node's log. Or the two logs show two different strings with one digest.
pub fn certified_logs_are_of_the_run<M: Sequenced>()
    ensures { (s : Setup) → IsSetupOf M.spec s → (events : List Event) → AreAtCores s events →
        (bytes : List ℕ) (x : Export) → IsCertifiedText bytes x → x.setup ≡ s →
        (trusted : List ℕ) → AreEnough s trusted → AreTrusted s (held_after s M.spec events) trusted x.epochs →
        EachEpoch (IsOfRun s M.spec (held_after s M.spec events) trusted) [] x.epochs }
{
    M::laws();
    restarts_change_nothing::<M>();
}
