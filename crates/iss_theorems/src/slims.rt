//! What steps read of a core. A theorem, as a call without a body: calling it makes its contract available.
ghost use Rattle.std.specs.Prelude.{ℕ};
ghost use Rattle.iss_request.specs.declared.setups.Setup.{Setup};
ghost use Rattle.iss_rules.specs.Setups.{IsSetupOf};
ghost use Rattle.iss_model.specs.Slims.{StepsKeepPlaced, StepsRespectSlims};

use iss_sb::Sequenced;

/// Cores with equal slim parts take each event alike, and have equal slim parts again (`same`). So of earlier epochs a
/// replica needs the log and the certificates alone, and may retire its old instances. This holds of placed cores, as
/// are all cores that events lead to (`placed`).
pub fn steps_respect_slims<M: Sequenced>()
    ensures same { (s : Setup) → IsSetupOf M.spec s → StepsRespectSlims s M.spec }
    ensures placed { (s : Setup) → IsSetupOf M.spec s → StepsKeepPlaced s M.spec }
{}
