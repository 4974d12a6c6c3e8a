//! No request is lost. A theorem, as a call without a body: calling it makes its contract available.
ghost use Rattle.std.specs.Prelude.{List};
ghost use Rattle.iss_request.specs.declared.setups.Setup.{Setup};
ghost use Rattle.iss_schedule.specs.declared.schedules.Event.{Event};
ghost use Rattle.iss_theorems.specs.Conserved.{IsConserved};
ghost use Rattle.iss_rules.specs.Setups.{IsSetupOf};
ghost use Rattle.iss_model.specs.Runs.{AreAtCores};

use iss_sb::Sequenced;

/// No request is lost or duplicated. Each request that a correct core accepted is in exactly one place: its log, the
/// waiting requests, or a batch in flight (ISS, conservation).
pub fn requests_are_conserved<M: Sequenced>()
    ensures { (s : Setup) → IsSetupOf M.spec s → (events : List Event) → AreAtCores s events →
        IsConserved s M.spec events }
{
    M::laws();
}
