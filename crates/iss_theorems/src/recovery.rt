//! Crash recovery. A theorem, as a call without a body: calling it makes its contract available.
ghost use Rattle.std.specs.Prelude.{List};
ghost use Rattle.iss_request.specs.declared.setups.Setup.{Setup};
ghost use Rattle.iss_schedule.specs.declared.schedules.Event.{Event};
ghost use Rattle.iss_model.specs.Runs.{AreAtCores};
ghost use Rattle.iss_rules.specs.Setups.{IsSetupOf};
ghost use Rattle.iss_theorems.specs.Headline.{IsWhole};

use crate::{
    books_are_complete, casts_are_accepted, certificates_are_of_logs, cluster_runs,
    leaves_sign_once, requests_are_conserved, runs_end_with_evidence,
};
use iss_composition::claims_are_of_one_instance;
use iss_sb::Sequenced;

/// The headline, with crash recovery (ISS, whole protocol). Disks may fail at any call, and cores are recovered from
/// what their disks kept. Such a run equals a failure-free run of the events that were journaled. What follows for
/// logs, instances, requests, checkpoints, signatures and evidence is told at `IsWhole` in `specs/Headline.antt`.
pub fn restarts_change_nothing<M: Sequenced>()
    ensures { (s : Setup) → IsSetupOf M.spec s → (events : List Event) → AreAtCores s events → IsWhole s M.spec events }
{
    cluster_runs::<M>();
    claims_are_of_one_instance::<M>();
    casts_are_accepted::<M>();
    certificates_are_of_logs::<M>();
    books_are_complete::<M>();
    leaves_sign_once::<M>();
    runs_end_with_evidence::<M>();
    requests_are_conserved::<M>();
}
