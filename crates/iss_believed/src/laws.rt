//! The headline for clients, as a call without a body.
ghost use Rattle.std.specs.Prelude.{List};
ghost use Rattle.iss_request.specs.declared.setups.Setup.{Setup};
ghost use Rattle.iss_rules.specs.Setups.{IsSetupOf};
ghost use Rattle.iss_schedule.specs.Events.{AreInRange};
ghost use Rattle.iss_schedule.specs.declared.schedules.Event.{Event};
ghost use Rattle.iss_believed.specs.Believed.{AreOfOneLog};

use iss_sb::Sequenced;
use iss_theorems::restarts_change_nothing;

/// The correct nodes of a run reply by one log. What a client accepts is that log's answer, whatever else it is told,
/// as long as no reply of a correct node is forged.
pub fn replies_are_of_one_log<M: Sequenced>()
    ensures { (s : Setup) → IsSetupOf M.spec s → (events : List Event) → AreInRange s events →
        AreOfOneLog s M.spec events }
{
    restarts_change_nothing::<M>();
}
