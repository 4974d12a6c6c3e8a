//! One-time keys. A theorem, as a call without a body: calling it makes its contract available.
ghost use Rattle.std.specs.Prelude.{ℕ, List};
ghost use Rattle.iss_request.specs.declared.setups.Setup.{Setup};
ghost use Rattle.iss_schedule.specs.declared.schedules.Event.{Event};
ghost use Rattle.iss_rules.specs.Setups.{IsSetupOf};
ghost use Rattle.iss_model.specs.Frames.{frame_of};
ghost use Rattle.iss_theorems.specs.Leaves.{AreOfJournals, Deed, IsLife, SignsOnceEach};
ghost use Rattle.iss_theorems.specs.Recovery.{course_after};

use iss_sb::Sequenced;

/// No leaf of a node's keys signs two statements, whatever events the node takes. Each signature of its own that a node
/// sends is by a leaf over that leaf's one statement, or the node had received it (`node`). Each run counts over all
/// its restarts (`runs`): the packets of a core are those of the events in its journal. So are the book's statements of
/// a correct node, and each of these is that of one leaf.
pub fn leaves_sign_once<M: Sequenced>()
    ensures node { (s : Setup) → IsSetupOf M.spec s → (me : ℕ) (deeds : List (Deed M.Msg)) →
        IsLife (frame_of s M.spec) me deeds → SignsOnceEach (frame_of s M.spec) me deeds }
    ensures runs { (s : Setup) → IsSetupOf M.spec s → (events : List Event) →
        AreOfJournals s M.spec (course_after s M.spec events).state }
{
    M::laws();
}
