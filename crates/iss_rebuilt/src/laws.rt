//! That snapshots lead back to the core that wrote them. Each theorem is a call without a body: calling one makes its
//! contract available.
ghost use Rattle.std.specs.Prelude.{ℕ};
ghost use Rattle.iss_request.specs.declared.setups.Setup.{Setup};
ghost use Rattle.iss_rules.specs.Setups.{IsSetupOf};
ghost use Rattle.iss_rebuilt.specs.Laws.{JournalsRecover, SnapshotsFit, SnapshotsRebuild};

use iss_sb::Sequenced;

/// The snapshot that a replica writes as it enters an epoch is read, after its earlier ones, as a core with the slim
/// part of its own. So each step is the same from there on (`steps_respect_slims`).
pub fn snapshots_rebuild<M: Sequenced>()
    ensures { (s : Setup) → IsSetupOf M.spec s → SnapshotsRebuild s M.spec }
{}

/// A replica may keep, of all that it stored, its snapshots and the events after the last of them: they lead to a core
/// with the slim part of its own, Byzantine or not.
pub fn journals_recover<M: Sequenced>()
    ensures { (s : Setup) → IsSetupOf M.spec s → JournalsRecover s M.spec }
{
    M::laws();
}

/// What is kept of an event that let a replica enter an epoch is a snapshot, unless that is too long for an entry: it
/// has an encoding.
pub fn snapshots_fit<M: Sequenced>()
    ensures { (s : Setup) → IsSetupOf M.spec s → SnapshotsFit s M.spec }
{
    M::laws();
}
