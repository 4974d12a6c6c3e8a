//! A kept node: a replica with a journal of its events.
ghost use Rattle.std.specs.Prelude.{◌≡◌, ◌<◌, ◌≤◌, ◌↔◌, true, not, is_ok, length, IfOk, Ok, OnOk, OnErr, IsErrOf};
ghost use Rattle.iss_disk.specs.Calls.{IsFused, IsRestarted};
ghost use Rattle.iss_journal.specs.Frames.{version_1};
ghost use Rattle.iss_journal.specs.Promises.{LosesNone};
ghost use Rattle.iss_keep.specs.State.{IsUnopened};
ghost use Rattle.iss_keep.specs.Steps.{AnswersEvent, HasRetreated, IsJournaled, IsReopened, IsSame, IsSameNode};
ghost use Rattle.iss_keep.specs.Steps.{OnlyDisk, Refuses, ShowsAsBefore, StoresEvent, makes_stale};
ghost use Rattle.iss_rules.specs.Setups.{IsSetupOf};
ghost use Rattle.iss_node.specs.State.{IsMember};

use crate::answers::{makes_stale, release};
use crate::fresh::Fresh;
use crate::keeping::journal_and_apply;
use crate::reopening::{open, put};
use iss_disk::{Disk, Failed, Fused};
use iss_journal::{AttachError, Journal};
use iss_keys::SharedDirectory;
use iss_node::{Answer, Node};
use iss_request::{Epoch, NoMemory, NodeId, Setup};
use iss_rules::NodeEvent;
use iss_sb::Sequenced;
use std::alloc::Global;
use std::marker::Model;

/// A replica whose journal holds every event that it accepted, or the snapshot that took its place, before the event's
/// outcome is released. Reopening the journal recovers the replica's state.
#[derive(Drop)]
pub struct Kept<M: Sequenced, D: Disk> {
    pub(crate) alloc: Global,
    pub(crate) setup: Setup,
    pub(crate) directory: SharedDirectory,
    pub(crate) me: NodeId,
    pub(crate) node: Node<M>,
    pub(crate) journal: Journal<D>,
    pub(crate) stale: bool,
}

impl<M: Sequenced, D: Disk> Model for Kept<M, D> {
    ghost use Rattle.iss_keep.specs.State.{IsKept, KeptState, state_over};

    ghost Value = { KeptState M M.Msg D };

    ghost view = { λ v. state_over v.setup v.me v.node v.journal v.stale };

    ghost invariant = { λ v. IsKept M.spec M.refines D.state v.directory v.journal
        (state_over v.setup v.me v.node v.journal v.stale) };
}

impl<M: Sequenced, D: Disk + Drop> Kept<M, D> {
    /// A kept node over the current file of `disk`. It is stale: call `reopen` first. Until then it reports an empty
    /// log and epoch 0. The only error is out of memory.
    pub fn over(
        alloc: Global,
        setup: &Setup,
        directory: &SharedDirectory,
        me: NodeId,
        disk: D,
    ) -> Result<Kept<M, D>, NoMemory>
        requires { IsMember M.spec setup.now directory.now me.0 }
        ensures { IfOk result (IsUnopened setup.now me disk) }
    {
        let fresh = Fresh::start(alloc, setup, directory, me)?;
        Ok(Kept::of(fresh, disk))
    }
}

impl<M: Sequenced, D: Disk> Kept<M, D> {
    /// A fresh node as a kept one, as `over` makes it.
    pub fn of(fresh: Fresh<M>, disk: D) -> Kept<M, D>
        ensures { IsUnopened fresh.setup fresh.me disk result }
    {
        let Fresh {
            alloc,
            setup,
            directory,
            me,
            node,
        } = fresh;
        Kept {
            alloc,
            setup,
            directory,
            me,
            node,
            journal: Journal::over(alloc, disk),
            stale: true,
        }
    }

    /// Takes an event: reserves room for its entry, steps the node, appends the entry if the event was accepted, and
    /// only then releases the outcome. If the event let the node enter an epoch, a snapshot is appended in its place,
    /// unless that is too long. Answers `Stale` if and only if the node has to be reopened. `Failed` if the disk failed:
    /// the event may or may not be in the journal, and its outcome is not released. An ask is never dropped; if its
    /// peer does not exist, `reopen` will report its entry as damage, until a snapshot takes its place.
    // rule: Persistence: A stale node takes nothing and shows the log and epoch from before
    pub fn take(&mut self, event: NodeEvent) -> Result<Answer, Failed>
        ensures answer { AnswersEvent M.spec M.refines event self.old self.new result }
        ensures stored { StoresEvent M.spec M.refines event self.old self.new }
        ensures refused { (result ≡ Ok Answer.Stale) ↔ (self.old.stale ≡ true) }
        ensures stale { self.new.stale ≡ makes_stale result }
        ensures written { IsJournaled D.state M.spec M.refines event self.old self.new result }
        ensures node { IsSameNode self.old self.new }
    {
        if self.stale {
            return Ok(Answer::Stale);
        }
        let mut made = Answer::Stale;
        let kept = journal_and_apply(
            self.alloc,
            &mut self.node,
            &mut self.journal,
            event,
            &mut made,
        );
        self.stale = makes_stale(&made, &kept);
        release(made, kept)
    }

    /// Recovers the node from its journal: rebuilds it from the snapshots, and replays the events behind them.
    /// `Damaged` if the file is damaged, or if an entry is a snapshot that does not continue those before it, or no
    /// event, or one that the node would drop at that point. A damaged file stays byte for byte, so that no later call
    /// takes it for a new one. `Failed` only if the disk failed.
    pub fn reopen(&mut self) -> Result<(), AttachError>
        ensures stale { self.new.stale ≡ not (is_ok result) }
        ensures reopened { OnOk result (IsReopened D.state M.spec M.refines self.old self.new) }
        ensures refused { Refuses D.state M.spec self.old self.new result }
        ensures loses { LosesNone version_1 (IsErrOf result AttachError.Failed) (D.state self.old.disk)
            (D.state self.new.disk) }
        ensures shown { OnErr result (ShowsAsBefore self.old self.new) }
        ensures same { IsSame self.old self.new }
    {
        self.stale = true;
        match open(
            self.alloc,
            &self.setup,
            &self.directory,
            self.me,
            &mut self.journal,
        ) {
            Ok(node) => {
                put(&mut self.node, node);
                self.stale = false;
                Ok(())
            }
            Err(error) => Err(error),
        }
    }

    /// The set-up of its cluster.
    pub fn setup(&self) -> &Setup
        ensures same { result.now ≡ self.now.setup }
        ensures good { IsSetupOf M.spec result.now }
    {
        &self.setup
    }

    /// Which node it is.
    pub fn me(&self) -> NodeId
        ensures same { result ≡ self.now.me }
        ensures member { result.0 < self.now.setup.n }
    {
        self.me
    }

    /// The disk.
    pub fn into_disk(self) -> D
        ensures { result ≡ self.disk }
    {
        let Kept {
            alloc: _,
            setup,
            directory,
            me: _,
            node,
            journal,
            stale: _,
        } = self;
        drop(setup);
        drop(directory);
        drop(node);
        journal.into_disk()
    }

    /// Whether the node has to be reopened. So it is at first, and after `Failed`, `NoMemory`, a restart, a retreat or
    /// a failed `reopen`.
    pub fn stale(&self) -> bool
        ensures { result ≡ self.now.stale }
    {
        self.stale
    }

    /// Truncates the log to its first `slots` slots and sets the epoch back. The node is stale, and reports this log
    /// and epoch until it is reopened.
    pub fn retreat(&mut self, slots: usize, epoch: Epoch)
        requires slots { slots ≤ length self.old.node.state.log.entries }
        requires epoch { epoch.0 ≤ self.old.node.state.epoch }
        ensures { HasRetreated self.old self.new slots epoch.0 }
    {
        self.stale = true;
        self.node.retreat(slots, epoch);
    }
}

impl<M: Sequenced, D: Fused> Kept<M, D> {
    /// Lets the next `calls` calls of the disk succeed. All later ones fail.
    pub fn fuse(&mut self, calls: u64)
        ensures disk { IsFused calls (D.state self.old.disk) (D.state self.new.disk) }
        ensures only { OnlyDisk self.old self.new }
        ensures stale { self.new.stale ≡ self.old.stale }
    {
        self.journal.fuse(calls);
    }

    /// Simulates a crash: the disk keeps only what was synced, and its calls succeed again. The node has to be
    /// reopened.
    pub fn restart(&mut self)
        ensures disk { IsRestarted (D.state self.old.disk) (D.state self.new.disk) }
        ensures only { OnlyDisk self.old self.new }
        ensures stale { self.new.stale ≡ true }
    {
        self.stale = true;
        self.journal.restart();
    }
}
