//! One node of a cluster, which runs over links and keeps its events in a journal.
ghost use Rattle.std.specs.Prelude.{◌≡◌, ◌≢◌, ◌<◌, ◌^◌, ◌++◌, ℕ, List, reverse, false, IfOk, IsErrOf, Ok, OnOk};
ghost use Rattle.iss_cluster.specs.Nodes.{HasRead, HasTaken, IsDurable, IsNodeRun, IsRefused, IsStopped, as_step, stored_since};
ghost use Rattle.iss_config.specs.Configs.{IsInRange, setup_of};
ghost use Rattle.iss_disk.specs.Calls.{HasCause as HasDiskCause};
ghost use Rattle.iss_journal.specs.Frames.{version_1};
ghost use Rattle.iss_journal.specs.Promises.{LosesNothing};
ghost use Rattle.iss_keep.specs.Cores.{stored_of};
ghost use Rattle.iss_keep.specs.Steps.{IsSame};
ghost use Rattle.iss_links.specs.Calls.{HasCause};
ghost use Rattle.iss_loops.specs.NodeBehavior.{NodeBehavior};
ghost use Rattle.iss_request.specs.declared.setups.Setup.{Setup};
ghost use Rattle.iss_rules.specs.Setups.{IsSetupOf};
ghost use Rattle.iss_rules.specs.declared.events.NodeEvent.{NodeEvent as ModelEvent};

use crate::errors::NodeFailure;
use iss_config::Config;
use iss_disk::{Disk, Failed};
use iss_journal::AttachError;
use iss_keep::{Fresh, Kept, a_journal_recovers};
use iss_links::Links;
use iss_loops::{JournaledNode, NodeStep, StepError, run_node_loop};
use iss_node::{Answer, nodes_stand_for_slims};
use iss_replay::lines::put_node;
use iss_request::{Bytes, NoMemory, NodeId, Seq};
use iss_rules::NodeEvent;
use iss_sb::Sequenced;
use iss_world::cores::directory_of;
use std::alloc::Global;
use std::marker::Model;

// The most frames that a node takes in a turn, and the idle turns in a row after which it wakes up.
const FRAMES: u32 = 200_000;

const PATIENCE: u32 = 64;

/// A node of a cluster, whose journal is the current file of its disk.
#[derive(Drop)]
pub struct RunningNode<M: Sequenced, D: Disk> {
    kept: Kept<M, D>,
    nodes: u32,
    me: NodeId,
}

impl<M: Sequenced, D: Disk> Model for RunningNode<M, D> {
    ghost use Rattle.iss_cluster.specs.Nodes.{IsRunning};
    ghost use Rattle.iss_keep.specs.State.{KeptState};

    ghost Value = { KeptState M M.Msg D };

    ghost view = { λ v. v.kept };

    ghost invariant = { λ v. IsRunning M.spec D.state v.nodes v.me v.kept };
}

/// Node `me` of the cluster with this configuration, without a journal. The only error is out of memory.
pub fn start_node<M: Sequenced>(
    alloc: Global,
    config: &Config,
    me: NodeId,
) -> Result<Fresh<M>, NoMemory>
    requires range { IsInRange config.now }
    requires good { IsSetupOf M.spec (setup_of config.now) }
    requires me { me.0 < (setup_of config.now).n }
    ensures { IfOk result (λ v. (v.setup ≡ setup_of config.now) × (v.me ≡ me)) }
{
    let setup = config.setup(alloc)?;
    let directory = directory_of(alloc, &setup)?;
    Fresh::start(alloc, &setup, &directory, me)
}

impl<M: Sequenced, D: Disk> RunningNode<M, D> {
    /// A node over the current file of `disk`. It has not read its journal.
    pub fn of(fresh: Fresh<M>, disk: D) -> RunningNode<M, D>
        requires { IsSetupOf M.spec fresh.setup }
        ensures same { (result.setup ≡ fresh.setup) × (result.me ≡ fresh.me) }
        ensures disk { result.disk ≡ disk }
    {
        let nodes = fresh.setup().n;
        let me = fresh.me();
        RunningNode {
            kept: Kept::of(fresh, disk),
            nodes,
            me,
        }
    }

    /// The disk.
    pub fn into_disk(self) -> D
        ensures { result ≡ self.disk }
    {
        self.kept.into_disk()
    }

    // Reads the journal, and recovers the node from the snapshots and the events in it.
    fn reopen(&mut self) -> Result<(), AttachError>
        ensures read { OnOk result (HasRead M.spec M.refines (D.state self.old.disk).history self.new) }
        ensures refused { (at : ℕ) → IsErrOf result (AttachError.Damaged at) → IsRefused M.spec self.old.setup
            self.old.me.0 (D.state self.old.disk).history (D.state self.new.disk).history at }
        ensures cause { HasDiskCause (D.state self.old.disk).faults (D.state self.new.disk).faults
            (IsErrOf result AttachError.Failed) }
        ensures place { (D.state self.new.disk).current ≡ (D.state self.old.disk).current }
        ensures loses { LosesNothing version_1 (D.state self.old.disk).history (D.state self.new.disk).history }
        ensures same { IsSame self.old self.new }
    {
        a_journal_recovers::<M>();
        nodes_stand_for_slims::<M>();
        self.kept.reopen()
    }

    // The node's block of a report, which its events give. The node need not be reopened.
    fn block(&self, alloc: Global) -> Result<Bytes, NoMemory>
        requires { self.now.stale ≡ false }
        ensures block { IfOk result (λ block. (B : NodeBehavior) (events : List ModelEvent) →
            HasTaken M.spec M.refines self.now B events →
            (block ≡ B.prints events) × (B.epoch events < 2 ^ 64)) }
        ensures durable { IsDurable D.state self.now }
    {
        let mut block = Vec::new(alloc);
        put_node(&mut block, self.me, self.kept.epoch(), self.kept.log())?;
        Ok(Bytes::of(block))
    }
}

impl<M: Sequenced, D: Disk> JournaledNode for RunningNode<M, D> {
    ghost use Rattle.iss_cluster.specs.Nodes.{HasTaken, Leaves};

    ghost nodes = { λ node. node.setup.n };

    ghost has = { λ node B events. HasTaken M.spec M.refines node B events };

    ghost faults = { λ node. (D.state node.disk).faults };

    ghost place = { λ node. (D.state node.disk).current };

    ghost leaves = { λ node B events event. Leaves node.setup.n (D.state node.disk).history B events event };

    fn take(&mut self, event: NodeEvent) -> Result<NodeStep, StepError> {
        as_step(self.kept.take(event))
    }

    fn castable(&self) -> bool {
        self.kept.castable()
    }

    fn unfilled(&self) -> Result<Seq<NodeId>, NoMemory> {
        self.kept.unfilled()
    }

    fn nodes(&self) -> u32 {
        self.nodes
    }

    fn me(&self) -> u32 {
        self.me.0 as u32
    }
}

// What a kept node's answer is to a loop.
fn as_step(answer: Result<Answer, Failed>) -> Result<NodeStep, StepError>
    requires { answer ≢ Ok Answer.Stale }
    ensures { result ≡ as_step answer }
{
    match answer {
        Ok(Answer::Taken(outcome)) => Ok(NodeStep::Taken(outcome.sends)),
        Ok(Answer::Dropped(_)) => Ok(NodeStep::Dropped),
        Ok(Answer::NoMemory) => Err(StepError::NoMemory),
        Ok(Answer::Stale) => unreachable!(),
        Err(Failed) => Err(StepError::DiskFault),
    }
}

/// Runs a node over links, as the configuration says (`node_loop_of`), from what its journal leads to. The links have
/// the node's end. The answer is the node's block of a report.
///
/// # Errors
///
/// `Damaged` if the journal is damaged; what it held stays. `LinksFault` only if the links failed, `DiskFault` only if
/// the disk did, and `NoMemory`. At `DiskFault` nothing was sent of the event at which the disk failed.
// rule: Loopback: A node's journal grows by the events that it takes, in their order
// rule: Loopback: A node sends only what events in its journal made
// rule: Loopback: A node prints its block of a report, which its journal's events give
pub fn node<M: Sequenced, L: Links, D: Disk>(
    alloc: Global,
    config: &Config,
    links: &mut L,
    running: &mut RunningNode<M, D>,
) -> Result<Bytes, NodeFailure>
    requires { running.old.setup ≡ setup_of config.now }
    ensures run { IfOk result (IsNodeRun M.spec config.now running.old.me.0 (L.ends links.old) (L.ends links.new)
        (D.state running.old.disk).history (D.state running.new.disk).history) }
    ensures damaged { (at : ℕ) → IsErrOf result (NodeFailure.Damaged at) → IsRefused M.spec (setup_of config.now)
        running.old.me.0 (D.state running.old.disk).history (D.state running.new.disk).history at }
    ensures stopped { IsErrOf result NodeFailure.DiskFault → IsStopped M.spec config.now running.old.me.0
        (L.ends links.old) (L.ends links.new) (D.state running.old.disk).history (D.state running.new.disk).history }
    ensures links { HasCause (L.faults links.old) (L.faults links.new) (IsErrOf result NodeFailure.LinksFault) }
    ensures disk { HasDiskCause (D.state running.old.disk).faults (D.state running.new.disk).faults
        (IsErrOf result NodeFailure.DiskFault) }
    ensures place { (D.state running.new.disk).current ≡ (D.state running.old.disk).current }
    ensures same { OnOk result ((running.new.setup ≡ running.old.setup) × (running.new.me ≡ running.old.me)) }
{
    running.reopen()?;
    run_node_loop(running, links, FRAMES, PATIENCE, config.turns)?;
    Ok(running.block(alloc)?)
}

/// A node had stored what these events lead to, and took others behind them. What it has stored then is what all of
/// them lead to. So a node that is opened again goes on from all that it ever took.
pub fn runs_join<M: Sequenced>()
    ensures { (s : Setup) (me : ℕ) (events taken : List ModelEvent) →
        stored_since s M.spec me (stored_of s M.spec me events) taken
        ≡ stored_of s M.spec me (reverse taken ++ events) }
{}
