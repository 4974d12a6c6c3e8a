//! The world of a cluster, with the evidence that stopped its run and whether memory ran out.
ghost use Rattle.std.specs.Prelude.{◌≡◌, ◌<◌, [], IfOk, None, OnOk, Some, reverse, slice_get};
ghost use Rattle.iss_model.specs.Run.{cores_of, node_of};
ghost use Rattle.iss_model.specs.Courses.{Machines, begin_machines, driver_of};
ghost use Rattle.iss_model.specs.Driver.{run_event};
ghost use Rattle.iss_rules.specs.Setups.{IsSetupOf};
ghost use Rattle.iss_schedule.specs.Events.{IsInRange};
ghost use Rattle.iss_world.specs.Headline.{IsAnswered, KeepsHeadline, RefinesEvents};
ghost use Rattle.iss_world.specs.Internal.Shape.{IsWorld};
ghost use Rattle.iss_world.specs.Refines.{AreStaleBehind, InRun, IsLeftNode, IsOverOr, IsStaleOr, LeavesStale, RefinesMachine, RefinesSome, RunsEvent, WorldRefinesMachines, awake, log_at, result_of};
ghost use Rattle.iss_world.specs.State.{AreBetweenCores};

use crate::ends::{EventOutcome, Evidence};
use crate::simulation::Simulation;
use iss_disk::MemoryDisk;
use iss_keep::{Kept, leaves_are_of_one_statement};
use iss_log::Log;
use iss_network::Sent;
use iss_request::{Bytes, Epoch, NoMemory, NodeId, Setup, Value};
use iss_rules::Why;
use iss_sb::Sequenced;
use iss_schedule::Event;
use iss_theorems::restarts_change_nothing;
use std::alloc::Global;
use std::marker::Model;

/// The result of an event.
#[derive(Drop)]
pub enum EventResult {
    Done,
    /// The event had no effect, for this reason.
    Lost(Why),
    /// The run has stopped, at this event or an earlier one. A core read a claim of a correct node with a valid
    /// signature that the node never made.
    Forged {
        by: NodeId,
        statement: Bytes,
        sig: Bytes,
    },
    /// The run has stopped, at this event or an earlier one. Two different strings with one SHA-256 digest were hashed.
    /// `first` was hashed earlier; `second` is the first string of the event that collides with an earlier one.
    Collision {
        first: Bytes,
        second: Bytes,
    },
    /// Out of memory during this event. The world is stale from now on.
    NoMemory,
    /// Out of memory in an earlier event. Nothing has changed.
    Stale,
}

/// The cores of a cluster and the network between them. Core `i` runs node `i`. Each faulty node also has a twin: a
/// second core with the same keys, after the first `n`.
#[derive(Drop)]
pub struct World<M: Sequenced> {
    simulation: Simulation<M>,
    // The evidence that stopped the run, if any. No event has an effect afterwards.
    ended: Option<Evidence>,
    // Set when memory ran out: the state is half updated, and nothing is known about it.
    stale: bool,
}

impl<M: Sequenced> Model for World<M> {
    ghost use Rattle.iss_world.specs.State.{WorldState};
    ghost use Rattle.iss_world.specs.Internal.Shape.{IsWorld};

    ghost Value = { WorldState M M.Msg };

    ghost view = { λ w. record { simulation = w.simulation; ended = w.ended; stale = w.stale } };

    ghost invariant = { λ w. IsWorld M.spec M.refines
        (record { simulation = w.simulation; ended = w.ended; stale = w.stale }) };
}

impl<M: Sequenced> World<M> {
    /// The start of a run: no core has taken an event, each has its node's keys, and there are no packets. The only
    /// error is out of memory.
    pub fn start(alloc: Global, setup: &Setup) -> Result<World<M>, NoMemory>
        requires { IsSetupOf M.spec setup.now }
        ensures refines { IfOk result (λ v. WorldRefinesMachines M.spec M.refines v (begin_machines setup.now)) }
        ensures begun { IfOk result (λ v. RefinesEvents setup.now M.spec M.refines v []) }
        ensures same { IfOk result (λ v. v.simulation.setup ≡ setup.now) }
    {
        let simulation = Simulation::start(alloc, setup)?;
        Ok(World {
            simulation,
            ended: None,
            stale: false,
        })
    }

    /// Applies one event. If it reveals evidence, the world rolls back to before that delivery and answers every later
    /// event with the same evidence. After `NoMemory` the world is stale. Otherwise the world refines the run with this
    /// event added (`happened`), for which the headline holds (`headline`, see `IsHeadline`). Evidence leaves stale the
    /// core that read it, and no other (`silent`).
    // rule: Runs: A node or a world that ran out of memory says so from then on
    // rule: Runs: After each event the world refines the run with that event
    // rule: Checkpoints: A certificate that a correct node keeps certifies the log of a correct signer
    // rule: Transfer: A value that a correct node adopted was delivered in that slot by a correct node
    pub fn event(&mut self, alloc: Global, event: &Event) -> EventResult
        requires { IsInRange self.old.simulation.setup event.now }
        ensures happened { RunsEvent M.spec M.refines self.old self.new event.now result }
        ensures silent { InRun M.spec M.refines self.old (λ p. p.ended ≡ None → IsAnswered result →
            AreStaleBehind (driver_of self.old.simulation.setup M.spec) p event.now self.new) }
        ensures headline { KeepsHeadline M.spec M.refines self.old self.new event.now result }
        ensures stale { IsStaleOr self.old self.new result }
        ensures over { IsOverOr self.old self.new }
        ensures same { self.new.simulation.setup ≡ self.old.simulation.setup }
    {
        restarts_change_nothing::<M>();
        leaves_are_of_one_statement::<M>();
        let _setup = self.simulation.setup();
        if self.stale {
            return EventResult::Stale;
        }
        self.stale = true;
        match run_event(alloc, &mut self.simulation, &mut self.ended, event) {
            Ok(happened) => {
                self.stale = false;
                happened
            }
            Err(_) => EventResult::NoMemory,
        }
    }

    /// The set-up of the cluster.
    pub fn setup(&self) -> &Setup
        ensures same { result.now ≡ self.now.simulation.setup }
        ensures good { IsSetupOf M.spec result.now }
    {
        self.simulation.setup()
    }

    /// The kept node of a core. Its calls report the core's state unless the core's disk has failed (`refines`). After
    /// evidence they still do, but for the core that read it: that one is stale (`left`).
    pub fn node(&self, core: u32) -> &Kept<M, MemoryDisk>
        requires { core < cores_of self.now.simulation.setup }
        ensures at { slice_get self.now.simulation.nodes core ≡ Some result.now }
        ensures refines { (w : Machines M.Msg) → WorldRefinesMachines M.spec M.refines self.now w →
            RefinesMachine M.spec M.refines result.now (w.held.net.cores core) (w.disks core) }
        ensures left { InRun M.spec M.refines self.now (IsLeftNode M.spec M.refines self.now core result.now) }
        ensures same { (result.now.setup ≡ self.now.simulation.setup)
            × (result.now.me.0 ≡ node_of self.now.simulation.setup core) }
    {
        self.simulation.node(core)
    }

    /// The packets that were sent, by number: each with the core that sent it, the core that it is for, and its bytes.
    /// Evidence leaves those from before its event.
    pub fn packets(&self) -> &[Sent]
        ensures refines { InRun M.spec M.refines self.now (λ p. result.now ≡ p.state.held.net.network.packets) }
        ensures between { AreBetweenCores (cores_of self.now.simulation.setup) result.now }
    {
        self.simulation.packets()
    }

    /// The log of a core.
    pub fn log(&self, core: u32) -> &Log
        requires { core < cores_of self.now.simulation.setup }
        ensures { InRun M.spec M.refines self.now
            (λ p. log_at self.now.simulation.setup M.spec p.state.held core ≡ reverse result.now.entries) }
    {
        self.simulation.node(core).log()
    }

    /// The values of a core's log, by slot.
    pub fn entries(&self, core: u32) -> &[Value]
        requires { core < cores_of self.now.simulation.setup }
        ensures { InRun M.spec M.refines self.now
            (λ p. log_at self.now.simulation.setup M.spec p.state.held core ≡ reverse result.now) }
    {
        self.log(core).entries()
    }

    /// The epoch of a core.
    pub fn epoch(&self, core: u32) -> Epoch
        requires { core < cores_of self.now.simulation.setup }
        ensures { InRun M.spec M.refines self.now (λ p. result.0 ≡ (p.state.held.net.cores core).past.epoch) }
    {
        self.simulation.node(core).epoch()
    }
}

// Applies the event, or repeats the evidence if the run has stopped.
fn run_event<M: Sequenced>(
    alloc: Global,
    simulation: &mut Simulation<M>,
    ended: &mut Option<Evidence>,
    event: &Event,
) -> Result<EventResult, NoMemory>
    requires range { IsInRange simulation.old.setup event.now }
    requires standing { ended.old ≡ None → RefinesSome M.spec M.refines simulation.old }
    ensures happened { IfOk result (RunsEvent M.spec M.refines (awake simulation.old ended.old)
        (awake simulation.new ended.new) event.now) }
    ensures silent { OnOk result (LeavesStale M.spec M.refines (awake simulation.old ended.old)
        (awake simulation.new ended.new) event.now) }
    ensures answered { IfOk result (λ r. IsAnswered r) }
    ensures world { OnOk result (IsWorld M.spec M.refines (awake simulation.new ended.new)) }
    ensures over { IsOverOr (awake simulation.old ended.old) (awake simulation.new ended.new) }
    ensures same { simulation.new.setup ≡ simulation.old.setup }
{
    if let Some(end) = ended {
        return repeat_evidence(end);
    }
    match simulation.event(alloc, event)? {
        EventOutcome::Done => Ok(EventResult::Done),
        EventOutcome::Lost(why) => Ok(EventResult::Lost(why)),
        EventOutcome::Ended(end) => {
            let happened = repeat_evidence(&end)?;
            *ended = Some(end);
            Ok(happened)
        }
    }
}

// The result of an event once this evidence has stopped the run.
fn repeat_evidence(end: &Evidence) -> Result<EventResult, NoMemory>
    ensures { IfOk result (λ r. r ≡ result_of end.now) }
{
    match end {
        Evidence::Forged(claim) => Ok(EventResult::Forged {
            by: claim.by,
            statement: claim.statement.copy()?,
            sig: claim.sig.copy()?,
        }),
        Evidence::Collision { first, second } => Ok(EventResult::Collision {
            first: first.copy()?,
            second: second.copy()?,
        }),
    }
}
