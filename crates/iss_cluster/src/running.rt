// A cluster in its loop.
ghost use Rattle.std.specs.Prelude.{◌≡◌, ◌++◌, ◌∷◌, [], false, IfOk, OnOk};
ghost use Rattle.iss_cluster.specs.Clusters.{IsTracedRun, behavior_of};
ghost use Rattle.iss_cluster.specs.Internal.Running.{HasRun};
ghost use Rattle.iss_loops.specs.Traces.{IsNext};
ghost use Rattle.iss_replay.specs.Refines.{numbered};
ghost use Rattle.iss_rules.specs.Setups.{IsSetupOf};

use crate::clusters::Traced;
use iss_loops::{PacketIndex, Trace, TracedCluster};
use iss_network::Sent;
use iss_replay::{Report, run_event};
use iss_request::{NoMemory, NodeId, Seq, Setup};
use iss_sb::Sequenced;
use iss_schedule::Event;
use iss_theorems::restarts_change_nothing;
use iss_world::World;
use iss_world::ends::Evidence;
use std::alloc::Global;
use std::marker::Model;

// A cluster, the report of its run so far, and the trace of its events. Its packets are found by receiver and bytes.
#[derive(Drop)]
pub(crate) struct Running<M: Sequenced> {
    alloc: Global,
    report: Report<M>,
    trace: Trace,
    index: PacketIndex,
    // Set when memory ran out: nothing is known about the run.
    stale: bool,
}

impl<M: Sequenced> Model for Running<M> {
    ghost use Rattle.iss_cluster.specs.Internal.Running.{IsRunning, RunningState};

    ghost Value = { RunningState M M.Msg };

    ghost view = { λ r. record {
      world = r.report.world;
      drops = r.report.drops;
      ended = r.report.ended;
      trace = r.trace;
      index = r.index;
      stale = r.stale;
    } };

    ghost invariant = { λ r. IsRunning M.spec M.refines (record {
      world = r.report.world;
      drops = r.report.drops;
      ended = r.report.ended;
      trace = r.trace;
      index = r.index;
      stale = r.stale;
    }) };
}

impl<M: Sequenced> Running<M> {
    // A cluster to which nothing has happened. The only error is out of memory.
    pub(crate) fn start(alloc: Global, setup: Setup) -> Result<Running<M>, NoMemory>
        requires { IsSetupOf M.spec setup }
        ensures begun { IfOk result (λ r. r.trace ≡ record { setup = setup; events = [] }) }
        ensures fresh { IfOk result (λ r. r.stale ≡ false) }
    {
        let world = World::start(alloc, &setup)?;
        let trace = Trace::new(alloc, setup)?;
        Ok(Running {
            alloc,
            report: Report {
                world,
                drops: Seq::new(alloc),
                ended: None,
            },
            trace,
            index: PacketIndex::new(alloc),
            stale: false,
        })
    }

    // The trace, and the report of its run.
    pub(crate) fn into_traced(self) -> Traced<M>
        requires { self.stale ≡ false }
        ensures trace { result.trace ≡ self.trace }
        ensures run { IsTracedRun M.spec M.refines self.trace.setup result.trace result.report.world
            result.report.drops result.report.ended }
    {
        restarts_change_nothing::<M>();
        Traced {
            trace: self.trace.into_schedule(),
            report: self.report,
        }
    }
}

impl<M: Sequenced> TracedCluster for Running<M> {
    ghost behavior = { λ r. behavior_of r.trace.setup M.spec };

    ghost events = { λ r. r.trace.events };

    ghost stale = { λ r. r.stale };

    fn setup(&self) -> &Setup {
        &self.trace.schedule().setup
    }

    fn fits(&self, event: &Event) -> bool {
        self.trace.fits(event)
    }

    fn event(&mut self, event: Event) -> Result<(), NoMemory> {
        self.stale = true;
        follow(
            self.alloc,
            &mut self.report,
            &mut self.trace,
            &mut self.index,
            event,
        )?;
        self.stale = false;
        Ok(())
    }

    fn is_over(&self) -> bool {
        self.stale || self.report.ended.is_some()
    }

    fn castable(&self, core: u32) -> bool {
        self.report.world.castable(core)
    }

    fn unfilled(&self, core: u32) -> Result<Seq<NodeId>, NoMemory> {
        self.report.world.unfilled(core)
    }

    fn packets(&self) -> &[Sent] {
        self.report.world.packets()
    }

    fn number_of(&self, core: u32, packet: &[u8]) -> Option<u64> {
        self.index.find(self.report.world.packets(), core, packet)
    }
}

// The event happens: the report is that of the run with this event, the trace has it, and the index has the packets
// that it sends.
fn follow<M: Sequenced>(
    alloc: Global,
    report: &mut Report<M>,
    trace: &mut Trace,
    index: &mut PacketIndex,
    event: Event,
) -> Result<(), NoMemory>
    requires cluster { report.old.world.simulation.setup ≡ trace.old.setup }
    requires next { IsNext (behavior_of trace.old.setup M.spec) trace.old.events event }
    ensures run { OnOk result (
        HasRun M.spec M.refines report.old.world report.old.drops report.old.ended trace.old index.old →
        HasRun M.spec M.refines report.new.world report.new.drops report.new.ended trace.new index.new) }
    ensures happened { OnOk result (trace.new.events ≡ trace.old.events ++ event ∷ []) }
    ensures same { (trace.new.setup ≡ trace.old.setup) × (report.new.world.simulation.setup ≡ trace.old.setup) }
{
    let number = trace.schedule().events.len() as u64;
    let sent = report.world.packets().len();
    let end = run_event(alloc, &mut report.world, &mut report.drops, number, &event)?;
    report.ended = numbered(number, end);
    index.add_from(report.world.packets(), sent)?;
    trace.push(event)
}

// Evidence with the number of its event.
fn numbered(number: u64, end: Option<Evidence>) -> Option<(u64, Evidence)>
    ensures { result ≡ numbered number end }
{
    match end {
        Some(evidence) => Some((number, evidence)),
        None => None,
    }
}
