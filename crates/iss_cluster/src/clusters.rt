//! A cluster whose nodes run over links in one process.
ghost use Rattle.std.specs.Prelude.{◌≡◌, IfOk, IsErrOf, List, Some};
ghost use Rattle.iss_cluster.specs.Clusters.{IsTracedRun, behavior_of, loop_plan_of};
ghost use Rattle.iss_config.specs.Configs.{IsInRange, setup_of};
ghost use Rattle.iss_links.specs.Calls.{HasCause};
ghost use Rattle.iss_links.specs.Ends.{End};
ghost use Rattle.iss_loops.specs.Loop.{loop_of};
ghost use Rattle.iss_loops.specs.Plans.{HasRun, plan_of};
ghost use Rattle.iss_rules.specs.Setups.{IsSetupOf};

use crate::running::Running;
use iss_config::Config;
use iss_links::Links;
use iss_loops::{LoopError, Plan, run_loop};
use iss_replay::Report;
use iss_sb::Sequenced;
use iss_schedule::Schedule;
use std::alloc::Global;

/// What a cluster did: the trace of its events, a schedule, and the report of that schedule's run.
#[derive(Drop)]
pub struct Traced<M: Sequenced> {
    pub trace: Schedule,
    pub report: Report<M>,
}

/// Runs all nodes of a cluster over links, as its configuration says (`loop_of`). The links have ends 0 to n - 1. The
/// report is that of the trace's run, for which the headline holds. An event that shows evidence is the last one.
pub fn cluster<M: Sequenced, L: Links>(
    alloc: Global,
    config: &Config,
    links: &mut L,
) -> Result<Traced<M>, LoopError>
    requires range { IsInRange config.now }
    requires good { IsSetupOf M.spec (setup_of config.now) }
    ensures run { IfOk result (λ t. IsTracedRun M.spec M.refines (setup_of config.now) t.trace t.report.world
        t.report.drops t.report.ended) }
    ensures loops { IfOk result (λ t. (ends : List End) → L.ends links.old ≡ Some ends →
        HasRun (loop_of (behavior_of (setup_of config.now) M.spec) (loop_plan_of config.now) ends)
        t.trace.events (L.ends links.new)) }
    ensures cause { HasCause (L.faults links.old) (L.faults links.new) (IsErrOf result LoopError.LinksFault) }
{
    let setup = config.setup(alloc)?;
    let mut running = Running::<M>::start(alloc, setup)?;
    let plan = loop_plan(config);
    run_loop(alloc, &mut running, links, &plan)?;
    Ok(running.into_traced())
}

// The plan of a cluster's loop.
fn loop_plan(config: &Config) -> Plan
    ensures { plan_of result ≡ loop_plan_of config.now }
{
    Plan {
        requests: config.requests,
        turns: config.turns,
        frames: 200_000,
        patience: 64,
    }
}
