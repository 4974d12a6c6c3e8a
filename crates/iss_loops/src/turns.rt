// All cores, and the turns of a loop.
ghost use Rattle.std.specs.Prelude.{◌≡◌, ◌<◌, ◌/◌, ◌-◌, ◌^◌, false, List, [], Some, IfOk, OnOk, IsErrOf};
ghost use Rattle.iss_links.specs.Calls.{HasCause};
ghost use Rattle.iss_links.specs.Ends.{End};
ghost use Rattle.iss_loops.specs.Behavior.{StaysFresh};
ghost use Rattle.iss_loops.specs.Loop.{each_core, hands_out, loop_of, proposes, receives, request_at, turn_at, wakes};
ghost use Rattle.iss_loops.specs.Plans.{HasLeaves, HasRun, plan_of};
ghost use Rattle.iss_loops.specs.Progress.{Does, seen};
ghost use Rattle.iss_request.specs.Setup.{IsGoodSetup};

use crate::cluster::TracedCluster;
use crate::errors::LoopError;
use crate::events::{has_ended, nodes_of, propose, receive, step, wake};
use crate::plan::Plan;
use crate::progress::Progress;
use iss_links::Links;
use iss_request::{Bytes, NoMemory, Setup};
use iss_schedule::Event;
use std::alloc::Global;

// Each core proposes, if it leads and has a free slot.
fn propose_all<C: TracedCluster, L: Links>(
    cluster: &mut C,
    links: &mut L,
    progress: &mut Progress,
) -> Result<(), LoopError>
    ensures { Does 0 (each_core proposes)
        (seen C.behavior C.events C.stale L.ends L.faults cluster.old links.old progress.old)
        (seen C.behavior C.events C.stale L.ends L.faults cluster.new links.new progress.new) result }
{
    for core in 0..nodes_of(cluster) {
        propose(cluster, links, progress, core)?;
    }
    Ok(())
}

// Each core takes what its end hands out.
fn receive_all<C: TracedCluster, L: Links>(
    cluster: &mut C,
    links: &mut L,
    progress: &mut Progress,
    most: u32,
) -> Result<(), LoopError>
    ensures { Does 0 (each_core (λ B. receives B most))
        (seen C.behavior C.events C.stale L.ends L.faults cluster.old links.old progress.old)
        (seen C.behavior C.events C.stale L.ends L.faults cluster.new links.new progress.new) result }
{
    for core in 0..nodes_of(cluster) {
        receive(cluster, links, progress, core, most)?;
    }
    Ok(())
}

// Each core wakes up.
fn wake_all<C: TracedCluster, L: Links>(
    cluster: &mut C,
    links: &mut L,
    progress: &mut Progress,
) -> Result<(), LoopError>
    ensures { Does 0 (each_core wakes)
        (seen C.behavior C.events C.stale L.ends L.faults cluster.old links.old progress.old)
        (seen C.behavior C.events C.stale L.ends L.faults cluster.new links.new progress.new) result }
{
    for core in 0..nodes_of(cluster) {
        wake(cluster, links, progress, core)?;
    }
    Ok(())
}

// One turn, unless the loop has ended. An idle turn is counted. After `patience` idle turns in a row the cores wake up.
// rule: Loopback: After 64 idle turns in a row the count begins anew, and each core wakes up
fn take_turn<C: TracedCluster, L: Links>(
    cluster: &mut C,
    links: &mut L,
    progress: &mut Progress,
    plan: &Plan,
    _turn: u32,
) -> Result<(), LoopError>
    requires { progress.old.idle_turns < 2 ^ 32 - 1 }
    ensures { Does 1 (λ B. turn_at B (plan_of plan.now) _turn)
        (seen C.behavior C.events C.stale L.ends L.faults cluster.old links.old progress.old)
        (seen C.behavior C.events C.stale L.ends L.faults cluster.new links.new progress.new) result }
{
    if has_ended(cluster, progress) {
        return Ok(());
    }
    progress.idle = true;
    propose_all(cluster, links, progress)?;
    receive_all(cluster, links, progress, plan.frames)?;
    if has_ended(cluster, progress) {
        return Ok(());
    }
    if !progress.idle {
        progress.idle_turns = 0;
        return Ok(());
    }
    if progress.idle_turns + 1 != plan.patience {
        progress.idle_turns += 1;
        return Ok(());
    }
    progress.idle_turns = 0;
    wake_all(cluster, links, progress)
}

// Request i as an event of a core.
// rule: Loopback: Request i is the next one of client i mod clients, with the four bytes of i
fn request_at(alloc: Global, setup: &Setup, i: u32, core: u32) -> Result<Event, NoMemory>
    requires { IsGoodSetup setup.now }
    ensures { IfOk result (λ event. event ≡ request_at setup.now.clients i core) }
{
    let clients = setup.clients;
    let payload = Bytes::of(Vec::from_slice(alloc, &i.to_be_bytes())?);
    Ok(Event::Request {
        core,
        client: (i % clients) as u8,
        number: i / clients,
        payload,
    })
}

// Each core gets request i.
fn hand_out<C: TracedCluster, L: Links>(
    alloc: Global,
    cluster: &mut C,
    links: &mut L,
    progress: &mut Progress,
    i: u32,
) -> Result<(), LoopError>
    requires { i / (C.behavior cluster.old).setup.clients < 2 ^ (C.behavior cluster.old).setup.keys }
    ensures { Does 0 (λ B. hands_out B i)
        (seen C.behavior C.events C.stale L.ends L.faults cluster.old links.old progress.old)
        (seen C.behavior C.events C.stale L.ends L.faults cluster.new links.new progress.new) result }
{
    for core in 0..nodes_of(cluster) {
        let event = request_at(alloc, cluster.setup(), i, core)?;
        step(cluster, links, progress, event)?;
    }
    Ok(())
}

/// The loop over a cluster: it hands out its requests, and takes its turns. If the links record their frames, its
/// events are those of the definition, and so is what the links hold at the end.
// rule: Loopback: A loop first hands out its requests, each to all cores, and then takes its turns
pub fn run_loop<C: TracedCluster, L: Links>(
    alloc: Global,
    cluster: &mut C,
    links: &mut L,
    plan: &Plan,
) -> Result<(), LoopError>
    requires fresh { C.stale cluster.old ≡ false }
    requires leaves { HasLeaves (C.behavior cluster.old).setup plan.now.requests }
    requires begun { C.events cluster.old ≡ [] }
    ensures goes { OnOk result ((ends : List End) → L.ends links.old ≡ Some ends →
        HasRun (loop_of (C.behavior cluster.old) (plan_of plan.now) ends) (C.events cluster.new) (L.ends links.new)) }
    ensures kept { OnOk result (StaysFresh (C.behavior cluster.old) (C.behavior cluster.new) (C.stale cluster.new)) }
    ensures cause { HasCause (L.faults links.old) (L.faults links.new) (IsErrOf result LoopError.LinksFault) }
{
    let mut progress = Progress::new();
    for i in 0..plan.requests {
        hand_out(alloc, cluster, links, &mut progress, i)?;
    }
    for turn in 0..plan.turns {
        take_turn(cluster, links, &mut progress, plan, turn)?;
    }
    Ok(())
}
