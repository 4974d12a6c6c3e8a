// The loop of one node.
ghost use Rattle.std.specs.Prelude.{◌≡◌, ◌<◌, ◌-◌, ◌^◌, true, List, IsErrOf, OnOk};
ghost use Rattle.iss_disk.specs.Calls.{HasCause as HasDiskCause};
ghost use Rattle.iss_links.specs.Calls.{HasCause};
ghost use Rattle.iss_loops.specs.NodeBehavior.{IsOpen, NamesNodes, NodeBehavior};
ghost use Rattle.iss_loops.specs.NodeLoop.{Cuts, HasLooped, node_loop_of, proposes, receives, takes, turn, wakes};
ghost use Rattle.iss_loops.specs.NodeSteps.{Does, seen};
ghost use Rattle.iss_rules.specs.declared.events.NodeEvent.{NodeEvent as ModelEvent};

use crate::errors::NodeError;
use crate::events::{next_of, take_packet};
use crate::node::{JournaledNode, NodeStep};
use crate::sending::Sender;
use iss_links::Links;
use iss_request::Bytes;
use iss_rules::NodeEvent;

/// How far a node's loop has come, beside its events and its links.
#[derive(Clone, Copy, Debug)]
pub struct NodeProgress {
    /// How many packets it has sent.
    pub count: u64,
    /// It has not proposed in this turn, and no packet has arrived.
    pub idle: bool,
    /// How many turns in a row before this one were idle.
    pub idle_turns: u32,
}

impl NodeProgress {
    /// The progress of a loop that begins.
    pub fn new() -> NodeProgress
        ensures { result ≡ record { count = 0; idle = true; idle_turns = 0 } }
    {
        NodeProgress {
            count: 0,
            idle: true,
            idle_turns: 0,
        }
    }
}

// The node takes an event. If it accepts the event, what it sends goes to the links. The event is in the journal then.
// A node sends what its accepted events made, each packet under its own count
fn take<N: JournaledNode, L: Links>(
    node: &mut N,
    links: &mut L,
    progress: &mut NodeProgress,
    event: NodeEvent,
) -> Result<(), NodeError>
    requires open { IsOpen (N.has node.old) }
    requires names { NamesNodes (N.nodes node.old) event }
    ensures { Does 0 (λ B. takes B event)
        (seen N.has N.leaves N.nodes N.place N.faults L.ends L.faults node.old links.old progress.old)
        (seen N.has N.leaves N.nodes N.place N.faults L.ends L.faults node.new links.new progress.new) result }
{
    match node.take(event)? {
        NodeStep::Taken(sends) => {
            Sender::of(node).send_each(links, progress, sends.as_slice())?;
            Ok(())
        }
        NodeStep::Dropped => Ok(()),
    }
}

// The node proposes, if it leads and has a free slot.
fn propose<N: JournaledNode, L: Links>(
    node: &mut N,
    links: &mut L,
    progress: &mut NodeProgress,
) -> Result<(), NodeError>
    requires { IsOpen (N.has node.old) }
    ensures { Does 0 proposes
        (seen N.has N.leaves N.nodes N.place N.faults L.ends L.faults node.old links.old progress.old)
        (seen N.has N.leaves N.nodes N.place N.faults L.ends L.faults node.new links.new progress.new) result }
{
    if !node.castable() {
        return Ok(());
    }
    progress.idle = false;
    take(node, links, progress, NodeEvent::Propose)
}

// The node takes what its end hands out, at most one packet.
// A node takes each packet that arrives whole, whoever sent it
fn receive<N: JournaledNode, L: Links>(
    node: &mut N,
    links: &mut L,
    progress: &mut NodeProgress,
    most: u32,
) -> Result<(), NodeError>
    requires { IsOpen (N.has node.old) }
    ensures { Does 0 (λ B. receives B most)
        (seen N.has N.leaves N.nodes N.place N.faults L.ends L.faults node.old links.old progress.old)
        (seen N.has N.leaves N.nodes N.place N.faults L.ends L.faults node.new links.new progress.new) result }
{
    let nodes = node.nodes();
    let me = node.me();
    prove!(me < nodes);
    match take_packet(links, me, most)? {
        Some(packet) => {
            progress.idle = false;
            take(node, links, progress, NodeEvent::Packet(Bytes::of(packet)))
        }
        None => Ok(()),
    }
}

// The node wakes up: it times out for each leader whose segment it has not filled, and asks the next node, if there is
// another.
fn wake<N: JournaledNode, L: Links>(
    node: &mut N,
    links: &mut L,
    progress: &mut NodeProgress,
) -> Result<(), NodeError>
    requires { IsOpen (N.has node.old) }
    ensures { Does 0 wakes
        (seen N.has N.leaves N.nodes N.place N.faults L.ends L.faults node.old links.old progress.old)
        (seen N.has N.leaves N.nodes N.place N.faults L.ends L.faults node.new links.new progress.new) result }
{
    let unfilled = node.unfilled()?;
    let leaders = unfilled.as_slice();
    for leader in leaders {
        take(node, links, progress, NodeEvent::Timeout(*leader))?;
    }
    let nodes = node.nodes();
    let me = node.me();
    if nodes <= 1 {
        return Ok(());
    }
    let peer = next_of(me, nodes);
    take(node, links, progress, NodeEvent::AskFrom(peer))
}

// One turn. An idle turn is counted. After `patience` idle turns in a row the node wakes up.
fn take_turn<N: JournaledNode, L: Links>(
    node: &mut N,
    links: &mut L,
    progress: &mut NodeProgress,
    frames: u32,
    patience: u32,
) -> Result<(), NodeError>
    requires open { IsOpen (N.has node.old) }
    requires idle_turns { progress.old.idle_turns < 2 ^ 32 - 1 }
    ensures { Does 1 (λ B. turn B frames patience)
        (seen N.has N.leaves N.nodes N.place N.faults L.ends L.faults node.old links.old progress.old)
        (seen N.has N.leaves N.nodes N.place N.faults L.ends L.faults node.new links.new progress.new) result }
{
    progress.idle = true;
    propose(node, links, progress)?;
    receive(node, links, progress, frames)?;
    if !progress.idle {
        progress.idle_turns = 0;
        return Ok(());
    }
    if progress.idle_turns + 1 != patience {
        progress.idle_turns += 1;
        return Ok(());
    }
    progress.idle_turns = 0;
    wake(node, links, progress)
}

/// The loop of one node, from the events that it has accepted since it was opened. If the links record their frames,
/// the events that the node accepts are those of the definition, and so is what the links hold at the end. Each packet
/// is sent after its event was journaled.
///
/// # Errors
///
/// `LinksFault` only if the links' count of faults increased, `DiskFault` only if the disk's did, and `NoMemory`. At
/// `DiskFault` nothing was sent of the event at which the disk failed.
// A node goes on from what its journal led to, and ends after its turns
pub fn run_node_loop<N: JournaledNode, L: Links>(
    node: &mut N,
    links: &mut L,
    frames: u32,
    patience: u32,
    turns: u32,
) -> Result<(), NodeError>
    requires { IsOpen (N.has node.old) }
    ensures goes { OnOk result ((B : NodeBehavior) (events : List ModelEvent) → N.has node.old B events →
        HasLooped events (N.has node.new B) (L.ends links.old) (L.ends links.new)
        (node_loop_of B frames patience turns events)) }
    ensures cut { IsErrOf result NodeError.DiskFault → Cuts (N.has node.old) (N.leaves node.new) (L.ends links.old)
        (record { count = 0; idle = true; idle_turns = 0 }) (L.ends links.new) }
    ensures links { HasCause (L.faults links.old) (L.faults links.new) (IsErrOf result NodeError.LinksFault) }
    ensures disk { HasDiskCause (N.faults node.old) (N.faults node.new) (IsErrOf result NodeError.DiskFault) }
    ensures place { N.place node.new ≡ N.place node.old }
    ensures same { N.nodes node.new ≡ N.nodes node.old }
{
    let mut progress = NodeProgress::new();
    for _ in 0..turns {
        take_turn(node, links, &mut progress, frames, patience)?;
    }
    Ok(())
}
