// What a node sends.
ghost use Rattle.std.specs.Prelude.{◌≡◌, ◌<◌, ◌≤◌, ◌^◌, ◌+◌, ℕ, List, Some, OnOk, IsErrOf};
ghost use Rattle.iss_links.specs.Calls.{HasCause};
ghost use Rattle.iss_links.specs.Ends.{End};
ghost use Rattle.iss_loops.specs.NodeBehavior.{NodeBehavior};
ghost use Rattle.iss_loops.specs.NodeLoop.{IsAt, NodeState, copies, send_below, send_each, send_to};
ghost use Rattle.iss_rules.specs.declared.events.NodeEvent.{NodeEvent as ModelEvent};

use crate::errors::LoopError;
use crate::node::JournaledNode;
use crate::node_loop::NodeProgress;
use iss_links::Links;
use iss_request::Bytes;
use iss_sb::To;

// Which node sends, and to how many.
#[derive(Clone, Copy)]
pub(crate) struct Sender {
    me: u32,
    nodes: u32,
    ghost end: { me < 256 },
    ghost few: { nodes ≤ 64 },
}

impl Sender {
    // The node that sends.
    pub(crate) fn of<N: JournaledNode>(node: &N) -> Sender
        ensures { (B : NodeBehavior) (events : List ModelEvent) → N.has node.now B events →
            (B.me ≡ result.me) × (B.setup.n ≡ result.nodes) }
    {
        let nodes = node.nodes();
        let me = node.me();
        Sender { me, nodes }
    }

    // Sends a packet to all nodes, each time under the next number.
    fn send_below<L: Links>(&self, links: &mut L, count: u64, bytes: &[u8]) -> Result<(), LoopError>
        requires { count + self.now.nodes < 2 ^ 64 }
        ensures sent { OnOk result ((ends : List End) → L.ends links.old ≡ Some ends →
            L.ends links.new ≡ Some (send_below self.now.me count self.now.nodes bytes.now ends)) }
        ensures cause { HasCause (L.faults links.old) (L.faults links.new) (IsErrOf result LoopError.LinksFault) }
    {
        for node in 0..self.nodes {
            links.send(self.me, count + node as u64, node, bytes)?;
        }
        Ok(())
    }

    // Sends a packet to whom it is for. A count past 2^64 - 1 counts as out of memory.
    fn send_one<L: Links>(
        &self,
        links: &mut L,
        progress: &mut NodeProgress,
        send: &(To, Bytes),
    ) -> Result<(), LoopError>
        ensures ends { OnOk result ((ends : List End) → L.ends links.old ≡ Some ends → L.ends links.new ≡
            Some (send_to self.now.nodes self.now.me progress.old.count send.now.0 send.now.1 ends)) }
        ensures progress { OnOk result (progress.new ≡
            record progress.old { count = progress.old.count + copies self.now.nodes send.now.0 }) }
        ensures cause { HasCause (L.faults links.old) (L.faults links.new) (IsErrOf result LoopError.LinksFault) }
    {
        match send.0 {
            To::All => {
                let Some(after) = progress.count.checked_add(self.nodes as u64) else {
                    return Err(LoopError::NoMemory);
                };
                self.send_below(links, progress.count, send.1.as_slice())?;
                progress.count = after;
            }
            To::One(node) => {
                let Some(after) = progress.count.checked_add(1) else {
                    return Err(LoopError::NoMemory);
                };
                links.send(self.me, progress.count, node.0 as u32, send.1.as_slice())?;
                progress.count = after;
            }
        }
        Ok(())
    }

    // Sends all packets of an event.
    pub(crate) fn send_each<L: Links>(
        &self,
        links: &mut L,
        progress: &mut NodeProgress,
        sends: &[(To, Bytes)],
    ) -> Result<(), LoopError>
        ensures goes { OnOk result ((B : NodeBehavior) → B.setup.n ≡ self.now.nodes → B.me ≡ self.now.me →
            (events : List ModelEvent) (w : NodeState) → IsAt events (L.ends links.old) progress.old w →
            IsAt events (L.ends links.new) progress.new (send_each B sends.now w)) }
        ensures idle_turns { OnOk result (progress.new.idle_turns ≡ progress.old.idle_turns) }
        ensures cause { HasCause (L.faults links.old) (L.faults links.new) (IsErrOf result LoopError.LinksFault) }
    {
        for send in sends {
            self.send_one(links, progress, send)?;
        }
        Ok(())
    }
}
