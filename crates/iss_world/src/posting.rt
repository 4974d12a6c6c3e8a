//! Posting the messages that a core sends.
ghost use Rattle.std.specs.Prelude.{◌≡◌, ◌<◌, OnOk};
ghost use Rattle.iss_model.specs.Run.{addressees, cores_of, posted_all, posted_to};
ghost use Rattle.iss_network.specs.Network.{posted};
ghost use Rattle.iss_world.specs.Internal.Posting.{is_for};
ghost use Rattle.iss_world.specs.State.{with_network};

use crate::members::Members;
use crate::simulation::Simulation;
use iss_request::{Bytes, NoMemory};
use iss_sb::{Sequenced, To};

// Whether a send is for this core: one to all is, and one to a node is for its own core and its twins.
fn is_for(members: &Members, to: To, core: u32) -> bool
    requires { core < cores_of members.now }
    ensures { result ≡ is_for members.now to core }
{
    match to {
        To::All => true,
        To::One(node) => members.node_of(core).0 == node.0,
    }
}

impl<M: Sequenced> Simulation<M> {
    /// Posts the packets of a core's step, in their order.
    pub(crate) fn post_all(&mut self, from: u32, sends: &[(To, Bytes)]) -> Result<(), NoMemory>
        requires { from < cores_of self.old.setup }
        ensures posted { OnOk result (self.new ≡
            with_network self.old (posted_all self.old.setup self.old.network from sends.now)) }
        ensures same { self.new.setup ≡ self.old.setup }
    {
        for send in sends {
            self.post_send(from, send)?;
        }
        Ok(())
    }

    // Posts the packets of one send: one for each core that it is for, ascending.
    // rule: Network: A send to all is a packet for each core, a send to a node one for each of its cores
    fn post_send(&mut self, from: u32, send: &(To, Bytes)) -> Result<(), NoMemory>
        requires { from < cores_of self.old.setup }
        ensures posted { OnOk result (self.new ≡ with_network self.old
            (posted_to self.old.network from send.now.1 (addressees self.old.setup send.now.0))) }
        ensures same { self.new.setup ≡ self.old.setup }
    {
        for core in 0..self.members.cores() {
            if is_for(&self.members, send.0, core) {
                self.post_to(from, core, &send.1)?;
            }
        }
        Ok(())
    }

    // Posts a packet to a core.
    fn post_to(&mut self, from: u32, core: u32, bytes: &Bytes) -> Result<(), NoMemory>
        requires from { from < cores_of self.old.setup }
        requires core { core < cores_of self.old.setup }
        ensures posted { OnOk result (self.new ≡ with_network self.old
            (posted self.old.network (record { from = from; to = core; bytes = bytes.now }))) }
        ensures same { self.new.setup ≡ self.old.setup }
    {
        self.network.post(from, core, bytes.copy()?)
    }
}
