//! What a world shows of a core while its disk works. A core whose disk has failed shows its log and epoch alone.
ghost use Rattle.std.specs.Prelude.{◌≡◌, ◌<◌, ℕ, IfOk, map, reverse};
ghost use Rattle.iss_model.specs.Frames.{claims_of_bytes_in, frame_of};
ghost use Rattle.iss_model.specs.Run.{cores_of, node_of};
ghost use Rattle.iss_model.specs.Views.{accepted_by, is_castable_now, unfilled};
ghost use Rattle.iss_node.specs.State.{accepted_of};
ghost use Rattle.iss_request.specs.Log.{ids};
ghost use Rattle.iss_rules.specs.Concrete.{rules_of};
ghost use Rattle.iss_world.specs.Refines.{IfWorks};

use crate::world::World;
use iss_node::Accepted;
use iss_request::{Batch, Bytes, NoMemory, NodeId, ReqId, Seq, Slot};
use iss_sb::{Claim, Sequenced};

impl<M: Sequenced> World<M> {
    /// The signatures that a packet claims, if it is a message of the core's epoch for a leader of that epoch.
    pub fn claims_of(&self, core: u32, bytes: &Bytes) -> Result<Seq<Claim>, NoMemory>
        requires { core < cores_of self.now.simulation.setup }
        ensures { IfOk result (λ claims. IfWorks M.spec M.refines self.now core (λ c. claims ≡ claims_of_bytes_in
            (frame_of self.now.simulation.setup M.spec) (node_of self.now.simulation.setup core) c bytes.now)) }
    {
        self.node(core).claims_of(bytes)
    }

    /// The batches that the instances of the core's epoch accepted, oldest first.
    pub fn accepted(&self, core: u32) -> &[Accepted]
        requires { core < cores_of self.now.simulation.setup }
        ensures { (l : ℕ) → IfWorks M.spec M.refines self.now core
            (λ c. reverse (accepted_of l result.now) ≡ accepted_by c l) }
    {
        self.node(core).accepted()
    }

    /// The identities of the requests that wait at a core, in order of arrival, and its batches in flight.
    pub fn unordered(&self, core: u32) -> Result<(Seq<ReqId>, &[(Slot, Batch)]), NoMemory>
        requires { core < cores_of self.now.simulation.setup }
        ensures { IfOk result (λ both. IfWorks M.spec M.refines self.now core
            (λ c. (both.0 ≡ ids c.waiting) × (both.1.now ≡ c.flight))) }
    {
        self.node(core).unordered()
    }

    /// Whether a proposal of the core would find a free slot.
    pub fn castable(&self, core: u32) -> bool
        requires { core < cores_of self.now.simulation.setup }
        ensures { IfWorks M.spec M.refines self.now core (λ c. result ≡ is_castable_now
            (rules_of self.now.simulation.setup) M.spec (node_of self.now.simulation.setup core) c) }
    {
        self.node(core).castable()
    }

    /// The leaders whose segments the core has not filled yet, ascending.
    pub fn unfilled(&self, core: u32) -> Result<Seq<NodeId>, NoMemory>
        requires { core < cores_of self.now.simulation.setup }
        ensures { IfOk result (λ leaders. IfWorks M.spec M.refines self.now core (λ c. map (λ l. l.0) leaders ≡
            unfilled (rules_of self.now.simulation.setup) M.spec self.now.simulation.setup.n
            (node_of self.now.simulation.setup core) c.past)) }
    {
        self.node(core).unfilled()
    }
}
