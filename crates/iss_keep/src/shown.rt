//! What a kept node reports of its core. A stale node shows its log and epoch, and nothing else.
ghost use Rattle.std.specs.Prelude.{◌≡◌, ℕ, [], IfOk, None, map, option_map, reverse, false};
ghost use Rattle.iss_keep.specs.State.{KeptRefinesCore};
ghost use Rattle.iss_keep.specs.Steps.{Reports};
ghost use Rattle.iss_rules.specs.Concrete.{rules_of};
ghost use Rattle.iss_rules.specs.Formats.{formats_of};
ghost use Rattle.iss_model.specs.Node.{Core};
ghost use Rattle.iss_rules.specs.Past.{log_of};
ghost use Rattle.iss_rules.specs.Votes.{cert_on};
ghost use Rattle.iss_model.specs.Views.{accepted_by, claims_of_bytes, is_castable_now, unfilled};
ghost use Rattle.iss_node.specs.State.{accepted_of};
ghost use Rattle.iss_request.specs.Log.{ids};

use crate::kept::Kept;
use iss_checkpoint::Cert;
use iss_disk::Disk;
use iss_log::Log;
use iss_node::Accepted;
use iss_request::{Batch, Bytes, Epoch, NoMemory, NodeId, ReqId, Seq, Slot};
use iss_sb::{Claim, Sequenced};

impl<M: Sequenced, D: Disk> Kept<M, D> {
    /// The log. While the node is stale, this is the log from before the call that made it so. It is empty at first,
    /// and truncated after a retreat.
    pub fn log(&self) -> &Log
        ensures shown { result.now ≡ self.now.node.state.log }
        ensures is { (c : Core M.Msg) → KeptRefinesCore M.spec M.refines self.now c →
            log_of (rules_of self.now.setup) M.spec self.now.me.0 c.past ≡ reverse result.now.entries }
    {
        self.node.log()
    }

    /// The node's epoch. While the node is stale, the epoch from before the call that made it so.
    pub fn epoch(&self) -> Epoch
        ensures shown { result.0 ≡ self.now.node.state.epoch }
        ensures is { (c : Core M.Msg) → KeptRefinesCore M.spec M.refines self.now c → result.0 ≡ c.past.epoch }
    {
        self.node.epoch()
    }

    /// The certificate of an epoch. None if the node keeps none, and while it is stale.
    pub fn cert_at(&self, epoch: Epoch) -> Option<&Cert>
        ensures { Reports M.spec M.refines self.now
            (λ c. option_map (λ cert. cert.now) result ≡ cert_on c.certs epoch.0) (result ≡ None) }
    {
        if self.stale {
            return None;
        }
        self.node.cert_at(epoch)
    }

    /// The signatures that a packet claims, if it is a message of the node's current epoch for a leader of that epoch.
    /// None while the node is stale.
    pub fn claims_of(&self, bytes: &Bytes) -> Result<Seq<Claim>, NoMemory>
        ensures { IfOk result (λ claims. Reports M.spec M.refines self.now
            (λ c. claims ≡ claims_of_bytes (formats_of self.now.setup M.spec) (rules_of self.now.setup) M.spec
            self.now.me.0 c bytes.now) (claims ≡ [])) }
    {
        if self.stale {
            return Ok(Seq::of(Vec::new(self.alloc)));
        }
        self.node.claims_of(self.alloc, bytes)
    }

    /// The batches that the instances of the current epoch accepted, oldest first. None while the node is stale.
    pub fn accepted(&self) -> &[Accepted]
        ensures { Reports M.spec M.refines self.now
            (λ c. (l : ℕ) → reverse (accepted_of l result.now) ≡ accepted_by c l) (result.now ≡ []) }
    {
        if self.stale {
            return &[];
        }
        self.node.accepted()
    }

    /// The identities of waiting requests in order of arrival, and the batches in flight. None while the node is stale.
    pub fn unordered(&self) -> Result<(Seq<ReqId>, &[(Slot, Batch)]), NoMemory>
        ensures { IfOk result (λ both. Reports M.spec M.refines self.now
            (λ c. (both.0 ≡ ids c.waiting) × (both.1.now ≡ c.flight)) ((both.0 ≡ []) × (both.1.now ≡ []))) }
    {
        if self.stale {
            return Ok((Seq::of(Vec::new(self.alloc)), &[]));
        }
        self.node.unordered(self.alloc)
    }

    /// Whether a proposal would find a free slot. While the node is stale it would not.
    pub fn castable(&self) -> bool
        ensures { Reports M.spec M.refines self.now
            (λ c. result ≡ is_castable_now (rules_of self.now.setup) M.spec self.now.me.0 c) (result ≡ false) }
    {
        !self.stale && self.node.castable()
    }

    /// The leaders whose segments are not yet filled, ascending. None while the node is stale.
    pub fn unfilled(&self) -> Result<Seq<NodeId>, NoMemory>
        ensures { IfOk result (λ leaders. Reports M.spec M.refines self.now
            (λ c. map (λ l. l.0) leaders
            ≡ unfilled (rules_of self.now.setup) M.spec self.now.setup.n self.now.me.0 c.past) (leaders ≡ [])) }
    {
        if self.stale {
            return Ok(Seq::of(Vec::new(self.alloc)));
        }
        self.node.unfilled(self.alloc)
    }
}
