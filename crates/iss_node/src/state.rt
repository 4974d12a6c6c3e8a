//! The state of a node, and simple queries on it.
ghost use Rattle.std.specs.Prelude.{◌≡◌, ◌<◌, ◌+◌, Some, IsSome, IsTrue, is_some, nat_le, length, option_map};
ghost use Rattle.iss_keys.specs.Directories.{AreKeysOf};
ghost use Rattle.iss_model.specs.Node.{has_leaves};
ghost use Rattle.iss_node.specs.Internal.Ready.{HasLeaves, is_full};
ghost use Rattle.iss_node.specs.State.{led};
ghost use Rattle.iss_segment.specs.Instance.{SegmentState};

use crate::answers::{Accepted, Early};
use crate::flight::Flight;
use crate::saved::Saved;
use iss_ballots::Ballots;
use iss_buckets::Pending;
use iss_keys::{Keys, SharedDirectory};
use iss_layout::{Layout, Standing};
use iss_log::{Chains, Log};
use iss_request::{Epoch, NodeId, Setup};
use iss_sb::Sequenced;
use iss_segment::Segment;
use iss_window::{Ids, Windows};
use std::alloc::Global;
use std::marker::Model;

/// The state of a node. From earlier epochs it keeps the log with its chain of digests, the ordered requests, the
/// leader policy's record, and the votes and certificates.
#[derive(Drop)]
pub struct NodeState<M: Sequenced> {
    pub(crate) setup: Setup,
    pub(crate) me: NodeId,
    pub(crate) directory: SharedDirectory,
    pub(crate) epoch: Epoch,
    pub(crate) layout: Layout,
    pub(crate) windows: Windows,
    pub(crate) standing: Standing,
    // By node: its instance, if it leads the epoch.
    pub(crate) segments: Vec<Option<Segment<M>>>,
    pub(crate) accepted: Vec<Accepted>,
    pub(crate) log: Log,
    // The digest and the number of requests of each prefix of the log.
    pub(crate) chains: Chains,
    pub(crate) waiting: Pending,
    pub(crate) flight: Flight,
    pub(crate) early: Vec<Early<M::Msg>>,
    // The identities that were logged in this epoch.
    pub(crate) logged: Ids,
    // The checkpoint votes of all nodes, and the certificates.
    pub(crate) ballots: Ballots,
    // What the snapshots in the journal hold.
    pub(crate) saved: Saved,
    pub(crate) keys: Keys,
}

impl<M: Sequenced> Model for NodeState<M> {
    ghost use Rattle.iss_node.specs.Internal.Shape.{IsNodeState};
    ghost use Rattle.iss_node.specs.State.{StateView};

    ghost Value = { StateView M M.Msg };

    ghost view = { λ v. record {
      setup = v.setup;
      me = v.me;
      directory = v.directory;
      epoch = v.epoch.0;
      plan = v.layout;
      windows = v.windows;
      standing = v.standing;
      segments = v.segments.items;
      accepted = v.accepted.items;
      log = v.log;
      chains = v.chains;
      waiting = v.waiting;
      flight = v.flight;
      early = v.early.items;
      logged = v.logged;
      ballots = v.ballots;
      saved = v.saved;
      keys = v.keys;
    } };

    ghost invariant = { λ v. IsNodeState M.spec (record {
      setup = v.setup;
      me = v.me;
      directory = v.directory;
      epoch = v.epoch.0;
      plan = v.layout;
      windows = v.windows;
      standing = v.standing;
      segments = v.segments.items;
      accepted = v.accepted.items;
      log = v.log;
      chains = v.chains;
      waiting = v.waiting;
      flight = v.flight;
      early = v.early.items;
      logged = v.logged;
      ballots = v.ballots;
      saved = v.saved;
      keys = v.keys;
    }) };
}

impl<M: Sequenced> NodeState<M> {
    /// The instance of a node, if it leads the epoch.
    pub(crate) fn segment(&self, leader: NodeId) -> Option<&Segment<M>>
        ensures led { option_map (λ g. g.now) result ≡ led self.now.segments leader.0 }
        ensures below { IsSome result → leader.0 < self.now.setup.n }
    {
        match self.segments.get(leader.0 as usize) {
            Some(Some(segment)) => Some(segment),
            _ => None,
        }
    }

    /// Whether the node leads the epoch.
    pub(crate) fn leads(&self, leader: NodeId) -> bool
        ensures leads { result ≡ is_some (led self.now.segments leader.0) }
        ensures below { IsTrue result → leader.0 < self.now.setup.n }
    {
        self.segment(leader).is_some()
    }

    /// Whether enough one-time keys are left for a step of this leader's instance, and then one for the vote at the end
    /// of the epoch.
    // rule: Acceptance: A node keeps one leaf back for its vote at the end of the epoch
    pub(crate) fn has_leaves(&self, leader: NodeId) -> bool
        ensures enough { IsTrue result → HasLeaves M.spec self.now leader.0 }
        ensures is { (g : SegmentState M) → led self.now.segments leader.0 ≡ Some g →
            AreKeysOf self.now.me.0 self.now.setup.keys self.now.keys →
            result ≡ has_leaves M.spec g.params self.now.keys.used }
    {
        match self.segment(leader) {
            Some(segment) => self.keys.left() > M::signs(segment.params()),
            None => false,
        }
    }

    /// Whether the log has all slots of the epoch.
    pub(crate) fn is_complete(&self) -> bool
        ensures { result ≡ is_full self.now }
    {
        self.layout.first().0 + self.setup.epoch <= self.log.entries().len() as u64
    }
}
