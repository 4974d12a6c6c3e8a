//! The set-up of a cluster: what the header of its schedule says, and what follows from that.
ghost use Rattle.std.specs.Prelude.{◌≡◌, ◌≤◌, ◌++◌, ◌∷◌, [], length, IfOk, OnOk, OnErr, IsTrue, ◌↔◌};
ghost use Rattle.std.specs.List.{Contains};
ghost use Rattle.iss_request.specs.Setup.{nodes_of_kind, quorum_of_kind};

use crate::errors::NoMemory;
use crate::ids::NodeId;
use std::alloc::Global;
use std::marker::Model;

/// The fault model of a module. Byzantine: of `3f+1` nodes, `f` may be Byzantine. Stopping: of `2f+1` nodes, `f` may
/// crash.
#[derive(Clone, Copy, Debug, PartialEq, Eq)]
pub enum Kind {
    Byzantine,
    Stopping,
}

/// How the leaders of an epoch are chosen (ISS, leader selection policy).
#[derive(Clone, Copy, Debug, PartialEq, Eq)]
pub enum Policy {
    Simple,
    Backoff,
    Blacklist,
}

/// A list of nodes.
#[derive(Drop, Clone, Debug)]
pub struct Nodes {
    all: Vec<NodeId>,
}

impl Model for Nodes {
    ghost use Rattle.std.specs.Prelude.{List};
    ghost use Rattle.iss_request.specs.declared.ids.NodeId.{NodeId};

    ghost Value = { List NodeId };

    ghost view = { λ n. n.all.items };
}

impl Nodes {
    /// The empty list.
    pub fn new(alloc: Global) -> Nodes
        ensures { result ≡ [] }
    {
        Nodes {
            all: Vec::new(alloc),
        }
    }

    /// The nodes as a slice.
    pub fn as_slice(&self) -> &[NodeId]
        ensures { result.now ≡ self.now }
    {
        self.all.as_slice()
    }

    /// Appends a node.
    pub fn push(&mut self, node: NodeId) -> Result<(), NoMemory>
        ensures ok { OnOk result (self.new ≡ self.old ++ node ∷ []) }
        ensures err { OnErr result (self.new ≡ self.old) }
    {
        self.all.push(node)?;
        Ok(())
    }
}

/// The set-up of a cluster. `version` is that of the formats. `epoch` is the number of slots of an epoch. `keys` is the
/// height of the key trees. `tag` is the digest of the header; every signed statement of the cluster begins with it.
#[derive(Drop, Clone, Debug)]
pub struct Setup {
    pub version: u8,
    pub module: u8,
    pub f: u32,
    pub epoch: u64,
    pub buckets: u32,
    pub batch: u32,
    pub window: u32,
    pub policy: Policy,
    pub clients: u32,
    pub keys: u32,
    pub faulty: Nodes,
    pub n: u32,
    pub quorum: u32,
    pub kind: Kind,
    pub tag: [u8; 32],
}

impl Setup {
    /// A copy.
    pub fn copy(&self) -> Result<Setup, NoMemory>
        ensures { IfOk result (λ s. s ≡ self.now) }
    {
        Ok(self.clone()?)
    }
}

/// The number of nodes that tolerate `f` faults in a fault model (PBFT, Raft).
pub fn nodes_of_kind(kind: Kind, f: u32) -> u32
    requires { f ≤ 3 }
    ensures { result ≡ nodes_of_kind kind f }
{
    match kind {
        Kind::Byzantine => 3 * f + 1,
        Kind::Stopping => 2 * f + 1,
    }
}

/// The size of a quorum: any two quorums share a correct node (PBFT, Raft).
pub fn quorum(kind: Kind, f: u32) -> u32
    requires { f ≤ 3 }
    ensures { result ≡ quorum_of_kind kind f }
{
    match kind {
        Kind::Byzantine => 2 * f + 1,
        Kind::Stopping => f + 1,
    }
}
