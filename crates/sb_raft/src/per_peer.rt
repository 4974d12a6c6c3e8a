//! A value for each node.
ghost use Rattle.std.specs.Prelude.{◌≡◌, ℕ, OnOk};
ghost use Rattle.iss_base.specs.Lists.{set_at};
ghost use Rattle.iss_base.specs.Quorum.{count_below};
ghost use Rattle.sb_raft.specs.Kept.{kept};

use iss_request::{NoMemory, NodeId};
use std::alloc::Global;
use std::collections::BTreeMap;

/// A value for each node: `others` for all nodes that are not in the map.
#[derive(Drop)]
pub struct PerPeer<T> {
    pub(crate) set: BTreeMap<u8, T>,
    pub(crate) others: T,
}

impl<T: Copy + Drop> PerPeer<T> {
    /// The same value for all nodes.
    pub fn all(alloc: Global, others: T) -> PerPeer<T>
        ensures { (k : ℕ) → kept result k ≡ others }
    {
        PerPeer {
            set: BTreeMap::new(alloc),
            others,
        }
    }

    /// The node's value.
    pub fn at(&self, node: NodeId) -> T
        ensures { result ≡ kept self.now node.0 }
    {
        match self.set.get(&node.0) {
            Some(thing) => *thing,
            None => self.others,
        }
    }

    /// Sets the node's value. The only error is out of memory.
    pub fn put(&mut self, node: NodeId, thing: T) -> Result<(), NoMemory>
        ensures { OnOk result ((k : ℕ) → kept self.new k ≡ set_at (kept self.old) node.0 thing k) }
    {
        self.set.insert(node.0, thing)?;
        Ok(())
    }
}

/// How many of nodes 0 to `n` - 1 are marked.
pub fn count(marks: &PerPeer<bool>, n: u8) -> u32
    ensures { result ≡ count_below (kept marks.now) n }
{
    let mut count = 0u32;
    for node in 0..n {
        if marks.at(NodeId(node)) {
            count += 1;
        }
    }
    count
}
