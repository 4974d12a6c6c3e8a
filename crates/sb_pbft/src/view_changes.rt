//! ViewChanges: for each view and replica the first good one.
ghost use Rattle.std.specs.Prelude.{◌≡◌, ◌==◌, ◌&&◌, ℕ, length, None, is_some, IfOk, OnOk};
ghost use Rattle.iss_base.specs.Lists.{first_of};
ghost use Rattle.sb_pbft.specs.Rules.{changes_from, when};
ghost use Rattle.sb_pbft.specs.Places.{change_at};

use iss_request::{NoMemory, NodeId, Seq};
use pbft_wire::Change;
use std::alloc::Global;
use std::collections::BTreeMap;

/// The key of a ViewChange: the view that it asks for, and its sender.
#[derive(PartialEq, Eq, PartialOrd, Ord, Drop)]
pub struct Maker {
    pub view: u16,
    pub node: u8,
}

/// The stored ViewChanges.
#[derive(Drop)]
pub struct ViewChanges {
    pub(crate) first: BTreeMap<Maker, Change>,
}

impl ViewChanges {
    /// No ViewChanges.
    pub fn new(alloc: Global) -> ViewChanges
        ensures { (v k : ℕ) → change_at result v k ≡ None }
    {
        ViewChanges {
            first: BTreeMap::new(alloc),
        }
    }

    /// Whether a ViewChange of this replica for the view is stored.
    pub fn has(&self, view: u16, node: NodeId) -> bool
        ensures { result ≡ is_some (change_at self.now view node.0) }
    {
        let maker = Maker { view, node: node.0 };
        self.first.contains_key(&maker)
    }

    /// Stores a ViewChange, unless one of its sender for this view is stored.
    pub fn keep(&mut self, change: Change) -> Result<(), NoMemory>
        ensures { OnOk result ((v k : ℕ) → change_at self.new v k ≡
            first_of (change_at self.old v k) (when ((change.node.0 == k) && (v == change.view)) change)) }
    {
        let maker = Maker {
            view: change.view,
            node: change.node.0,
        };
        if self.first.contains_key(&maker) {
            return Ok(());
        }
        self.first.insert(maker, change)?;
        Ok(())
    }

    /// The number of replicas below `n` whose ViewChange for the view is stored.
    pub fn count(&self, view: u16, n: u8) -> u32
        ensures { result ≡ length (changes_from (change_at self.now view) 0 n) }
    {
        let mut count = 0u32;
        for node in 0..n {
            if self.has(view, NodeId(node)) {
                count += 1;
            }
        }
        count
    }

    /// Copies of the stored ViewChanges for the view, of replicas below `n`, in ascending order of their senders.
    pub fn all(&self, alloc: Global, view: u16, n: u8) -> Result<Seq<Change>, NoMemory>
        ensures { IfOk result (λ all. all ≡ changes_from (change_at self.now view) 0 n) }
    {
        let mut all = Seq::new(alloc);
        for node in 0..n {
            let maker = Maker { view, node };
            if let Some(change) = self.first.get(&maker) {
                all.push(change.copy(alloc)?)?;
            }
        }
        Ok(all)
    }
}
