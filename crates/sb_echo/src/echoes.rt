//! The echoes that a node received.
ghost use Rattle.std.specs.Prelude.{◌≡◌, ℕ, ◌≤◌, ◌&&◌, ◌||◌, ◌==◌, false, List, OnOk};
ghost use Rattle.iss_base.specs.Lists.{same_bytes};
ghost use Rattle.iss_base.specs.Quorum.{count_below};
ghost use Rattle.sb_echo.specs.Heard.{has};

use iss_request::{NoMemory, NodeId, Slot};
use std::alloc::Global;
use std::collections::BTreeSet;

/// That a node echoed a digest at a slot.
#[derive(PartialEq, Eq, PartialOrd, Ord, Drop)]
pub struct Heard {
    pub slot: u64,
    pub from: u8,
    pub digest: [u8; 32],
}

/// The received echoes, each once.
#[derive(Drop)]
pub struct Echoes {
    all: BTreeSet<Heard>,
}

impl Echoes {
    /// No echoes.
    pub fn new(alloc: Global) -> Echoes
        ensures { (s : ℕ) (d : List ℕ) (k : ℕ) → has result s d k ≡ false }
    {
        Echoes {
            all: BTreeSet::new(alloc),
        }
    }

    /// Whether an echo of the digest at the slot was received from the node.
    pub fn has(&self, slot: Slot, digest: &[u8; 32], from: u8) -> bool
        ensures { result ≡ has self.now slot.0 digest.now from }
    {
        let heard = Heard {
            slot: slot.0,
            from,
            digest: *digest,
        };
        self.all.contains(&heard)
    }

    /// Adds an echo.
    pub fn hear(&mut self, slot: Slot, digest: [u8; 32], from: NodeId) -> Result<(), NoMemory>
        ensures { OnOk result ((s : ℕ) (d : List ℕ) (k : ℕ) →
            has self.new s d k ≡ (((from.0 == k) && ((slot.0 == s) && same_bytes digest d)) || has self.old s d k)) }
    {
        let heard = Heard {
            slot: slot.0,
            from: from.0,
            digest,
        };
        self.all.insert(heard)?;
        Ok(())
    }

    /// The number of nodes below `n` that echoed the digest at the slot.
    pub fn count(&self, slot: Slot, digest: &[u8; 32], n: u8) -> u32
        ensures { result ≡ count_below (λ k. has self.now slot.0 digest.now k) n }
    {
        let mut count = 0u32;
        for from in 0..n {
            if self.has(slot, digest, from) {
                count += 1;
            }
        }
        count
    }
}
