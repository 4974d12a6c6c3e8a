//! Votes: for each view, slot and replica the first one.
ghost use Rattle.std.specs.Prelude.{◌≡◌, ℕ, length, take, None, IfOk, OnOk};
ghost use Rattle.iss_base.specs.Lists.{first_of};
ghost use Rattle.sb_pbft.specs.Rules.{Ballot, is_at, voters, when};
ghost use Rattle.sb_pbft.specs.Places.{has_voted, signature_in, vote_at};

use iss_request::{Bytes, NoMemory, NodeId, Seq, Slot};
use iss_sb::Signed;
use std::alloc::Global;
use std::collections::BTreeMap;

/// The sender of a PrePrepare, a Prepare or a Commit, with its view, slot and signature.
#[derive(Drop)]
pub struct Envelope {
    pub from: NodeId,
    pub view: u16,
    pub slot: Slot,
    pub sig: Bytes,
}

impl Envelope {
    /// The envelope of these.
    pub fn of(from: NodeId, view: u16, slot: Slot, sig: Bytes) -> Envelope
        ensures { result ≡ record { from = from; view = view; slot = slot; sig = sig } }
    {
        Envelope {
            from,
            view,
            slot,
            sig,
        }
    }
}

/// The key of a vote: its view, its slot and the voter.
#[derive(PartialEq, Eq, PartialOrd, Ord, Drop)]
pub struct Mark {
    pub view: u16,
    pub slot: u64,
    pub node: u8,
}

/// The digest that a replica voted for, and the signature of the vote. Commits are stored with an empty signature.
#[derive(Drop)]
pub struct Voted {
    pub digest: [u8; 32],
    pub sig: Bytes,
}

/// The stored votes of one kind: Prepares or Commits.
#[derive(Drop)]
pub struct Votes {
    pub(crate) first: BTreeMap<Mark, Voted>,
}

impl Votes {
    /// No votes.
    pub fn new(alloc: Global) -> Votes
        ensures { (v s k : ℕ) → vote_at result v s k ≡ None }
    {
        Votes {
            first: BTreeMap::new(alloc),
        }
    }

    /// Stores a vote, unless one of this replica in the view at the slot is stored.
    // rule: PBFT: A replica's first Prepare and first Commit count, once a view and slot
    pub fn keep(&mut self, vote: Envelope, digest: [u8; 32]) -> Result<(), NoMemory>
        ensures { OnOk result ((v s k : ℕ) → vote_at self.new v s k ≡
            first_of (vote_at self.old v s k)
            (when (is_at vote.from.0 vote.view vote.slot.0 v s k) (record { digest = digest; sig = vote.sig }))) }
    {
        let mark = Mark {
            view: vote.view,
            slot: vote.slot.0,
            node: vote.from.0,
        };
        if self.first.contains_key(&mark) {
            return Ok(());
        }
        let sig = vote.sig;
        self.first.insert(mark, Voted { digest, sig })?;
        Ok(())
    }

    // Whether the replica voted for the digest.
    fn has_voted(&self, view: u16, slot: Slot, digest: &[u8; 32], node: u8) -> bool
        ensures { result ≡ has_voted digest.now (vote_at self.now view slot.0 node) }
    {
        let mark = Mark {
            view,
            slot: slot.0,
            node,
        };
        match self.first.get(&mark) {
            Some(vote) => *digest == vote.digest,
            None => false,
        }
    }

    // A copy of the signature of the replica's vote, empty if it did not vote.
    fn signature(&self, alloc: Global, view: u16, slot: Slot, node: u8) -> Result<Bytes, NoMemory>
        ensures { IfOk result (λ sig. sig ≡ signature_in (vote_at self.now view slot.0 node)) }
    {
        let mark = Mark {
            view,
            slot: slot.0,
            node,
        };
        match self.first.get(&mark) {
            Some(vote) => vote.sig.copy(),
            None => Ok(Bytes::new(alloc)),
        }
    }

    /// The number of replicas below `n` that voted for the digest.
    pub fn count(&self, view: u16, slot: Slot, digest: &[u8; 32], n: u8) -> u32
        ensures { result ≡ length (voters (vote_at self.now view slot.0) digest.now 0 n) }
    {
        let mut count = 0u32;
        for node in 0..n {
            if self.has_voted(view, slot, digest, node) {
                count += 1;
            }
        }
        count
    }

    /// The votes for the digest, of replicas below `n` in ascending order: the first `most` of them, with their
    /// signatures.
    pub fn votes(
        &self,
        alloc: Global,
        view: u16,
        slot: Slot,
        digest: &[u8; 32],
        n: u8,
        most: u32,
    ) -> Result<Seq<Signed>, NoMemory>
        ensures { IfOk result (λ votes. votes ≡ take most (voters (vote_at self.now view slot.0) digest.now 0 n)) }
    {
        let mut votes = Seq::new(alloc);
        for node in 0..n {
            if votes.len() < most as usize && self.has_voted(view, slot, digest, node) {
                let sig = self.signature(alloc, view, slot, node)?;
                votes.push(Signed {
                    by: NodeId(node),
                    sig,
                })?;
            }
        }
        Ok(votes)
    }
}
