//! For each bucket the arrival numbers of its requests.
ghost use Rattle.std.specs.Prelude.{◌≡◌, ◌<◌, ◌≤◌, [], length, replicate, true, false, ℕ, None, IfOk, IfSome, IfNone, OnOk, OnErr};
ghost use Rattle.std.specs.BTreeSet.{contains};
ghost use Rattle.std.specs.Ordering.{nat_cmp};
ghost use Rattle.iss_buckets.specs.Internal.Filed.{IsSetAt, bucket_of_id, has_number};

use iss_request::{NoMemory, ReqId};
use std::alloc::Global;
use std::collections::BTreeSet;
use std::marker::Model;

/// One queue for each bucket, with the arrival numbers of its requests, ascending.
#[derive(Drop)]
pub(crate) struct Queues {
    all: Vec<BTreeSet<u64>>,
}

impl Model for Queues {
    ghost use Rattle.std.specs.Prelude.{List, ℕ, map};

    ghost Value = { List (List ℕ) };

    ghost view = { λ q. map (λ s. s.keys) q.all.items };
}

impl Queues {
    /// No queues.
    pub(crate) fn none(alloc: Global) -> Queues
        ensures { result ≡ [] }
    {
        Queues {
            all: Vec::new(alloc),
        }
    }

    /// Empty queues for this number of buckets.
    pub(crate) fn empty(alloc: Global, count: usize) -> Result<Queues, NoMemory>
        ensures { IfOk result (λ q. q ≡ replicate count []) }
    {
        let mut all = Vec::with_capacity(alloc, count)?;
        for _i in 0..count {
            all.push(BTreeSet::new(alloc))?;
        }
        Ok(Queues { all })
    }

    /// The number of queues.
    pub(crate) fn count(&self) -> usize
        ensures { result ≡ length self.now }
    {
        self.all.len()
    }

    /// Adds a number to the queue of an identity's bucket, if there are queues.
    pub(crate) fn add(&mut self, id: ReqId, number: u64) -> Result<(), NoMemory>
        ensures ok { OnOk result (IsSetAt self.old self.new (bucket_of_id (length self.old) id) number true) }
        ensures err { OnErr result (self.new ≡ self.old) }
    {
        let count = self.all.len();
        if count == 0 {
            return Ok(());
        }
        self.all[bucket_of(id, count)].insert(number)?;
        Ok(())
    }

    /// Removes a number from the queue of an identity's bucket, if there are queues.
    pub(crate) fn remove(&mut self, id: ReqId, number: u64)
        ensures { IsSetAt self.old self.new (bucket_of_id (length self.old) id) number false }
    {
        let count = self.all.len();
        if count == 0 {
            return;
        }
        self.all[bucket_of(id, count)].remove(&number);
    }

    /// Discards all queues.
    pub(crate) fn clear(&mut self)
        ensures { self.new ≡ [] }
    {
        self.all.clear();
    }

    /// The first number in a queue that is at least `from`.
    pub(crate) fn next_from(&self, bucket: usize, from: u64) -> Option<u64>
        requires { bucket < length self.now }
        ensures some { IfSome result (λ k. (from ≤ k) × (has_number self.now bucket k ≡ true) ×
            ((j : ℕ) → from ≤ j → has_number self.now bucket j ≡ true → k ≤ j)) }
        ensures none { IfNone result ((j : ℕ) → from ≤ j → has_number self.now bucket j ≡ false) }
    {
        first_from(&self.all[bucket], from)
    }
}

// The first number in a set that is at least `from`.
fn first_from(set: &BTreeSet<u64>, from: u64) -> Option<u64>
    ensures some { IfSome result (λ k. (from ≤ k) × (contains nat_cmp set.now k ≡ true) ×
        ((j : ℕ) → from ≤ j → contains nat_cmp set.now j ≡ true → k ≤ j)) }
    ensures none { IfNone result ((j : ℕ) → from ≤ j → contains nat_cmp set.now j ≡ false) }
{
    match set.range(from..).next() {
        Some(number) => Some(*number),
        None => None,
    }
}

// The bucket of an identity, given the number of buckets.
fn bucket_of(id: ReqId, buckets: usize) -> usize
    requires { 1 ≤ buckets }
    ensures value { result ≡ bucket_of_id buckets id }
    ensures below { result < buckets }
{
    (id.client as usize + id.number as usize) % buckets
}
