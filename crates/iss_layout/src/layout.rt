//! The division of one epoch.
ghost use Rattle.std.specs.Prelude.{◌≡◌, ◌+◌, ◌%◌, ◌^◌, ◌<◌, ◌≤◌, List, length, take, slice_get, IfOk, Some};
ghost use Rattle.iss_request.specs.Setup.{IsGoodSetup};
ghost use Rattle.iss_layout.specs.Layout.{Ended, first_slot, IsSlotOf, IsStanding, carried, conduct_of, plan_by, slot_leader, leads, bucket_owner, bucket_of, segment};

use crate::candidates::Candidates;
use crate::standing::{MOST_NODES, Standing};
use iss_request::{Epoch, NoMemory, NodeId, ReqId, Seq, Setup, Slot};
use std::alloc::Global;
use std::marker::Model;

/// The leaders of an epoch, their segments, and their buckets.
#[derive(Drop, Debug)]
pub struct Layout {
    epoch: u64,
    start: u64,
    nodes: u32,
    slots: u64,
    buckets: u32,
    // the first `count` are leaders
    leaders: [NodeId; MOST_NODES],
    count: usize,
}

impl Model for Layout {
    ghost use Rattle.std.specs.Prelude.{◌≡◌, length, take};
    ghost use Rattle.iss_layout.specs.Layout.{Plan, IsGoodPlan};

    ghost Value = { Plan };

    ghost view = { λ l. record {
      epoch = l.epoch;
      start = l.start;
      nodes = l.nodes;
      slots = l.slots;
      buckets = l.buckets;
      leaders = take l.count l.leaders;
    } };

    ghost invariant = { λ l. (length (take l.count l.leaders) ≡ l.count) × IsGoodPlan (record {
      epoch = l.epoch;
      start = l.start;
      nodes = l.nodes;
      slots = l.slots;
      buckets = l.buckets;
      leaders = take l.count l.leaders;
    }) };
}

impl Layout {
    /// The division of an epoch, given its first slot and the standing after all earlier epochs. All of its slots must
    /// be below 2^64.
    // rule: Layout: Who leads an epoch is a function of the log before it
    // rule: Layout: An epoch begins where the one before it ends
    pub fn of(setup: &Setup, epoch: Epoch, start: u64, standing: &Standing) -> Layout
        requires good { IsGoodSetup setup.now }
        requires fits { start + setup.now.epoch ≤ 2 ^ 64 }
        ensures carried { result ≡ plan_by setup.now epoch.0 start (carried standing.now) }
        ensures past { (past : List Ended) → IsStanding setup.now past standing.now →
            result ≡ plan_by setup.now epoch.0 start (conduct_of past) }
    {
        let (leaders, count) = Candidates { setup, standing }.leaders();
        Layout {
            epoch: epoch.0,
            start,
            nodes: setup.n,
            slots: setup.epoch,
            buckets: setup.buckets,
            leaders,
            count,
        }
    }

    /// The first slot of the epoch.
    pub fn first(&self) -> Slot
        ensures { result.0 ≡ first_slot self.now }
    {
        Slot(self.start)
    }

    /// The leaders, ascending.
    pub fn leaders(&self) -> &[NodeId]
        ensures { result.now ≡ self.now.leaders }
    {
        &self.leaders[..self.count]
    }

    /// Whether the node leads.
    pub fn leads(&self, node: NodeId) -> bool
        ensures { result ≡ leads self.now node.0 }
    {
        self.leaders().contains(&node)
    }

    /// The leader of a slot of the epoch. Slots are dealt to the leaders round-robin.
    // rule: Layout: The leaders of an epoch take its slots in turn
    pub fn segment_of(&self, slot: Slot) -> NodeId
        requires { IsSlotOf self.now slot.0 }
        ensures { slot_leader self.now slot.0 ≡ Some result }
    {
        self.at_turn((slot.0 - self.start) % self.count as u64)
    }

    /// The node's segment: the slots of the epoch that it leads, ascending. The only error is out of memory.
    pub fn slots_of(&self, alloc: Global, node: NodeId) -> Result<Seq<Slot>, NoMemory>
        ensures { IfOk result (λ slots. slots ≡ segment self.now node.0) }
    {
        let mut slots = Seq::new(alloc);
        for k in 0..self.slots {
            let slot = Slot(self.start + k);
            if self.segment_of(slot) == node {
                slots.push(slot)?;
            }
        }
        Ok(slots)
    }

    /// The leader that owns a bucket. The bucket must be below `buckets`.
    // rule: Layout: A bucket's home moves by one node an epoch and owns it if it leads; else leaders take turns
    pub fn owner_of(&self, bucket: u32) -> NodeId
        requires { bucket < self.now.buckets }
        ensures { bucket_owner self.now bucket ≡ Some result }
    {
        let home = NodeId(rotated(bucket, self.epoch, self.nodes) as u8);
        if self.leads(home) {
            home
        } else {
            self.at_turn(rotated(bucket, self.epoch, self.count as u32))
        }
    }

    /// The number of buckets.
    pub fn buckets(&self) -> u32
        ensures value { result ≡ self.now.buckets }
        ensures some { 1 ≤ result }
    {
        self.buckets
    }

    /// The bucket of a request.
    // rule: Layout: A request's bucket is a function of its client and number alone
    pub fn bucket_of(&self, id: ReqId) -> u32
        ensures value { result ≡ bucket_of self.now id }
        ensures below { result < self.now.buckets }
    {
        ((id.client as u64 + id.number as u64) % self.buckets as u64) as u32
    }

    /// The leader that owns the request's bucket.
    pub fn owner_of_request(&self, id: ReqId) -> NodeId
        ensures { bucket_owner self.now (bucket_of self.now id) ≡ Some result }
    {
        self.owner_of(self.bucket_of(id))
    }

    // The leader at a turn of the first round.
    fn at_turn(&self, turn: u64) -> NodeId
        requires { turn < length self.now.leaders }
        ensures { slice_get self.now.leaders turn ≡ Some result }
    {
        self.leaders[turn as usize]
    }
}

// `(bucket + epoch) % count`, without overflow of the sum.
fn rotated(bucket: u32, epoch: u64, count: u32) -> u64
    requires { 1 ≤ count }
    ensures value { result ≡ (bucket + epoch) % count }
    ensures below { result < count }
{
    let count = count as u64;
    (bucket as u64 % count + epoch % count) % count
}
