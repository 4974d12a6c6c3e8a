//! The packets that were sent, which of them wait for delivery, and which cores are held.
ghost use Rattle.std.specs.Prelude.{◌≡◌, ◌<◌, length, [], ◌∷◌, vec_len, vec_capacity, true, false, ◌++◌, IfOk, OnOk, is_ok, if◌then◌else◌};
ghost use Rattle.std.specs.Option.{option_copied};
ghost use Rattle.iss_base.specs.Lists.{nth};

use crate::packets::Sent;
use crate::queues::Queue;
use iss_request::{Bytes, NoMemory};
use std::alloc::Global;
use std::marker::Model;

/// All packets that were sent, in order; a packet's number is its place, from 0. It also knows which packets wait, and
/// which cores are held. Waiting packets are found by core, so those of a held core cost nothing.
#[derive(Drop)]
pub struct Network {
    packets: Vec<Sent>,
    // for each packet whether it waits
    waiting: Vec<bool>,
    // for each core the numbers of its waiting packets, and perhaps of some that stopped waiting
    queues: Vec<Queue>,
    held: Vec<bool>,
}

impl Model for Network {
    ghost use Rattle.iss_network.specs.Network as network;
    ghost use Rattle.iss_network.specs.Kept.{flagged, IsKept};

    ghost Value = { network.Network };

    ghost view = { λ w. record { packets = w.packets.items; waits = flagged w.waiting.items; held = w.held.items } };

    ghost invariant = { λ w. IsKept w.packets.items w.waiting.items w.queues.items w.held.items };
}

impl Network {
    ghost use Rattle.iss_network.specs.Network.{empty_network, posted, settled, cleared, held_to, due};
    ghost use Rattle.iss_network.specs.Kept.{gathered};

    /// No packets yet, between this number of cores, none of them held. The only error is out of memory.
    pub fn new(alloc: Global, cores: u32) -> Result<Network, NoMemory>
        ensures { IfOk result (λ w. w ≡ empty_network cores) }
    {
        let mut queues = Vec::new(alloc);
        for _ in 0..cores {
            queues.push(Queue::new(alloc))?;
        }
        Ok(Network {
            packets: Vec::new(alloc),
            waiting: Vec::new(alloc),
            queues,
            held: vec![in alloc; false; cores as usize]?,
        })
    }

    /// Sends a packet: it takes the next number, and waits. On out of memory nothing changes.
    pub fn post(&mut self, from: u32, to: u32, bytes: Bytes) -> Result<(), NoMemory>
        requires { to < length self.old.held }
        ensures { self.new ≡ (if is_ok result then posted self.old (record { from = from; to = to; bytes = bytes })
            else self.old) }
    {
        let number = self.packets.len() as u64;
        self.packets.reserve(1)?;
        self.waiting.reserve(1)?;
        self.queues[to as usize].push(number)?;
        put(&mut self.waiting, true);
        put(&mut self.packets, Sent { from, to, bytes });
        Ok(())
    }

    /// The number of packets that were sent.
    pub fn count(&self) -> u64
        ensures { result ≡ length self.now.packets }
    {
        self.packets.len() as u64
    }

    /// Packet `number`, if it was sent.
    pub fn packet(&self, number: u64) -> Option<&Sent>
        ensures { option_copied result ≡ nth self.now.packets number }
    {
        self.packets.get(number as usize)
    }

    /// All packets that were sent, by number.
    pub fn packets(&self) -> &[Sent]
        ensures { result.now ≡ self.now.packets }
    {
        self.packets.as_slice()
    }

    /// Packet `number` stops waiting. For a number that was not sent nothing changes.
    pub fn settle(&mut self, number: u64)
        ensures { self.new ≡ settled self.old number }
    {
        let place = number as usize;
        if place < self.waiting.len() {
            self.waiting[place] = false;
        }
    }

    /// Pumps skip this core from now on.
    // rule: Network: Pumps pass over a core that is held
    pub fn hold(&mut self, core: u32)
        requires { core < length self.old.held }
        ensures { self.new ≡ held_to self.old core true }
    {
        self.held[core as usize] = true;
    }

    /// Pumps skip this core no more.
    pub fn free(&mut self, core: u32)
        requires { core < length self.old.held }
        ensures { self.new ≡ held_to self.old core false }
    {
        self.held[core as usize] = false;
    }

    /// All packets for this core stop waiting.
    // rule: Network: A drop ends the waiting of all packets for a core
    pub fn drop_for(&mut self, core: u32)
        requires { core < length self.old.held }
        ensures { self.new ≡ cleared self.old core }
    {
        self.queues[core as usize].clear(&mut self.waiting);
    }

    /// What a pump delivers now: the numbers of the packets that wait for cores that are not held, ascending. The only
    /// error is out of memory.
    // rule: Network: A pump takes what waits for cores that are not held, in ascending order
    pub fn due(&mut self, alloc: Global) -> Result<Vec<u64>, NoMemory>
        ensures same { self.new ≡ self.old }
        ensures found { IfOk result (λ numbers. numbers.items ≡ due self.old) }
    {
        let mut numbers = Vec::new(alloc);
        for core in 0..self.held.len() {
            self.gather(core, &mut numbers)?;
        }
        numbers.sort()?;
        Ok(numbers)
    }

    /// Adds the numbers of the packets that wait for this core, unless it is held.
    fn gather(&mut self, core: usize, numbers: &mut Vec<u64>) -> Result<(), NoMemory>
        requires { core < length self.old.held }
        ensures same { self.new ≡ self.old }
        ensures added { OnOk result (numbers.new.items ≡ numbers.old.items ++ gathered self.old core) }
    {
        if !self.held[core] {
            self.queues[core].prune(&self.waiting);
            numbers.extend_from_slice(self.queues[core].numbers())?;
        }
        Ok(())
    }
}

/// Appends an element, for which room was reserved.
fn put<T: Drop>(items: &mut Vec<T>, item: T)
    requires { vec_len items.old < vec_capacity items.old }
    ensures { items.new.items ≡ items.old.items ++ item ∷ [] }
{
    let _ = items.push(item);
}
