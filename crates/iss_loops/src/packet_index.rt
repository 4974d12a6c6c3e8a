// Packets by receiver and bytes.
ghost use Rattle.std.specs.Prelude.{◌≡◌, ◌++◌, ◌∷◌, [], ◌==◌, ℕ, List, OnOk, length, take, if◌then◌else◌};
ghost use Rattle.iss_base.specs.Lists.{nth};
ghost use Rattle.iss_loops.specs.Internal.PacketIndex.{IsIndexOf, first_match, is_packet, key_from, listed};
ghost use Rattle.iss_loops.specs.Loop.{number_from};
ghost use Rattle.iss_network.specs.declared.packets.Sent.{Sent as Packet};

use iss_network::Sent;
use iss_request::NoMemory;
use std::alloc::Global;
use std::collections::HashMap;
use std::marker::Model;

/// The numbers of packets, which are found by receiver and bytes.
#[derive(Drop)]
pub struct PacketIndex {
    alloc: Global,
    // by key the numbers of all packets with this key, ascending
    lists: HashMap<u64, Vec<u64>>,
}

impl Model for PacketIndex {
    ghost use Rattle.std.specs.Prelude.{ℕ, List, Vec};
    ghost use Rattle.std.specs.Global.{Global};

    ghost Value = { List (ℕ × Vec ℕ Global) };

    ghost view = { λ i. i.lists.entries };
}

impl PacketIndex {
    /// The index of no packets.
    pub fn new(alloc: Global) -> PacketIndex
        ensures { IsIndexOf result [] }
    {
        PacketIndex {
            alloc,
            lists: HashMap::new(alloc),
        }
    }

    // The numbers under a key.
    fn numbers(&self, key: u64) -> &[u64]
        ensures { result.now ≡ listed self.now key }
    {
        match self.lists.get(&key) {
            Some(numbers) => numbers.as_slice(),
            None => &[],
        }
    }

    // Takes out the numbers under a key.
    fn take_list(&mut self, key: u64) -> Vec<u64>
        ensures list { result.items ≡ listed self.old key }
        ensures left { (k : ℕ) → listed self.new k ≡ (if key == k then [] else listed self.old k) }
    {
        match self.lists.remove(&key) {
            Some(numbers) => numbers,
            None => Vec::new(self.alloc),
        }
    }

    // Puts numbers under a key.
    fn put_list(&mut self, key: u64, numbers: Vec<u64>) -> Result<(), NoMemory>
        ensures { OnOk result ((k : ℕ) →
            listed self.new k ≡ (if key == k then numbers.items else listed self.old k)) }
    {
        self.lists.insert(key, numbers)?;
        Ok(())
    }

    // Adds the next packet.
    fn add(&mut self, number: u64, packet: &Sent) -> Result<(), NoMemory>
        ensures { OnOk result ((packets : List Packet) → IsIndexOf self.old packets → number ≡ length packets →
            IsIndexOf self.new (packets ++ packet.now ∷ [])) }
    {
        let key = key_of(packet.to, packet.bytes.as_slice());
        let mut numbers = self.take_list(key);
        numbers.push(number)?;
        self.put_list(key, numbers)
    }

    /// Adds the packets from number `first` on. On out of memory nothing is claimed of the index.
    pub fn add_from(&mut self, packets: &[Sent], first: usize) -> Result<(), NoMemory>
        ensures { OnOk result (IsIndexOf self.old (take first packets.now) → IsIndexOf self.new packets.now) }
    {
        for k in first..packets.len() {
            self.add(k as u64, &packets[k])?;
        }
        Ok(())
    }

    /// The number of the first of these packets that is for this core and has these bytes.
    // rule: Loopback: A packet that arrives is the least one that was sent to this core with these bytes
    pub fn find(&self, packets: &[Sent], core: u32, bytes: &[u8]) -> Option<u64>
        ensures { IsIndexOf self.now packets.now → result ≡ number_from 0 core bytes.now packets.now }
    {
        first_match(packets, core, bytes, self.numbers(key_of(core, bytes)))
    }
}

// The key of a packet.
fn key_of(core: u32, bytes: &[u8]) -> u64
    ensures { result ≡ key_from core bytes.now }
{
    let mut key = u64::from(core);
    for byte in bytes {
        key = key
            .wrapping_mul(1099511628211)
            .wrapping_add(u64::from(*byte));
    }
    key
}

// Whether packet `number` is for the core and has these bytes.
fn matches_at(packets: &[Sent], number: u64, core: u32, bytes: &[u8]) -> bool
    ensures { result ≡ is_packet (nth packets.now number) core bytes.now }
{
    match packets.get(number as usize) {
        Some(packet) => packet.to == core && packet.bytes.as_slice() == bytes,
        None => false,
    }
}

// The first of these numbers whose packet is for the core and has these bytes.
fn first_match(packets: &[Sent], core: u32, bytes: &[u8], numbers: &[u64]) -> Option<u64>
    ensures { result ≡ first_match packets.now core bytes.now numbers.now }
{
    for number in numbers {
        let number = *number;
        if matches_at(packets, number, core, bytes) {
            return Some(number);
        }
    }
    None
}
