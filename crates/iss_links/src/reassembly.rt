// Reassembly of the packets of one end.
ghost use Rattle.std.specs.Prelude.{◌≡◌, ◌≤◌, ◌⊎◌, suc, List, [], ◌++◌, length, take, drop, get_or, insert, IfOk, OnOk, option_map};
ghost use Rattle.std.specs.BTreeMap.{insert_entry};
ghost use Rattle.std.specs.Ordering.{nat_cmp};
ghost use Rattle.iss_links.specs.Reassembly.{Partial, AddsFragment, IsDropped, IsOutcome, add_fragment, belongs, completed_by, empty_partial, index_of, is_complete, latest_64, partials_after, payload};

use crate::frames::{Frame, read_frame};
use crate::{Arrival, NoMemory};
use std::alloc::Global;
use std::collections::BTreeMap;
use std::marker::Model;

// How many partial packets are kept.
const PARTIALS_MAX: usize = 64;

/// A packet some of whose parts were received, by their indices.
#[derive(Drop)]
pub struct PartialPacket {
    from: u8,
    number: u64,
    parts: u32,
    received: BTreeMap<u32, Vec<u8>>,
}

impl Model for PartialPacket {
    ghost use Rattle.std.specs.Prelude.{map};
    ghost use Rattle.iss_links.specs.Reassembly.{Partial};

    ghost Value = { Partial };

    ghost view = { λ p. record {
      from = p.from;
      number = p.number;
      parts = p.parts;
      received = map (λ e. (e.0, e.1.items)) p.received.entries;
    } };
}

impl PartialPacket {
    // The packet of a frame before any part was received.
    fn new(alloc: Global, frame: &Frame) -> PartialPacket
        ensures { result ≡ empty_partial frame.now }
    {
        PartialPacket {
            from: frame.from,
            number: frame.number,
            parts: frame.parts,
            received: BTreeMap::new(alloc),
        }
    }

    // Whether the frame belongs to this packet.
    // rule: Links: Fragments belong to one packet where sender, number and count of parts are equal
    fn owns(&self, frame: &Frame) -> bool
        ensures { result ≡ belongs frame.now self.now }
    {
        frame.from == self.from && frame.number == self.number && frame.parts == self.parts
    }

    // Adds the frame's part, unless it was received before.
    // rule: Links: Of each part the first fragment counts
    fn add(&mut self, frame: Frame) -> Result<(), NoMemory>
        ensures { OnOk result (self.new ≡ add_fragment frame self.old) }
    {
        if self.received.contains_key(&frame.part) {
            return Ok(());
        }
        insert_part(&mut self.received, frame.part, frame.bytes)
    }

    fn is_complete(&self) -> bool
        ensures { result ≡ is_complete self.now }
    {
        self.received.len() == self.parts as usize
    }

    // The received parts, joined.
    // rule: Links: Parts are joined in order of their indices, whatever the order of arrival
    fn payload(&self, alloc: Global) -> Result<Vec<u8>, NoMemory>
        ensures { IfOk result (λ v. v.items ≡ payload self.now) }
    {
        let mut packet = Vec::new(alloc);
        for bytes in self.received.values() {
            packet.extend_from_slice(bytes)?;
        }
        Ok(packet)
    }
}

// Inserts a part that was not received before.
fn insert_part(
    received: &mut BTreeMap<u32, Vec<u8>>,
    part: u32,
    bytes: Vec<u8>,
) -> Result<(), NoMemory>
    ensures { OnOk result (received.new.entries ≡ insert_entry nat_cmp received.old.entries part bytes) }
{
    received.insert(part, bytes)?;
    Ok(())
}

/// The partial packets of an end, oldest first.
#[derive(Drop)]
pub struct Reassembly {
    partials: Vec<PartialPacket>,
}

impl Model for Reassembly {
    ghost use Rattle.std.specs.Prelude.{List};
    ghost use Rattle.iss_links.specs.Reassembly.{Partial};

    ghost Value = { List Partial };

    ghost view = { λ s. s.partials.items };
}

impl Reassembly {
    /// No partial packet.
    pub fn new(alloc: Global) -> Reassembly
        ensures { result ≡ [] }
    {
        Reassembly {
            partials: Vec::new(alloc),
        }
    }

    // The index of the frame's packet, behind all others if none of its parts was received.
    fn index_of(&self, frame: &Frame) -> usize
        ensures index { result ≡ index_of frame.now self.now }
        ensures within { result ≤ length self.now }
    {
        for i in 0..self.partials.len() {
            if self.partials[i].owns(frame) {
                return i;
            }
        }
        self.partials.len()
    }

    // Removes the packet at index k, or makes the frame's packet if k is behind all others.
    fn remove_or_new(&mut self, alloc: Global, k: usize, frame: &Frame) -> PartialPacket
        requires { k ≤ length self.old }
        ensures packet { result ≡ get_or self.old k (empty_partial frame.now) }
        ensures others { self.new ≡ take k self.old ++ drop (suc k) self.old }
    {
        if k < self.partials.len() {
            self.partials.remove(k)
        } else {
            PartialPacket::new(alloc, frame)
        }
    }

    // Inserts a packet at index k. If there are then more than 64, the oldest is dropped.
    // rule: Links: An end keeps at most 64 partial packets; a further one pushes out the oldest
    fn insert(&mut self, k: usize, partial: PartialPacket) -> Result<(), NoMemory>
        requires { k ≤ length self.old }
        ensures { OnOk result (self.new ≡ latest_64 (insert self.old k partial)) }
    {
        self.partials.insert(k, partial)?;
        if self.partials.len() > PARTIALS_MAX {
            self.partials.remove(0);
        }
        Ok(())
    }

    /// Takes a frame. Returns the packet that it completes, which is then kept no more, or `None` if it completes none.
    /// A repeated part changes nothing. A 65th partial packet pushes out the oldest.
    // rule: Links: A complete packet is handed out once and kept no more
    pub fn take(&mut self, alloc: Global, frame: Frame) -> Result<Option<Vec<u8>>, NoMemory>
        ensures partials { OnOk result (self.new ≡ partials_after frame self.old) }
        ensures packet { IfOk result (λ r. option_map (λ v. v.items) r ≡ completed_by frame self.old) }
    {
        let k = self.index_of(&frame);
        let mut partial = self.remove_or_new(alloc, k, &frame);
        partial.add(frame)?;
        if partial.is_complete() {
            return Ok(Some(partial.payload(alloc)?));
        }
        self.insert(k, partial)?;
        Ok(None)
    }

    /// Takes the frame as an arrival: `Got` if it completes a packet, else `Part`.
    pub fn take_frame(&mut self, alloc: Global, frame: Frame) -> Result<Arrival, NoMemory>
        ensures partials { OnOk result (self.new ≡ partials_after frame self.old) }
        ensures arrival { IfOk result (IsOutcome (completed_by frame self.old)) }
    {
        match self.take(alloc, frame)? {
            Some(packet) => Ok(Arrival::Got(packet)),
            None => Ok(Arrival::Part),
        }
    }

    /// Takes a datagram from a link. One that is no frame is dropped, and answered with `Part`.
    // rule: Links: A datagram that is no frame is dropped
    pub fn take_datagram(&mut self, alloc: Global, datagram: &[u8]) -> Result<Arrival, NoMemory>
        ensures { IfOk result (λ arrival.
            AddsFragment datagram.now self.old self.new arrival ⊎ IsDropped datagram.now self.old self.new arrival) }
    {
        match read_frame(alloc, datagram)? {
            Some(frame) => self.take_frame(alloc, frame),
            None => Ok(Arrival::Part),
        }
    }
}
