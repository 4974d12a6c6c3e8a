// Links in memory that never fail.
ghost use Rattle.std.specs.Prelude.{◌≡◌, ◌<◌, ℕ, length, ◌++◌, IfOk, OnOk, IsErrOf};
ghost use Rattle.iss_links.specs.Ends.{IsFirst, empty_end, end_at, first_taken, with_packet};
ghost use Rattle.iss_links.specs.Frames.{fragments};

use crate::frames::{Frame, PACKET_MAX, Packet, Part};
use crate::{Arrival, EndError, Links, NoMemory, Reassembly};
use std::alloc::Global;
use std::collections::VecDeque;
use std::marker::Model;

// How many ends there are.
const ENDS: usize = 256;

// An end: the frames that wait there, and its partial packets.
#[derive(Drop)]
struct MemoryEnd {
    waiting: VecDeque<Frame>,
    partials: Reassembly,
}

impl Model for MemoryEnd {
    ghost use Rattle.std.specs.VecDeque.{deque_items};
    ghost use Rattle.iss_links.specs.Ends.{End};

    ghost Value = { End };

    ghost view = { λ e. record { waiting = e.waiting.items; partials = e.partials } };
}

impl MemoryEnd {
    fn new(alloc: Global) -> MemoryEnd
        ensures { result ≡ empty_end }
    {
        MemoryEnd {
            waiting: VecDeque::new(alloc),
            partials: Reassembly::new(alloc),
        }
    }

    // rule: Links: A packet waits at the end that it is sent to, behind what was sent there
    fn send(&mut self, alloc: Global, from: u8, number: u64, packet: &[u8]) -> Result<(), NoMemory>
        ensures { OnOk result (self.new ≡ with_packet from number packet.now self.old) }
    {
        if packet.len() > PACKET_MAX {
            return Ok(());
        }
        let whole = Packet { bytes: packet };
        for part in 0..whole.parts() {
            let frame = Part {
                packet: &whole,
                index: part,
            }
            .frame(alloc, from, number)?;
            self.waiting.push_back(frame)?;
        }
        Ok(())
    }

    // rule: Links: A take gives a packet exactly where its frame completes one, and `Nothing` only where no frame waits
    fn take(&mut self, alloc: Global) -> Result<Arrival, NoMemory>
        ensures arrival { IfOk result (IsFirst self.old.waiting self.old.partials) }
        ensures end { OnOk result (self.new ≡ first_taken self.old.waiting self.old.partials) }
    {
        match self.waiting.pop_front() {
            Some(frame) => self.partials.take_frame(alloc, frame),
            None => Ok(Arrival::Nothing),
        }
    }
}

/// Links in memory. They record all frames, hand them out in the order sent, and never fail.
#[derive(Drop)]
pub struct MemoryLinks {
    alloc: Global,
    ends: Vec<MemoryEnd>,
    ghost all: { length ends.items ≡ 256 },
}

impl MemoryLinks {
    /// Links with 256 ends, where no frame waits.
    pub fn new(alloc: Global) -> Result<MemoryLinks, NoMemory>
        ensures { IfOk result (λ links. (i : ℕ) → end_at links.ends.items i ≡ empty_end) }
    {
        let mut ends = Vec::new(alloc);
        while ends.len() < ENDS {
            ends.push(MemoryEnd::new(alloc))?;
        }
        Ok(MemoryLinks { alloc, ends })
    }
}

impl Links for MemoryLinks {
    ghost use Rattle.std.specs.Prelude.{Some};

    ghost ends = { λ links. Some links.ends.items };

    ghost faults = { λ links. 0 };

    fn attach(&mut self, _port: u16, _first: u32, _count: u32) -> Result<(), EndError> {
        Ok(())
    }

    fn send(&mut self, from: u32, number: u64, to: u32, packet: &[u8]) -> Result<(), EndError> {
        self.ends[to as usize].send(self.alloc, from as u8, number, packet)?;
        Ok(())
    }

    fn take(&mut self, at: u32) -> Result<Arrival, EndError> {
        Ok(self.ends[at as usize].take(self.alloc)?)
    }
}
