// Fragments of packets, and their bytes as frames.
ghost use Rattle.std.specs.Prelude.{◌≡◌, ◌<◌, ◌≤◌, ◌*◌, ◌+◌, ℕ, Ok, None, length, IfOk, IfSome};
ghost use Rattle.std.specs.Int.{w32, w64, to_be_bytes};
ghost use Rattle.iss_links.specs.Frames.{Fragment, FramesAreExact, IsFrame, is_part, spell_frame, part_of, parts_of};

use crate::NoMemory;
use std::alloc::Global;
use std::marker::Model;

/// The length of each part of a packet but the last, in bytes.
pub const PART: usize = 1024;

/// The length of the longest packet that is sent, in bytes.
pub const PACKET_MAX: usize = 200_000_016;

/// The bytes of a frame before those of its part.
pub const HEAD: usize = 17;

/// A fragment of a packet: one of its parts, and which it is.
#[derive(Debug, Drop)]
pub struct Frame {
    /// The node or core that sent the packet.
    pub from: u8,
    /// The packet's number. No two packets of one sender have the same.
    pub number: u64,
    /// The index of the part, from 0.
    pub part: u32,
    /// How many parts the packet has.
    pub parts: u32,
    /// The bytes of the part.
    pub bytes: Vec<u8>,
}

impl Model for Frame {
    ghost use Rattle.iss_links.specs.Frames.{Fragment};

    ghost Value = { Fragment };

    ghost view = { λ f. record {
      from = f.from;
      number = f.number;
      part = f.part;
      parts = f.parts;
      bytes = f.bytes.items;
    } };
}

/// A packet that is not too long to be sent.
#[derive(Drop)]
pub(crate) struct Packet<'a> {
    pub(crate) bytes: &'a [u8],
    ghost short: { length bytes.now ≤ 200000016 },
}

impl<'a> Packet<'a> {
    /// How many parts it has.
    pub(crate) fn parts(&self) -> u32
        ensures { result ≡ parts_of (length self.now.bytes.now) }
    {
        ((self.bytes.len() + (PART - 1)) / PART) as u32
    }
}

/// One part of a packet, and its index from 0.
#[derive(Drop)]
pub(crate) struct Part<'a> {
    pub(crate) packet: &'a Packet<'a>,
    pub(crate) index: u32,
    ghost within: { 1024 * index < length packet.now.bytes.now },
}

impl<'a> Part<'a> {
    // Its bytes.
    fn bytes(&self) -> &'a [u8]
        ensures { result.now ≡ (part_of 0 0 self.now.packet.now.bytes.now self.now.index).bytes }
    {
        let bytes = self.packet.bytes;
        let first = self.index as usize * PART;
        let end = bytes.len().min(first + PART);
        &bytes[first..end]
    }

    /// The part as a frame.
    // rule: Links: A packet of 1 to 200,000,016 bytes is sent as parts of 1,024 bytes, in order; any other is not sent
    pub(crate) fn frame(&self, alloc: Global, from: u8, number: u64) -> Result<Frame, NoMemory>
        ensures { IfOk result (λ f. f ≡ part_of from number self.now.packet.now.bytes.now self.now.index) }
    {
        Ok(Frame {
            from,
            number,
            part: self.index,
            parts: self.packet.parts(),
            bytes: Vec::from_slice(alloc, self.bytes())?,
        })
    }
}

/// The bytes of a frame.
pub fn write_frame(alloc: Global, frame: &Frame) -> Result<Vec<u8>, NoMemory>
    ensures { IfOk result (λ v. v.items ≡ spell_frame frame.now) }
{
    let mut datagram = Vec::new(alloc);
    datagram.push(frame.from)?;
    datagram.extend_from_slice(&frame.number.to_be_bytes())?;
    datagram.extend_from_slice(&frame.part.to_be_bytes())?;
    datagram.extend_from_slice(&frame.parts.to_be_bytes())?;
    datagram.extend_from_slice(&frame.bytes)?;
    Ok(datagram)
}

// A big-endian number of eight bytes.
fn wide(b: &[u8]) -> u64
    requires { length b.now ≡ 8 }
    ensures { b.now ≡ to_be_bytes w64 result }
{
    u64::from_be_bytes([b[0], b[1], b[2], b[3], b[4], b[5], b[6], b[7]])
}

// A big-endian number of four bytes.
fn short(b: &[u8]) -> u32
    requires { length b.now ≡ 4 }
    ensures { b.now ≡ to_be_bytes w32 result }
{
    u32::from_be_bytes([b[0], b[1], b[2], b[3]])
}

// Whether part `part` of `parts` may have this length.
fn is_part(part: u32, parts: u32, len: usize) -> bool
    ensures { result ≡ is_part part parts len }
{
    part < parts && len >= 1 && len <= PART && (part + 1 == parts || len == PART)
}

/// The fragment whose frame the datagram is. `None` exactly where it is no frame: it is shorter than 18 bytes, its part
/// is not below its count of parts, or its bytes are more than 1,024, or fewer in a part before the last.
// rule: Links: A fragment has one frame, and a datagram is the frame of at most one fragment
pub fn read_frame(alloc: Global, datagram: &[u8]) -> Result<Option<Frame>, NoMemory>
    ensures some { IfOk result (λ r. IfSome r (IsFrame datagram.now)) }
    ensures none { result ≡ Ok None → (f : Fragment) → ¬ IsFrame datagram.now f }
{
    if datagram.len() < HEAD {
        return Ok(None);
    }
    let from = datagram[0];
    let number = wide(&datagram[1..9]);
    let part = short(&datagram[9..13]);
    let parts = short(&datagram[13..17]);
    let bytes = &datagram[17..];
    if !is_part(part, parts, bytes.len()) {
        return Ok(None);
    }
    Ok(Some(Frame {
        from,
        number,
        part,
        parts,
        bytes: Vec::from_slice(alloc, bytes)?,
    }))
}

/// A datagram is the frame of at most one fragment.
pub fn frames_are_exact()
    ensures { FramesAreExact }
{}
