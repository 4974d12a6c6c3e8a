//! Packets and their encoding in bytes. `specs/Packets.antt` has the table.
ghost use Rattle.std.specs.Prelude.{true, ◌≡◌, ◌↔◌, ℕ, List, [], ◌∷◌, ◌++◌, ◌≤◌, length, IfOk, OnOk, Err};
ghost use Rattle.iss_request.specs.Fields.{and_bytes, IsRead, IsUnreadable, IsGrammar, IsBad, Good};
ghost use Rattle.iss_request.specs.Parsing.{all_of};
ghost use Rattle.iss_packet.specs.Packets.{kind_byte, is_routed, is_spellable, route_bytes, body_bytes, spell_packet, IsSpelledPacket};
ghost use Rattle.iss_packet.specs.Packets.{parse_version, parse_kind, parse_size, parse_parts, parse_packet};
ghost use Rattle.iss_packet.specs.declared.packets.Packet.{Packet};

use iss_request::{Bytes, DecodeError, Epoch, Fields, NoMemory, Writer, version_byte};
use std::alloc::Global;

/// What a packet contains: a message of an ordering module, a vote on a checkpoint, a request for a piece of the log, a
/// piece, or a client's request.
#[derive(Clone, Copy, Debug, PartialEq, Eq)]
pub enum PacketKind {
    Message,
    Vote,
    Ask,
    Piece,
    Request,
}

/// A packet. `from` is the sender. `leader` identifies the instance for a module's message. The body is not decoded
/// here.
#[derive(Drop, Debug)]
pub struct Packet {
    pub kind: PacketKind,
    pub from: u8,
    pub epoch: Epoch,
    pub leader: u8,
    pub body: Bytes,
}

/// Why bytes could not be decoded to a packet.
#[derive(Clone, Copy, Debug, PartialEq, Eq)]
pub enum PacketError {
    NotPacket,
    NoMemory,
}

impl From<DecodeError> for PacketError {
    ghost use Rattle.std.specs.Prelude.{◌≡◌};
    ghost use Rattle.iss_packet.specs.Internal.Errors.{as_packet_error};

    ghost from_gives = { λ d e. e ≡ as_packet_error d };

    fn from(error: DecodeError) -> PacketError {
        match error {
            DecodeError::BadField { .. } => PacketError::NotPacket,
            DecodeError::NoMemory => PacketError::NoMemory,
        }
    }
}

impl From<NoMemory> for PacketError {
    ghost use Rattle.std.specs.Prelude.{◌≡◌};
    ghost use Rattle.iss_packet.specs.declared.packets.PacketError.TheVariants.{NoMemory};

    ghost from_gives = { λ _ e. e ≡ NoMemory };

    fn from(_error: NoMemory) -> PacketError {
        PacketError::NoMemory
    }
}

// The maximal length of a body, in bytes.
const BODY_MAX: u32 = 200_000_000;

// What is written for a packet without an encoding.
const NO_VERSION: u8 = 0;

fn byte_of(kind: PacketKind) -> u8
    ensures { result ≡ kind_byte kind }
{
    match kind {
        PacketKind::Message => 1,
        PacketKind::Vote => 2,
        PacketKind::Ask => 3,
        PacketKind::Piece => 4,
        PacketKind::Request => 5,
    }
}

fn read_version(f: &mut Fields) -> Result<u8, DecodeError>
    ensures ok { IfOk result (λ v. IsRead (parse_version f.old.version) f.old f.new v) }
    ensures bad { (at : ℕ) → result ≡ Err (DecodeError.BadField at) →
        IsUnreadable (parse_version f.old.version) f.old at }
{
    let other_version = f.bad_field();
    let wanted = version_byte(f.version());
    let first = f.read_u8()?;
    if first != wanted {
        return Err(other_version);
    }
    Ok(first)
}

fn read_kind(f: &mut Fields) -> Result<PacketKind, DecodeError>
    ensures ok { IfOk result (λ k. IsRead parse_kind f.old f.new k) }
    ensures bad { (at : ℕ) → result ≡ Err (DecodeError.BadField at) → IsUnreadable parse_kind f.old at }
{
    let no_kind = f.bad_field();
    let kind = f.read_u8()?;
    match kind {
        1 => Ok(PacketKind::Message),
        2 => Ok(PacketKind::Vote),
        3 => Ok(PacketKind::Ask),
        4 => Ok(PacketKind::Piece),
        5 => Ok(PacketKind::Request),
        _ => Err(no_kind),
    }
}

fn read_size(f: &mut Fields) -> Result<u32, DecodeError>
    ensures ok { IfOk result (λ n. IsRead parse_size f.old f.new n) }
    ensures bad { (at : ℕ) → result ≡ Err (DecodeError.BadField at) → IsUnreadable parse_size f.old at }
{
    let too_long = f.bad_field();
    let size = f.read_u32()?;
    if size > BODY_MAX {
        return Err(too_long);
    }
    Ok(size)
}

fn read_parts(alloc: Global, f: &mut Fields) -> Result<Packet, DecodeError>
    ensures ok { IfOk result (λ p. IsRead (parse_parts f.old.version) f.old f.new p) }
    ensures bad { (at : ℕ) → result ≡ Err (DecodeError.BadField at) →
        IsUnreadable (parse_parts f.old.version) f.old at }
{
    let _first = read_version(f)?;
    let kind = read_kind(f)?;
    let from = f.read_u8()?;
    let epoch = f.read_u64()?;
    let leader = f.read_u8()?;
    let size = read_size(f)?;
    let first = f.at();
    let _lent = f.read_bytes(size as usize)?;
    let body = f.since(alloc, first)?;
    Ok(Packet {
        kind,
        from,
        epoch: Epoch(epoch),
        leader,
        body,
    })
}

impl Packet {
    // Whether the kind fits the sender, the epoch and the leader in a cluster of n nodes.
    // rule: Formats: A packet has one encoding a version, and its kind fits its sender, epoch and leader
    #[tactic(auto, unfolding(crate::specs::Packets::is_routed))]
    fn has_route(&self, n: u32) -> bool
        ensures { result ≡ is_routed n self.now }
    {
        let from_node = (self.from as u32) < n;
        match self.kind {
            PacketKind::Message => from_node && (self.leader as u32) < n,
            PacketKind::Vote | PacketKind::Ask | PacketKind::Piece => from_node && self.leader == 0,
            PacketKind::Request => self.from == 255 && self.epoch.0 == 0 && self.leader == 0,
        }
    }

    /// The packet with exactly these bytes, in a version and a cluster of `n` nodes. `NotPacket` means that there is
    /// none. The body shares the memory of the bytes if their copies do.
    pub fn decode(alloc: Global, version: u8, n: u32, bytes: &Bytes) -> Result<Packet, PacketError>
        ensures ok { IfOk result (λ p. parse_packet version n bytes.now ≡ Good p []) }
        ensures bad { result ≡ Err PacketError.NotPacket → IsBad (all_of (parse_packet version n) bytes.now) }
        ensures routed { IfOk result (λ p. is_routed n p ≡ true) }
    {
        let mut f = Fields::over_bytes(version, bytes);
        let packet = read_parts(alloc, &mut f)?;
        if !packet.has_route(n) {
            return Err(PacketError::NotPacket);
        }
        if !f.is_done() {
            return Err(PacketError::NotPacket);
        }
        Ok(packet)
    }

    fn has_spelling(&self) -> bool
        ensures { result ≡ is_spellable self.now }
    {
        // Its range is part of the result.
        let _epoch = self.epoch.0;
        self.body.len() <= BODY_MAX as usize
    }

    // The fields before the body's length.
    fn put_route(&self, out: &mut Writer) -> Result<(), NoMemory>
        ensures { OnOk result (out.new ≡ and_bytes out.old (route_bytes out.old.version self.now)) }
    {
        let first = version_byte(out.version());
        out.put_u8(first)?;
        out.put_u8(byte_of(self.kind))?;
        out.put_u8(self.from)?;
        out.put_u64(self.epoch.0)?;
        out.put_u8(self.leader)?;
        Ok(())
    }

    fn put_body(&self, out: &mut Writer) -> Result<(), NoMemory>
        requires { length self.now.body ≤ 200000000 }
        ensures { OnOk result (out.new ≡ and_bytes out.old (body_bytes self.now.body)) }
    {
        out.put_u32(self.body.len() as u32)?;
        out.put_bytes(self.body.as_slice())?;
        Ok(())
    }

    fn write(&self, out: &mut Writer) -> Result<(), NoMemory>
        ensures { OnOk result (out.new ≡ and_bytes out.old (spell_packet out.old.version self.now)) }
    {
        if self.has_spelling() {
            self.put_route(out)?;
            self.put_body(out)
        } else {
            out.put_u8(NO_VERSION)
        }
    }

    /// The packet's bytes in a version. Copies share them, one for each recipient. A packet with a body of more than
    /// 200,000,000 bytes has no encoding; its bytes decode to nothing.
    pub fn encode(&self, alloc: Global, version: u8) -> Result<Bytes, NoMemory>
        ensures { IfOk result (λ bytes. bytes ≡ spell_packet version self.now) }
    {
        let mut out = Writer::new(alloc, version);
        self.write(&mut out)?;
        out.into_bytes().into_shared()
    }
}

/// In each version and a cluster of any size, a packet has at most one encoding, and no encoding is a prefix of
/// another. What has no encoding is written as bytes that decode to nothing, whatever follows.
pub fn packets_are_exact()
    ensures grammar { (version n : ℕ) → IsGrammar (spell_packet version) (parse_packet version n) }
    // What is decoded from exactly these bytes is what the table relates to them.
    ensures packet_table { (version n : ℕ) (p : Packet) (bytes : List ℕ) →
        (parse_packet version n bytes ≡ Good p []) ↔ IsSpelledPacket version n p bytes }
{}
