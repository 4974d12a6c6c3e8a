//! Packets of votes, asks and pieces.
ghost use Rattle.std.specs.Prelude.{◌≡◌, IfOk, []};
ghost use Rattle.iss_checkpoint.specs.Bodies.{parse_vote, spell_vote};
ghost use Rattle.iss_rules.specs.Formats.{whole};
ghost use Rattle.iss_packet.specs.Packets.{spell_packet};
ghost use Rattle.iss_transfer.specs.Bodies.{parse_ask, parse_piece, spell_piece};

use iss_checkpoint::{Cert, Vote, decode_vote, encode_vote};
use iss_packet::{Packet, PacketKind};
use iss_request::{Bytes, DecodeError, Epoch, NoMemory, NodeId};
use iss_sb::copy_signers;
use iss_transfer::{Ask, Piece, decode_ask, decode_piece, encode_piece};
use std::alloc::Global;

/// The packet of a checkpoint vote.
pub fn pack_vote(alloc: Global, version: u8, vote: &Vote) -> Result<Bytes, NoMemory>
    ensures { IfOk result (λ bytes. bytes ≡ spell_packet version
        (record {
          kind = PacketKind.Vote;
          from = vote.now.by.0;
          epoch = vote.now.epoch;
          leader = 0;
          body = spell_vote vote.now;
        })) }
{
    let packet = Packet {
        kind: PacketKind::Vote,
        from: vote.by.0,
        epoch: vote.epoch,
        leader: 0,
        body: encode_vote(alloc, vote)?,
    };
    packet.encode(alloc, version)
}

/// The packet in which a node asks for an epoch.
pub fn pack_ask(alloc: Global, version: u8, from: NodeId, epoch: Epoch) -> Result<Bytes, NoMemory>
    ensures { IfOk result (λ bytes. bytes ≡ spell_packet version
        (record { kind = PacketKind.Ask; from = from.0; epoch = epoch; leader = 0; body = [] })) }
{
    let packet = Packet {
        kind: PacketKind::Ask,
        from: from.0,
        epoch,
        leader: 0,
        body: Bytes::new(alloc),
    };
    packet.encode(alloc, version)
}

/// The packet of a piece of state transfer.
pub fn pack_piece(
    alloc: Global,
    version: u8,
    from: NodeId,
    piece: &Piece,
) -> Result<Bytes, NoMemory>
    ensures { IfOk result (λ bytes. bytes ≡ spell_packet version
        (record {
          kind = PacketKind.Piece;
          from = from.0;
          epoch = piece.now.epoch;
          leader = 0;
          body = spell_piece version piece.now;
        })) }
{
    let packet = Packet {
        kind: PacketKind::Piece,
        from: from.0,
        epoch: piece.epoch,
        leader: 0,
        body: encode_piece(alloc, version, piece)?,
    };
    packet.encode(alloc, version)
}

/// Decodes the packet's body as a vote. `None` if it is not exactly one vote.
pub fn vote_of(alloc: Global, packet: &Packet) -> Result<Option<Vote>, NoMemory>
    ensures { IfOk result (λ vote. vote ≡ whole (parse_vote packet.now.from packet.now.epoch.0 packet.now.body)) }
{
    match decode_vote(
        alloc,
        NodeId(packet.from),
        packet.epoch,
        packet.body.as_slice(),
    ) {
        Ok(vote) => Ok(Some(vote)),
        Err(DecodeError::BadField { .. }) => Ok(None),
        Err(DecodeError::NoMemory) => Err(NoMemory),
    }
}

/// Decodes the packet's body as an ask. `None` if it is not exactly one ask.
pub fn ask_of(packet: &Packet) -> Option<Ask>
    ensures { result ≡ whole (parse_ask packet.now.epoch.0 packet.now.body) }
{
    match decode_ask(packet.epoch, packet.body.as_slice()) {
        Ok(ask) => Some(ask),
        Err(DecodeError::BadField { .. }) => None,
        Err(DecodeError::NoMemory) => unreachable!(),
    }
}

/// Decodes the packet's body as a piece. `None` if it is not exactly one piece.
pub fn piece_of(alloc: Global, version: u8, packet: &Packet) -> Result<Option<Piece>, NoMemory>
    ensures { IfOk result (λ piece. piece ≡ whole (parse_piece version packet.now.epoch.0 packet.now.body)) }
{
    match decode_piece(alloc, version, packet.epoch, packet.body.as_slice()) {
        Ok(piece) => Ok(Some(piece)),
        Err(DecodeError::BadField { .. }) => Ok(None),
        Err(DecodeError::NoMemory) => Err(NoMemory),
    }
}

/// A copy of the certificate. The only error is out of memory.
pub fn copy_of_cert(alloc: Global, cert: &Cert) -> Result<Cert, NoMemory>
    ensures { IfOk result (λ c. c ≡ cert.now) }
{
    Ok(Cert {
        epoch: cert.epoch,
        chain: cert.chain,
        requests: cert.requests,
        signers: copy_signers(alloc, cert.signers.as_slice())?,
    })
}
