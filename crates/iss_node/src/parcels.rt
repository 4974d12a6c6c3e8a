//! The content of packets: a module's message, a vote, an ask, a piece, or a client's request.
ghost use Rattle.std.specs.Prelude.{◌≡◌, IfOk, IfSome, true};
ghost use Rattle.iss_rules.specs.Formats.{formats_of, packet_as, parcel_in, parcel_of_kind, message_in, request_in, whole};
ghost use Rattle.iss_rules.specs.Parcels.{Formats, OfModule};
ghost use Rattle.iss_model.specs.Node.{packed};
ghost use Rattle.iss_node.specs.Internal.Parcels.{IsFromNode, body_of_ask, body_of_piece, body_of_vote, carried, seen};
ghost use Rattle.iss_request.specs.declared.setups.Setup.{Setup};
ghost use Rattle.iss_request.specs.Formats.{parse_request};
ghost use Rattle.iss_packet.specs.Packets.{is_routed, parse_packet};

use iss_ballots::{ask_of, piece_of, vote_of};
use iss_checkpoint::Vote;
use iss_packet::{Packet, PacketError, PacketKind};
use iss_request::{
    Bytes, DecodeError, Epoch, Fields, NoMemory, NodeId, Request, Seq, Setup, Writer,
};
use iss_sb::{Sequenced, To};
use iss_transfer::{Ask, Piece};
use std::alloc::Global;

/// The content of a packet.
#[derive(Drop)]
pub enum Body<T> {
    Message { leader: NodeId, msg: T },
    Vote(Vote),
    Ask,
    Piece(Piece),
    Request(Request),
}

/// The content of a packet, with its sender and epoch.
#[derive(Drop)]
pub struct Parcel<T> {
    pub from: NodeId,
    pub epoch: Epoch,
    pub body: Body<T>,
}

/// Decodes bytes in a cluster of this set-up. `None` if they are not a packet. The only error is out of memory.
pub fn unwrap<M: Sequenced>(
    alloc: Global,
    setup: &Setup,
    bytes: &Bytes,
) -> Result<Option<Parcel<M::Msg>>, NoMemory>
    ensures seen { IfOk result (λ parcel. seen parcel ≡ (formats_of setup.now M.spec).unwrap bytes.now) }
    ensures from { IfOk result (λ parcel. IfSome parcel (IsFromNode setup.now.n)) }
{
    match Packet::decode(alloc, setup.version, setup.n, bytes) {
        Ok(packet) => open::<M>(alloc, setup.version, setup.n, packet),
        Err(PacketError::NotPacket) => Ok(None),
        Err(PacketError::NoMemory) => Err(NoMemory),
    }
}

// Decodes the content of a packet.
fn open<M: Sequenced>(
    alloc: Global,
    version: u8,
    n: u32,
    packet: Packet,
) -> Result<Option<Parcel<M::Msg>>, NoMemory>
    requires { is_routed n packet ≡ true }
    ensures seen { IfOk result (λ parcel. seen parcel ≡ parcel_of_kind M.spec version packet packet.kind) }
    ensures from { IfOk result (λ parcel. IfSome parcel (IsFromNode n)) }
{
    let _n = n;
    match packet.kind {
        PacketKind::Message => open_message::<M>(alloc, version, packet),
        PacketKind::Request => open_request::<M::Msg>(alloc, version, packet),
        PacketKind::Vote => {
            let vote = vote_of(alloc, &packet)?;
            Ok(with_body(&packet, body_of_vote(vote)))
        }
        PacketKind::Ask => Ok(with_body(&packet, body_of_ask(ask_of(&packet)))),
        PacketKind::Piece => {
            let piece = piece_of(alloc, version, &packet)?;
            Ok(with_body(&packet, body_of_piece(piece)))
        }
    }
}

// Adds the sender and the epoch to a packet's content.
fn with_body<T: Drop>(packet: &Packet, body: Option<Body<T>>) -> Option<Parcel<T>>
    ensures { result ≡ carried packet.now body }
{
    let body = body?;
    Some(Parcel {
        from: NodeId(packet.from),
        epoch: packet.epoch,
        body,
    })
}

fn body_of_vote<T: Drop>(vote: Option<Vote>) -> Option<Body<T>>
    ensures { result ≡ body_of_vote vote }
{
    Some(Body::Vote(vote?))
}

fn body_of_ask<T: Drop>(ask: Option<Ask>) -> Option<Body<T>>
    ensures { result ≡ body_of_ask ask }
{
    let _ask = ask?;
    Some(Body::Ask)
}

fn body_of_piece<T: Drop>(piece: Option<Piece>) -> Option<Body<T>>
    ensures { result ≡ body_of_piece piece }
{
    Some(Body::Piece(piece?))
}

fn open_message<M: Sequenced>(
    alloc: Global,
    version: u8,
    packet: Packet,
) -> Result<Option<Parcel<M::Msg>>, NoMemory>
    ensures seen { IfOk result (λ parcel. seen parcel ≡ message_in packet (whole (M.spec.parse version packet.body))) }
    ensures from { IfOk result (λ parcel. IfSome parcel (λ k. k.from.0 ≡ packet.from)) }
{
    let Some(msg) = read_message::<M>(alloc, version, &packet.body)? else {
        return Ok(None);
    };
    Ok(Some(Parcel {
        from: NodeId(packet.from),
        epoch: packet.epoch,
        body: Body::Message {
            leader: NodeId(packet.leader),
            msg,
        },
    }))
}

// The message that these bytes encode, if they are exactly one message.
fn read_message<M: Sequenced>(
    alloc: Global,
    version: u8,
    bytes: &Bytes,
) -> Result<Option<M::Msg>, NoMemory>
    ensures { IfOk result (λ msg. msg ≡ whole (M.spec.parse version bytes.now)) }
{
    let mut fields = Fields::over_bytes(version, bytes);
    match M::decode(alloc, &mut fields) {
        Ok(msg) => {
            if fields.is_done() {
                Ok(Some(msg))
            } else {
                Ok(None)
            }
        }
        Err(DecodeError::BadField { .. }) => Ok(None),
        Err(DecodeError::NoMemory) => Err(NoMemory),
    }
}

fn open_request<T: Drop>(
    alloc: Global,
    version: u8,
    packet: Packet,
) -> Result<Option<Parcel<T>>, NoMemory>
    ensures seen { IfOk result (λ parcel. seen parcel ≡ request_in packet (whole (parse_request packet.body))) }
    ensures asked { IfOk result (λ parcel. IfSome parcel (IsFromNode 0)) }
{
    let Some(request) = read_request(alloc, version, &packet.body)? else {
        return Ok(None);
    };
    Ok(Some(Parcel {
        from: NodeId(packet.from),
        epoch: packet.epoch,
        body: Body::Request(request),
    }))
}

// The request that these bytes encode, if they are exactly one request.
fn read_request(alloc: Global, version: u8, bytes: &Bytes) -> Result<Option<Request>, NoMemory>
    ensures { IfOk result (λ request. request ≡ whole (parse_request bytes.now)) }
{
    let mut fields = Fields::over_bytes(version, bytes);
    match iss_request::read_request(alloc, &mut fields) {
        Ok(request) => {
            if fields.is_done() {
                Ok(Some(request))
            } else {
                Ok(None)
            }
        }
        Err(DecodeError::BadField { .. }) => Ok(None),
        Err(DecodeError::NoMemory) => Err(NoMemory),
    }
}

/// Who sends a module's message: a node, in the instance of this epoch and leader.
#[derive(Clone, Copy)]
pub struct Origin {
    pub node: NodeId,
    pub epoch: Epoch,
    pub leader: NodeId,
}

/// The messages of a step as packets, in order.
pub fn pack<M: Sequenced>(
    alloc: Global,
    setup: &Setup,
    origin: Origin,
    sends: &[(To, M::Msg)],
) -> Result<Seq<(To, Bytes)>, NoMemory>
    ensures { IfOk result (λ packets. packets ≡
        packed (formats_of setup.now M.spec) origin.node.0 origin.epoch.0 origin.leader.0 sends.now) }
{
    let version = setup.version;
    let mut packets = Seq::new(alloc);
    for (to, msg) in sends {
        packets.push((*to, wrap::<M>(alloc, version, origin, msg)?))?;
    }
    Ok(packets)
}

// The packet of a module's message.
pub(crate) fn wrap<M: Sequenced>(
    alloc: Global,
    version: u8,
    origin: Origin,
    msg: &M::Msg,
) -> Result<Bytes, NoMemory>
    ensures { IfOk result (λ bytes. (s : Setup) → s.version ≡ version →
        bytes ≡ (formats_of s M.spec).wrap
        (record { from = origin.node.0; epoch = origin.epoch.0; body = OfModule origin.leader.0 msg.now })) }
{
    let mut out = Writer::new(alloc, version);
    M::encode(msg, &mut out)?;
    let packet = Packet {
        kind: PacketKind::Message,
        from: origin.node.0,
        epoch: origin.epoch,
        leader: origin.leader.0,
        body: out.into_bytes(),
    };
    packet.encode(alloc, version)
}
