//! A client's request as a packet.
ghost use Rattle.std.specs.Prelude.{◌≡◌, ◌<◌, ◌≤◌, ◌^◌, IfOk, length};
ghost use Rattle.iss_rules.specs.Concrete.{request_of};
ghost use Rattle.iss_rules.specs.Formats.{formats_of};
ghost use Rattle.iss_rules.specs.Parcels.{OfRequest};
ghost use Rattle.iss_request.specs.declared.setups.Setup.{Setup};

use crate::members::Members;
use iss_packet::{Packet, PacketKind};
use iss_request::{Bytes, Epoch, NoMemory, ReqId, Request, Writer, write_request};
use iss_sb::Sequenced;
use iss_segment::sign_request;
use std::alloc::Global;

/// The packet of a request that its client signs, with the leaf whose index is the request's number. The only error is
/// out of memory.
// rule: Signatures: A request of a schedule is signed by its client, with the leaf of its number
pub fn request_packet<M: Sequenced>(
    alloc: Global,
    members: &Members,
    client: u8,
    number: u32,
    payload: &Bytes,
) -> Result<Bytes, NoMemory>
    requires client { client < members.now.clients }
    requires leaf { number < 2 ^ members.now.keys }
    requires payload { length payload.now ≤ 256 }
    ensures { IfOk result (λ bytes. bytes ≡ (formats_of members.now M.spec).wrap
        (record { from = 255; epoch = 0; body = OfRequest (request_of members.now client number payload.now) })) }
{
    let id = ReqId { client, number };
    let mut keys = members.directory().keys_of_client(alloc, client);
    let request = Request {
        id,
        payload: payload.copy()?,
        sig: sign_request(&mut keys, id, payload.as_slice())?,
    };
    Ok(wrapped::<M>(alloc, members.setup().version, &request)?)
}

// The packet of a request.
fn wrapped<M: Sequenced>(alloc: Global, version: u8, request: &Request) -> Result<Bytes, NoMemory>
    ensures { IfOk result (λ bytes. (s : Setup) → s.version ≡ version →
        bytes ≡ (formats_of s M.spec).wrap (record { from = 255; epoch = 0; body = OfRequest request.now })) }
{
    let mut body = Writer::new(alloc, version);
    write_request(request, &mut body)?;
    let packet = Packet {
        kind: PacketKind::Request,
        from: 255,
        epoch: Epoch(0),
        leader: 0,
        body: body.into_bytes(),
    };
    packet.encode(alloc, version)
}
