//! Values and packets in bytes of each version. The digests are another program's. Schedules show the first version.
use iss_packet::{Packet, PacketError, PacketKind};
use iss_request::{Bytes, Epoch, Request, Value, decode_value, digest_of, encode_value};
use std::alloc::{AllocError, Global};
use std::process::Abort;
use std::test::Fail;

/// A version, a value's bytes before its requests, how many requests it has, and its digest: that of 40 and its bytes.
/// The last of each version is the largest batch.
type Spelled = (u8, &'static [u8], usize, &'static [u8]);

const VALUES: &[Spelled] = &[
    (
        1,
        &[0],
        0,
        b"\xee\xc4\x12\x1f\x2a\x07\xb6\x1a\xba\x16\x41\x48\x12\xaa\x9a\xfc\
          \x39\xab\x0a\x13\x63\x60\xa5\xac\xe2\x24\x0d\xc1\x9b\x04\x64\xeb",
    ),
    (
        1,
        &[1, 0],
        0,
        b"\x99\xf9\xe3\x8a\x0c\x70\x2f\xea\xc1\xf8\x83\x45\x78\xbf\xab\x5f\
          \xbc\x8e\xbd\x9e\xe8\xba\x4e\xdf\x6b\x07\x86\xe3\x62\x10\x12\xdc",
    ),
    (
        1,
        &[1, 1],
        1,
        b"\x0d\x7b\xb8\xbf\xb5\xdf\x2b\x18\x25\x3d\xc9\x4b\x36\xd8\x3a\x9a\
          \x11\x15\x25\x08\xa6\x57\x1e\xcc\x42\x8c\xc1\xd9\xaf\xbd\x86\x23",
    ),
    (
        1,
        &[1, 32],
        32,
        b"\x6e\xb3\xe4\x11\xac\x0e\x34\x43\x96\x1b\x23\x4f\x90\xe4\x35\x14\
          \x10\x95\xb4\xe4\x3a\xab\xf0\x55\xfd\x30\x92\x4a\x74\x3e\x28\x9d",
    ),
    (
        2,
        &[0],
        0,
        b"\xee\xc4\x12\x1f\x2a\x07\xb6\x1a\xba\x16\x41\x48\x12\xaa\x9a\xfc\
          \x39\xab\x0a\x13\x63\x60\xa5\xac\xe2\x24\x0d\xc1\x9b\x04\x64\xeb",
    ),
    (
        2,
        &[2, 0, 0],
        0,
        b"\x40\x67\x17\x45\xe8\x38\xdb\x1a\x53\x6b\x2f\x68\x51\x16\xfe\x69\
          \x94\x1f\xdc\x0d\xdc\xde\xf6\x1a\x23\x7f\xdd\x70\x21\xd8\xc9\xf7",
    ),
    (
        2,
        &[2, 0, 1],
        1,
        b"\xa0\xe4\x82\x77\xf9\xff\xb7\xef\x56\x3a\xe3\x44\xe7\xe1\x8e\xdb\
          \x67\xef\x55\xbb\x91\x16\x4d\x10\xe6\x42\xc5\xaf\x34\x1b\xb4\xc6",
    ),
    (
        2,
        &[2, 1, 0],
        256,
        b"\x01\xe3\xe8\xd4\x1f\xf8\x47\xb0\x3a\x0c\x35\xc6\x1e\x38\xe1\xec\
          \xa9\x66\xbe\x62\xfa\x58\xb3\x69\x91\x3d\xc0\x5c\xd5\x87\xa4\x83",
    ),
];

// Appends request 7.1 with payload aa, and a signature of height 2 with these bytes.
fn put_request(bytes: &mut Vec<u8>) -> Result<(), AllocError> {
    bytes.extend_from_slice(&[7, 0, 0, 0, 1, 0, 1, 0xaa, 2])?;
    for i in 0..2212u32 {
        bytes.push((i * 7 % 251) as u8)?;
    }
    Ok(())
}

// The bytes of a value with this many of that request.
fn spelled(alloc: Global, front: &[u8], count: usize) -> Result<Vec<u8>, AllocError> {
    let mut bytes = Vec::from_slice(alloc, front)?;
    for _ in 0..count {
        put_request(&mut bytes)?;
    }
    Ok(bytes)
}

fn is_request(request: &Request) -> bool {
    request.id.client == 7
        && request.id.number == 1
        && request.payload.as_slice() == [0xaa].as_slice()
        && request.sig.len() == 2213
}

// Whether the value has this many of that request.
fn has_requests(value: &Value, count: usize) -> bool {
    match value {
        Value::Nil => count == 0,
        Value::Batch(batch) => batch.len() == count && batch.as_slice().iter().all(is_request),
    }
}

// Whether the value of these bytes has this many requests and this digest, and is encoded as them.
fn is_value(
    alloc: Global,
    version: u8,
    bytes: &[u8],
    count: usize,
    digest: &[u8],
) -> Result<bool, Fail> {
    let value = decode_value(alloc, version, bytes)?;
    let again = encode_value(alloc, version, &value)?;
    Ok(
        again.as_slice() == bytes
            && has_requests(&value, count)
            && digest_of(version, &value).as_slice() == digest,
    )
}

fn check_values(rt: &impl Abort, alloc: Global, values: &[Spelled]) -> Result<(), Fail> {
    for (version, front, count, digest) in values {
        let bytes = spelled(alloc, front, *count)?;
        assert!(rt;
            is_value(alloc, *version, &bytes, *count, digest)?,
            "{front:?}"
        );
    }
    Ok(())
}

#[test]
fn each_version_has_its_values_and_their_digests(rt: HostRuntime) -> Result<(), Fail> {
    check_values(&rt, rt.alloc(), VALUES)
}

fn is_message(packet: &Packet) -> bool {
    packet.kind == PacketKind::Message
        && packet.from == 2
        && packet.epoch == Epoch(258)
        && packet.leader == 1
        && packet.body.as_slice() == [0, 1].as_slice()
}

// The bytes of the message in this version.
fn message(alloc: Global, version: u8) -> Result<Bytes, AllocError> {
    let bytes = [version, 1, 2, 0, 0, 0, 0, 0, 0, 1, 2, 1, 0, 0, 0, 2, 0, 1];
    Ok(Bytes::of(Vec::from_slice(alloc, &bytes)?))
}

// Whether these bytes are the message's in this version, and the packet that they are is encoded as them.
fn is_written_again(alloc: Global, version: u8, bytes: &Bytes) -> Result<bool, PacketError> {
    let packet = Packet::decode(alloc, version, 3, bytes)?;
    let again = packet.encode(alloc, version)?;
    Ok(is_message(&packet) && again.as_slice() == bytes.as_slice())
}

#[test]
fn packets_begin_with_their_version(rt: HostRuntime) -> Result<(), Fail> {
    let first = message(rt.alloc(), 1)?;
    let second = message(rt.alloc(), 2)?;
    assert!(rt; is_written_again(rt.alloc(), 1, &first)?);
    assert!(rt; is_written_again(rt.alloc(), 2, &second)?);
    assert!(rt;
        matches!(
            is_written_again(rt.alloc(), 1, &second),
            Err(PacketError::NotPacket)
        )
    );
    Ok(())
}
