//! Frames that an end takes: out of order, repeated, damaged, of another sender, of a packet that never ends. Frames
//! and packets are spelled by hand.
use iss_links::{Arrival, Reassembly};
use std::alloc::{AllocError, Global};
use std::process::Abort;
use std::test::Fail;

/// Some equal bytes: how many, and which.
type Run = (usize, u8);

/// A frame's head, its bytes, and the packet that it completes. A head has the sender, the number in eight bytes, the
/// part in four, and the count of parts in four.
type Row = (&'static [u8], Run, [Run; 2]);

const NONE: [Run; 2] = [(0, 0), (0, 0)];

const WHOLE: [Run; 2] = [(1024, 0xa), (1, 0xb)];

// Parts 0 and 1 of packet 5 of sender 3 are `WHOLE`.
const FRAMES: &[Row] = &[
    // the last part first
    (
        b"\x03\0\0\0\0\0\0\0\x05\0\0\0\x01\0\0\0\x02",
        (1, 0xb),
        NONE,
    ),
    // the first part of another sender's packet, of another number, of another count
    (
        b"\xc8\0\0\0\0\0\0\0\x05\0\0\0\0\0\0\0\x02",
        (1024, 0xf),
        NONE,
    ),
    (
        b"\x03\0\0\0\0\0\0\0\x06\0\0\0\0\0\0\0\x02",
        (1024, 0xf),
        NONE,
    ),
    (
        b"\x03\0\0\0\0\0\0\0\x05\0\0\0\0\0\0\0\x03",
        (1024, 0xf),
        NONE,
    ),
    // a part that is not below the count
    (
        b"\x03\0\0\0\0\0\0\0\x05\0\0\0\x02\0\0\0\x02",
        (1024, 0xf),
        NONE,
    ),
    (
        b"\x03\0\0\0\0\0\0\0\x05\x01\0\0\0\0\0\0\x02",
        (1024, 0xf),
        NONE,
    ),
    // a first part without bytes, too short, too long
    (b"\x03\0\0\0\0\0\0\0\x05\0\0\0\0\0\0\0\x02", (0, 0), NONE),
    (
        b"\x03\0\0\0\0\0\0\0\x05\0\0\0\0\0\0\0\x02",
        (1023, 0xf),
        NONE,
    ),
    (
        b"\x03\0\0\0\0\0\0\0\x05\0\0\0\0\0\0\0\x02",
        (1025, 0xf),
        NONE,
    ),
    // the last part again, with another byte
    (
        b"\x03\0\0\0\0\0\0\0\x05\0\0\0\x01\0\0\0\x02",
        (1, 0xf),
        NONE,
    ),
    (
        b"\x03\0\0\0\0\0\0\0\x05\0\0\0\0\0\0\0\x02",
        (1024, 0xa),
        WHOLE,
    ),
    // the same packet once more, from its first part on
    (
        b"\x03\0\0\0\0\0\0\0\x05\0\0\0\0\0\0\0\x02",
        (1024, 0xa),
        NONE,
    ),
    (
        b"\x03\0\0\0\0\0\0\0\x05\0\0\0\x01\0\0\0\x02",
        (1, 0xb),
        WHOLE,
    ),
    // one part, which may be as long as any; of none there is no frame
    (
        b"\x03\0\0\0\0\0\0\0\x07\0\0\0\0\0\0\0\x01",
        (1, 0xd),
        [(1, 0xd), (0, 0)],
    ),
    (
        b"\x03\0\0\0\0\0\0\0\x08\0\0\0\0\0\0\0\x01",
        (1024, 0xd),
        [(1024, 0xd), (0, 0)],
    ),
    (
        b"\x03\0\0\0\0\0\0\0\x09\0\0\0\0\0\0\0\x01",
        (1025, 0xd),
        NONE,
    ),
    (b"\x03\0\0\0\0\0\0\0\x09\0\0\0\0\0\0\0\0", (1, 0xd), NONE),
    // the other sender's packet ends
    (
        b"\xc8\0\0\0\0\0\0\0\x05\0\0\0\x01\0\0\0\x02",
        (2, 0xe),
        [(1024, 0xf), (2, 0xe)],
    ),
];

// Appends runs of bytes.
fn put_runs(bytes: &mut Vec<u8>, runs: &[Run]) -> Result<(), AllocError> {
    for (count, byte) in runs {
        for _ in 0..*count {
            bytes.push(*byte)?;
        }
    }
    Ok(())
}

/// These bytes and the runs behind them.
pub(crate) fn with_runs(alloc: Global, front: &[u8], runs: &[Run]) -> Result<Vec<u8>, AllocError> {
    let mut bytes = Vec::from_slice(alloc, front)?;
    put_runs(&mut bytes, runs)?;
    Ok(bytes)
}

// The packet that a frame completes, or no bytes.
fn completed(alloc: Global, end: &mut Reassembly, head: &[u8], run: Run) -> Result<Vec<u8>, Fail> {
    let datagram = with_runs(alloc, head, &[run])?;
    match end.take_datagram(alloc, &datagram)? {
        Arrival::Got(packet) => Ok(packet),
        Arrival::Part | Arrival::Nothing => Ok(Vec::new(alloc)),
    }
}

// Whether a frame completes this packet.
fn completes(
    alloc: Global,
    end: &mut Reassembly,
    head: &[u8],
    run: Run,
    packet: &[Run],
) -> Result<bool, Fail> {
    let completed = completed(alloc, end, head, run)?;
    let packet = with_runs(alloc, b"", packet)?;
    Ok(completed == packet)
}

fn check_frames(
    rt: &impl Abort,
    alloc: Global,
    end: &mut Reassembly,
    frames: &[Row],
) -> Result<(), Fail> {
    for (head, run, packet) in frames {
        assert!(rt; completes(alloc, end, head, *run, packet)?, "{head:?}");
    }
    Ok(())
}

#[test]
fn frames_are_joined_or_dropped(rt: HostRuntime) -> Result<(), Fail> {
    let mut end = Reassembly::new(rt.alloc());
    check_frames(&rt, rt.alloc(), &mut end, FRAMES)
}

// The head of the first part of one of sender 1's packets of two parts.
fn first_head(number: u8) -> [u8; 17] {
    [1, 0, 0, 0, 0, 0, 0, 0, number, 0, 0, 0, 0, 0, 0, 0, 2]
}

fn check_first_parts(rt: &impl Abort, alloc: Global, end: &mut Reassembly) -> Result<(), Fail> {
    for number in 0..65u8 {
        assert!(rt; completes(alloc, end, &first_head(number), (1024, 0xa), &NONE)?);
    }
    Ok(())
}

// The last parts of sender 1's packets 0, 1, 3 and 64.
const LAST: &[Row] = &[
    (b"\x01\0\0\0\0\0\0\0\0\0\0\0\x01\0\0\0\x02", (1, 0xb), NONE),
    (
        b"\x01\0\0\0\0\0\0\0\x01\0\0\0\x01\0\0\0\x02",
        (1, 0xb),
        NONE,
    ),
    (
        b"\x01\0\0\0\0\0\0\0\x03\0\0\0\x01\0\0\0\x02",
        (1, 0xb),
        WHOLE,
    ),
    (
        b"\x01\0\0\0\0\0\0\0\x40\0\0\0\x01\0\0\0\x02",
        (1, 0xb),
        WHOLE,
    ),
];

// Of 65 packets that lack their last parts the oldest is pushed out, and so is the next one by what comes of it.
#[test]
fn a_packet_that_never_ends_is_pushed_out(rt: HostRuntime) -> Result<(), Fail> {
    let mut end = Reassembly::new(rt.alloc());
    check_first_parts(&rt, rt.alloc(), &mut end)?;
    check_frames(&rt, rt.alloc(), &mut end, LAST)
}
