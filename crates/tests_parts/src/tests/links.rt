//! Packets that are sent, lost in part, and reassembled. Expected frames are written by hand.
ghost use Rattle.std.specs.Prelude.{◌<◌, ◌≤◌};

use super::frames::with_runs;
use crate::packets::packet;
use iss_links::{
    Arrival, EndError, FailingLinks, Frame, Links, MemoryLinks, UdpLinks, write_frame,
};
use std::alloc::Global;
use std::net::{Ipv4Addr, Net, UdpSocket};
use std::process::Abort;
use std::test::Fail;

// The packet that the next frames complete, of which at most `most` are taken, or no bytes.
fn next_packet<L: Links>(
    links: &mut L,
    alloc: Global,
    at: u32,
    most: u32,
) -> Result<Vec<u8>, EndError>
    requires { at < 256 }
{
    for _ in 0..most {
        if let Arrival::Got(bytes) = links.take(at)? {
            return Ok(bytes);
        }
    }
    Ok(Vec::new(alloc))
}

// Whether a packet of this length from end 0 arrives at an end with its first `most` frames.
fn arrives<L: Links>(
    links: &mut L,
    alloc: Global,
    len: usize,
    to: u32,
    most: u32,
) -> Result<bool, Fail>
    requires { to < 256 }
{
    let sent = packet(alloc, len, 7)?;
    links.send(0, len as u64, to, &sent)?;
    let taken = next_packet(links, alloc, to, most)?;
    Ok(taken == sent)
}

// What comes of taking a frame, in a letter.
fn taken<L: Links>(links: &mut L, at: u32) -> u8
    requires { at < 256 }
{
    match links.take(at) {
        Ok(Arrival::Got(_)) => b'g',
        Ok(Arrival::Part) => b'p',
        Ok(Arrival::Nothing) => b'n',
        Err(EndError::Failed) => b'f',
        Err(EndError::NoMemory) => b'm',
    }
}

// What comes of sending two bytes to end 1, in a letter.
fn sent<L: Links>(links: &mut L, from: u32) -> u8
    requires { from < 256 }
{
    match links.send(from, 1, 1, &[9, 9]) {
        Ok(()) => b's',
        Err(EndError::Failed) => b'f',
        Err(EndError::NoMemory) => b'm',
    }
}

// The datagram of part 1 of a packet.
fn datagram(alloc: Global, bytes: &[u8]) -> Result<Vec<u8>, Fail> {
    let frame = Frame {
        from: 7,
        number: 0x0102_0304_0506_0708,
        part: 1,
        parts: 0x0a0b_0c0d,
        bytes: Vec::from_slice(alloc, bytes)?,
    };
    Ok(write_frame(alloc, &frame)?)
}

#[test]
fn a_frame_has_these_bytes(rt: HostRuntime) -> Result<(), Fail> {
    let bytes = datagram(rt.alloc(), &[0xaa; 1024])?;
    let head = b"\x07\x01\x02\x03\x04\x05\x06\x07\x08\0\0\0\x01\x0a\x0b\x0c\x0d";
    let expected = with_runs(rt.alloc(), head, &[(1024, 0xaa)])?;
    assert!(rt; bytes == expected);
    Ok(())
}

// Lengths of packets, and how many frames each has.
const LENGTHS: &[(usize, u32)] = &[
    (1, 1),
    (1023, 1),
    (1024, 1),
    (1025, 2),
    (2048, 2),
    (2500, 3),
];

fn check_lengths(
    rt: &impl Abort,
    alloc: Global,
    links: &mut MemoryLinks,
    lengths: &[(usize, u32)],
) -> Result<(), Fail> {
    links.attach(20_000, 0, 2)?;
    for (len, frames) in lengths {
        assert!(rt; arrives(links, alloc, *len, 1, *frames)?, "{len}");
    }
    links.send(0, 0, 1, &[])?;
    assert!(rt; taken(links, 1) == b'n' && taken(links, 0) == b'n');
    Ok(())
}

#[test]
fn packets_of_each_length_arrive_in_order(rt: HostRuntime) -> Result<(), Fail> {
    let mut links = MemoryLinks::new(rt.alloc())?;
    check_lengths(&rt, rt.alloc(), &mut links, LENGTHS)
}

fn check_listed(rt: &impl Abort, links: &mut FailingLinks) -> Result<(), Fail> {
    links.attach(20_000, 0, 2)?;
    assert!(rt; sent(links, 0) == b's' && sent(links, 0) == b'f');
    assert!(rt; taken(links, 1) == b'g' && taken(links, 1) == b'f' && taken(links, 1) == b'n');
    Ok(())
}

#[test]
fn the_listed_calls_fail(rt: HostRuntime) -> Result<(), Fail> {
    let failing = Vec::from_slice(rt.alloc(), &[2, 4])?;
    let mut links = FailingLinks::new(MemoryLinks::new(rt.alloc())?, failing);
    check_listed(&rt, &mut links)
}

// Makes ends 0 and 1 at the first two free ports, and gives the first of these.
fn attach<R: Net>(links: &mut UdpLinks<R>) -> Option<u16> {
    for i in 0..1000u16 {
        let port = 20_000 + 31 * i;
        if links.attach(port, 0, 2).is_ok() {
            return Some(port);
        }
    }
    None
}

fn check_arrivals<R: Net>(
    rt: &impl Abort,
    alloc: Global,
    links: &mut UdpLinks<R>,
) -> Result<(), Fail> {
    assert!(rt; attach(links).is_some(), "no two ports are free");
    assert!(rt; arrives(links, alloc, 2_000, 0, 1_000_000)?);
    assert!(rt; arrives(links, alloc, 2, 1, 1_000_000)?);
    assert!(rt; taken(links, 1) == b'n');
    Ok(())
}

#[test]
fn packets_arrive_over_udp(rt: HostRuntime) -> Result<(), Fail> {
    let mut links = UdpLinks::new(&rt, rt.alloc());
    check_arrivals(&rt, rt.alloc(), &mut links)
}

const STRANGE: &[u8] = b"\xc8\0\0\0\0\0\0\0\x05\0\0\0\0\0\0\0\x01";

// Sends to a port: three bytes, a frame that is too long, and a frame of sender 200.
fn send_strange(rt: &HostRuntime, alloc: Global, port: u16) -> Result<(), Fail> {
    let stranger = UdpSocket::bind(rt, (Ipv4Addr::LOCALHOST, 0))?;
    let long = with_runs(alloc, STRANGE, &[(1524, 6)])?;
    let whole = with_runs(alloc, STRANGE, &[(1, 6), (1, 7)])?;
    stranger.send_to(&[1, 2, 3], (Ipv4Addr::LOCALHOST, port))?;
    stranger.send_to(&long, (Ipv4Addr::LOCALHOST, port))?;
    stranger.send_to(&whole, (Ipv4Addr::LOCALHOST, port))?;
    Ok(())
}

// Whether end 0 at this port takes of those the last alone.
fn takes_the_frame(
    rt: &HostRuntime,
    links: &mut UdpLinks<&HostRuntime>,
    alloc: Global,
    port: u16,
) -> Result<bool, Fail> {
    send_strange(rt, alloc, port)?;
    let taken = next_packet(links, alloc, 0, 1_000_000)?;
    Ok(taken.as_slice() == [6, 7].as_slice())
}

#[test]
fn strangers_datagrams_are_frames_or_dropped(rt: HostRuntime) -> Result<(), Fail> {
    let mut links = UdpLinks::new(&rt, rt.alloc());
    let Some(port) = attach(&mut links) else {
        panic!(rt; "no two ports are free");
    };
    assert!(rt; takes_the_frame(&rt, &mut links, rt.alloc(), port)?);
    Ok(())
}

// Whether further ends cannot be made at this port, and these ends can.
fn is_taken(rt: &HostRuntime, links: &mut UdpLinks<&HostRuntime>, alloc: Global, port: u16) -> bool
    requires { port ≤ 65000 }
{
    let mut others = UdpLinks::new(rt, alloc);
    others.attach(port, 1, 1) == Err(EndError::Failed) && links.attach(port, 0, 2).is_ok()
}

#[test]
fn taken_ports_and_missing_ends_are_faults(rt: HostRuntime) -> Result<(), Fail> {
    let mut links = UdpLinks::new(&rt, rt.alloc());
    let Some(port) = attach(&mut links) else {
        panic!(rt; "no two ports are free");
    };
    assert!(rt; sent(&mut links, 7) == b'f' && taken(&mut links, 2) == b'f');
    assert!(rt; port <= 65_000);
    assert!(rt; is_taken(&rt, &mut links, rt.alloc(), port));
    Ok(())
}
