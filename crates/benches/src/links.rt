//! Packets through links in memory, which send them as frames and join them again, beside copies of the same bytes; and
//! frames of packets that are never completed.
use crate::times::print_since;
use iss_links::{Arrival, Frame, Links, MemoryLinks, Reassembly};
use std::alloc::{AllocError, Global};
use std::test::Fail;
use std::time::Instant;

// How many bytes a frame carries at most.
const PART: usize = 1024;

fn packet_of(alloc: Global, length: u32) -> Result<Vec<u8>, AllocError> {
    let mut packet = Vec::new(alloc);
    for at in 0..length {
        packet.push((at % 251) as u8)?;
    }
    Ok(packet)
}

// The bytes of copies of a packet, counted.
fn copies(alloc: Global, packet: &[u8], count: u32) -> Result<usize, AllocError> {
    let mut bytes = 0usize;
    for _ in 0..count {
        let copy = Vec::from_slice(alloc, packet)?;
        bytes = bytes.wrapping_add(copy.len());
    }
    Ok(bytes)
}

// Takes the frames of a packet at an end. How many bytes they were joined to.
fn join(links: &mut MemoryLinks, frames: usize) -> Result<usize, Fail> {
    let mut bytes = 0usize;
    for _ in 0..frames {
        if let Arrival::Got(packet) = links.take(1)? {
            bytes = bytes.wrapping_add(packet.len());
        }
    }
    Ok(bytes)
}

// The bytes of packets that were sent and joined, counted.
fn sent(links: &mut MemoryLinks, packet: &[u8], count: u32) -> Result<usize, Fail> {
    let mut bytes = 0usize;
    for number in 0..count {
        links.send(0, u64::from(number), 1, packet)?;
        bytes = bytes.wrapping_add(join(links, packet.len() / PART + 1)?);
    }
    Ok(bytes)
}

// Takes the first of two frames of each packet, so that none is completed. How many were.
fn completed(alloc: Global, partials: &mut Reassembly, count: u32) -> Result<u32, Fail> {
    let mut completed = 0u32;
    for number in 0..count {
        let frame = Frame {
            from: 0,
            number: u64::from(number),
            part: 0,
            parts: 2,
            bytes: Vec::from_slice(alloc, &[7; PART])?,
        };
        if partials.take(alloc, frame)?.is_some() {
            completed = completed.wrapping_add(1);
        }
    }
    Ok(completed)
}

fn time_packets(rt: &HostRuntime, what: &str, length: u32, count: u32) -> Result<(), Fail> {
    let packet = packet_of(rt.alloc(), length)?;
    let mut links = MemoryLinks::new(rt.alloc())?;
    let start = Instant::now(rt)?;
    let copied = copies(rt.alloc(), &packet, count)?;
    print_since(rt, "copy", start, (copied % 65536) as u32)?;
    let start = Instant::now(rt)?;
    let joined = sent(&mut links, &packet, count)?;
    print_since(rt, what, start, (joined % 65536) as u32)
}

fn time_unfinished(rt: &HostRuntime, what: &str, count: u32) -> Result<(), Fail> {
    let mut partials = Reassembly::new(rt.alloc());
    let start = Instant::now(rt)?;
    let count = completed(rt.alloc(), &mut partials, count)?;
    print_since(rt, what, start, count)
}

/// Prints the time of 200 MB in packets of one size, behind that of copying them, or of packets that are not completed.
pub(crate) fn time(rt: &HostRuntime, what: &str) -> Result<(), Fail> {
    match what {
        "small" => time_packets(rt, what, 1000, 200_000),
        "large" => time_packets(rt, what, 100_000, 2000),
        "one" => time_packets(rt, what, 200_000_000, 1),
        "unfinished-64" => time_unfinished(rt, what, 64),
        "unfinished-10000" => time_unfinished(rt, what, 10_000),
        _ => Err("which packets?")?,
    }
}

/// Sends and joins a few packets, and prints the counts.
pub(crate) fn count_all(rt: &HostRuntime) -> Result<(), Fail> {
    let packet = packet_of(rt.alloc(), 3000)?;
    let mut links = MemoryLinks::new(rt.alloc())?;
    let joined = sent(&mut links, &packet, 4)?;
    let mut partials = Reassembly::new(rt.alloc());
    let completed = completed(rt.alloc(), &mut partials, 100)?;
    println!(rt; "{joined} bytes joined, {completed} of 100 packets completed")?;
    Ok(())
}
