//! Reading and writing a schedule, and the SHA-256 of the same bytes.
use crate::times::print_since;
use iss_schedule::{Schedule, read, write};
use sha2::{Digest, Sha256};
use std::alloc::{AllocError, Global};
use std::test::Fail;
use std::time::Instant;

const HEADER: &str =
    "iss 1\nmodule relay\nf 0\nepoch 3\nbuckets 3\nbatch 4\nwindow 8\npolicy simple\nclients 1\nkeys 4\nfaulty none\n";

// The text of a schedule with this many pairs of events.
fn text_of(alloc: Global, pairs: u32) -> Result<String, AllocError> {
    let mut text = String::from_str(alloc, HEADER)?;
    for _ in 0..pairs {
        text.push_str("request 2 0 5 00ff00aabb\npump\n")?;
    }
    Ok(text)
}

fn time_digest(rt: &HostRuntime, text: &[u8]) -> Result<(), Fail> {
    let start = Instant::now(rt)?;
    let digest = Sha256::digest(text);
    print_since(rt, "hash", start, u32::from(digest[0]))
}

fn time_read(rt: &HostRuntime, text: &[u8]) -> Result<Schedule, Fail> {
    let start = Instant::now(rt)?;
    let schedule = read(rt.alloc(), text)?;
    print_since(rt, "read", start, schedule.setup.n)?;
    Ok(schedule)
}

fn time_write(rt: &HostRuntime, schedule: &Schedule) -> Result<(), Fail> {
    let start = Instant::now(rt)?;
    let written = write(rt.alloc(), schedule)?;
    let length = u32::try_from(written.len()).unwrap_or(u32::MAX);
    print_since(rt, "write", start, length)
}

/// Prints the times of hashing, reading and writing a text with this many pairs of events.
pub(crate) fn time_all(rt: &HostRuntime, pairs: u32) -> Result<(), Fail> {
    let text = text_of(rt.alloc(), pairs)?;
    time_digest(rt, text.as_bytes())?;
    let schedule = time_read(rt, text.as_bytes())?;
    time_write(rt, &schedule)
}

/// Reads and writes a small schedule, and prints the counts.
pub(crate) fn count_all(rt: &HostRuntime) -> Result<(), Fail> {
    let text = text_of(rt.alloc(), 50)?;
    let schedule = read(rt.alloc(), text.as_bytes())?;
    let written = write(rt.alloc(), &schedule)?;
    let events = schedule.events.len();
    let bytes = text.len();
    let count = written.len();
    println!(rt; "{events} events, {bytes} bytes read, {count} written")?;
    Ok(())
}
