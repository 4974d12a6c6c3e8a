//! Journals, on a disk in memory and over a file of the operating system, beside a reader of their files that knows
//! nothing of the journal. What a journal shows is written down in records: of each entry with its gate, and of the
//! file.
use super::reading::{put_read, put_record};
use iss_disk::{Disk, FileDisk, MemoryDisk};
use iss_journal::{AttachError, Journal};
use iss_request::Bytes;
use std::alloc::Global;
use std::fs;
use std::process::Abort;
use std::test::Fail;

// A disk whose file has these bytes, all synced.
fn disk_with(alloc: Global, bytes: &[u8]) -> Result<MemoryDisk, Fail> {
    let mut disk = MemoryDisk::new(alloc)?;
    put_file(&mut disk, bytes)?;
    Ok(disk)
}

fn put_file(disk: &mut MemoryDisk, bytes: &[u8]) -> Result<(), Fail> {
    disk.reserve(2, bytes.len() as u64)?;
    disk.write_at(0, bytes)?;
    disk.sync()?;
    Ok(())
}

// The bytes of a disk's file, of which there are at most 1,000.
fn file_of(alloc: Global, disk: &mut MemoryDisk) -> Result<Vec<u8>, Fail> {
    let mut bytes = vec![in alloc; 0u8; 1000]?;
    let count = disk.read_at(0, &mut bytes)?;
    bytes.truncate(count);
    Ok(bytes)
}

// Appends a record of each entry that an attached journal shows.
fn put_shown<D: Disk>(alloc: Global, journal: &Journal<D>, out: &mut Vec<u8>) -> Result<(), Fail> {
    let entries = journal.entries();
    for k in 0..entries.len() {
        let entry = entries.get(alloc, k)?;
        put_record(out, journal.gate_of(k), &entry)?;
    }
    Ok(())
}

// Attaches a journal, and appends a record of each entry or of damage.
fn put_attached<D: Disk>(
    alloc: Global,
    journal: &mut Journal<D>,
    out: &mut Vec<u8>,
) -> Result<(), Fail> {
    match journal.attach() {
        Ok(()) => put_shown(alloc, journal, out),
        Err(AttachError::Damaged { at }) => Ok(put_record(out, at, b"damage")?),
        Err(error) => Err(Fail::from(error)),
    }
}

fn put_over(alloc: Global, disk: &mut MemoryDisk, out: &mut Vec<u8>) -> Result<(), Fail> {
    let mut journal = Journal::over(alloc, disk);
    put_attached(alloc, &mut journal, out)
}

// The records of a journal over a disk, and of what is left of the file.
fn records_of(alloc: Global, disk: &mut MemoryDisk) -> Result<Vec<u8>, Fail> {
    let mut out = Vec::new(alloc);
    put_over(alloc, disk, &mut out)?;
    let left = file_of(alloc, disk)?;
    put_record(&mut out, u64::MAX, &left)?;
    Ok(out)
}

// Those over a file with these bytes.
fn records_over(alloc: Global, bytes: &[u8]) -> Result<Vec<u8>, Fail> {
    let mut disk = disk_with(alloc, bytes)?;
    records_of(alloc, &mut disk)
}

// Checks what a journal over these bytes shows, and how much it leaves of the file, which is the result.
fn check_read(rt: &impl Abort, alloc: Global, bytes: &[u8]) -> Result<usize, Fail> {
    let records = records_over(alloc, bytes)?;
    let mut expected = Vec::new(alloc);
    let left = put_read(&mut expected, bytes)?;
    assert!(rt; records == expected);
    Ok(left)
}

// Appends an entry, of which the first byte is copied and the rest is shared.
fn append<D: Disk>(
    rt: &impl Abort,
    alloc: Global,
    journal: &mut Journal<D>,
    entry: &[u8],
) -> Result<(), Fail> {
    let (head, body) = entry.split_at(entry.len().min(1));
    let body = Bytes::shared(Vec::from_slice(alloc, body)?)?;
    assert!(rt; journal.attached() && head.len() < 2 && body.len() < 100);
    journal.append(head, body)?;
    Ok(())
}

// Attaches a journal, appends entries, and appends a record of each that it then shows.
fn append_all<D: Disk>(
    rt: &impl Abort,
    alloc: Global,
    journal: &mut Journal<D>,
    entries: &[&[u8]],
    out: &mut Vec<u8>,
) -> Result<(), Fail> {
    journal.attach()?;
    for entry in entries {
        append(rt, alloc, journal, entry)?;
    }
    put_shown(alloc, journal, out)
}

fn put_appended<D: Disk + Drop>(
    rt: &impl Abort,
    alloc: Global,
    disk: D,
    entries: &[&[u8]],
    out: &mut Vec<u8>,
) -> Result<(), Fail> {
    let mut journal = Journal::over(alloc, disk);
    append_all(rt, alloc, &mut journal, entries, out)
}

// The file of a disk on which these entries were appended. The journal shows of them what the file's reader finds.
fn appended(
    rt: &impl Abort,
    alloc: Global,
    disk: &mut MemoryDisk,
    entries: &[&[u8]],
) -> Result<Vec<u8>, Fail> {
    let mut records = Vec::new(alloc);
    put_appended(rt, alloc, &mut *disk, entries, &mut records)?;
    let file = file_of(alloc, disk)?;
    check_shown(rt, alloc, records, &file)?;
    Ok(file)
}

// The file of these entries.
fn file_with(rt: &impl Abort, alloc: Global, entries: &[&[u8]]) -> Result<Vec<u8>, Fail> {
    let mut disk = MemoryDisk::new(alloc)?;
    appended(rt, alloc, &mut disk, entries)
}

// Checks what a journal shows of a file that it leaves as it is.
fn check_shown(rt: &impl Abort, alloc: Global, records: Vec<u8>, file: &[u8]) -> Result<(), Fail> {
    let mut records = records;
    put_record(&mut records, u64::MAX, file)?;
    let mut expected = Vec::new(alloc);
    let _left = put_read(&mut expected, file)?;
    assert!(rt; records == expected);
    Ok(())
}

// Events and snapshots, with an entry without a byte among them.
const ENTRIES: &[&[u8]] = &[
    &[2],
    &[1, 7, 5],
    &[5, 0, 9],
    &[2],
    &[],
    &[5],
    &[5, 5],
    &[3, 0],
    &[5, 1, 2, 3],
];

fn whole_file(rt: &impl Abort, alloc: Global) -> Result<Vec<u8>, Fail> {
    file_with(rt, alloc, ENTRIES)
}

const APPENDED: &[&[u8]] = &[&[2], b"two", &[3, 0], &[5, 8], &[2]];

const FRAMES: &[u8] =
    b"\x01\0\0\0\x01\x02\x01\0\0\0\x03two\x01\0\0\0\x02\x03\0\x01\0\0\0\x02\x05\x08\x01\0\0\0\x01\x02\0";

fn check_file(rt: &impl Abort, alloc: Global, entries: &[&[u8]], file: &[u8]) -> Result<(), Fail> {
    let written = file_with(rt, alloc, entries)?;
    assert!(rt; written.as_slice() == file);
    Ok(())
}

#[test]
fn appends_write_frames(rt: HostRuntime) -> Result<(), Fail> {
    check_file(&rt, rt.alloc(), APPENDED, FRAMES)
}

fn check_first(rt: &impl Abort, alloc: Global, entries: &[&[u8]]) -> Result<(), Fail> {
    let file = file_with(rt, alloc, entries)?;
    assert!(rt; check_read(rt, alloc, &file)? == file.len());
    Ok(())
}

// A snapshot takes the place of what follows the one before it, in the journal and when it is attached again.
#[test]
fn each_file_shows_what_stays(rt: HostRuntime) -> Result<(), Fail> {
    for count in 0..10 {
        check_first(&rt, rt.alloc(), ENTRIES.get(..count).unwrap_or(ENTRIES))?;
    }
    Ok(())
}

/// A file, and how many bytes are left of it: all of a damaged one.
type Left = (&'static [u8], usize);

const OTHERS: &[Left] = &[
    (&[0, 0, 0, 0, 1, 0xaa, 0], 1),
    (&[1], 1),
    (&[1, 0, 0, 0, 1, 0xaa, 7, 9], 7),
    (&[1, 0, 0, 0, 5, 0xaa], 6),
];

fn check_left(rt: &impl Abort, alloc: Global, files: &[Left]) -> Result<(), Fail> {
    for (file, left) in files {
        assert!(rt; check_read(rt, alloc, file)? == *left, "{file:?}");
    }
    Ok(())
}

#[test]
fn what_stands_behind_the_last_gate_is_cut_off(rt: HostRuntime) -> Result<(), Fail> {
    check_left(&rt, rt.alloc(), OTHERS)
}

// A file with another byte at an offset.
fn with_byte(alloc: Global, whole: &[u8], at: usize, byte: u8) -> Result<Vec<u8>, Fail> {
    let mut bytes = Vec::from_slice(alloc, whole)?;
    if let Some(place) = bytes.get_mut(at) {
        *place = byte;
    }
    Ok(bytes)
}

const BYTES: &[u8] = &[0, 1, 2, 4, 5, 6, 255];

// Checks a file whose byte at an offset is another one, and one that ends there.
fn check_changed(rt: &impl Abort, alloc: Global, whole: &[u8], at: usize) -> Result<(), Fail> {
    for byte in BYTES {
        let bytes = with_byte(alloc, whole, at, *byte)?;
        let _left = check_read(rt, alloc, &bytes)?;
    }
    let _left = check_read(rt, alloc, whole.get(..at).unwrap_or(whole))?;
    Ok(())
}

#[test]
fn a_file_with_one_other_byte_shows_what_it_reads_as(rt: HostRuntime) -> Result<(), Fail> {
    let whole = whole_file(&rt, rt.alloc())?;
    for at in 0..whole.len() {
        check_changed(&rt, rt.alloc(), &whole, at)?;
    }
    Ok(())
}

// Attaches a journal, appends a snapshot of which `calls` device calls pass, and crashes. The result is whether the
// append succeeded, or `None` if the journal was not attached.
fn tear(alloc: Global, journal: &mut Journal<MemoryDisk>, calls: u64) -> Option<bool> {
    if journal.attach().is_err() {
        return None;
    }
    journal.fuse(calls);
    let kept = journal.append(&[5, 6], Bytes::new(alloc)).is_ok();
    journal.restart();
    Some(kept)
}

// What that leaves of this file.
fn torn(
    alloc: Global,
    before: &[u8],
    calls: u64,
    kept: &mut Option<bool>,
) -> Result<Vec<u8>, Fail> {
    let mut journal = Journal::over(alloc, disk_with(alloc, before)?);
    *kept = tear(alloc, &mut journal, calls);
    let mut disk = journal.into_disk();
    file_of(alloc, &mut disk)
}

// Checks that such a crash leaves the file, or the file with the entry.
fn check_crash(rt: &impl Abort, alloc: Global, before: &[u8], calls: u64) -> Result<(), Fail> {
    let mut kept = None;
    let torn = torn(alloc, before, calls, &mut kept)?;
    let left = check_read(rt, alloc, &torn)?;
    assert!(rt; kept == Some(calls >= 4));
    assert!(rt; is_before_with(torn.get(..left).unwrap_or(&[]), before, end_of(calls)));
    Ok(())
}

// How the file ends when this many calls pass: with its gate, or with the entry and another gate.
fn end_of(calls: u64) -> &'static [u8] {
    if calls < 4 {
        b"\0"
    } else {
        b"\x01\0\0\0\x02\x05\x06\0"
    }
}

// Whether the bytes are these before, but with another end in place of the last gate.
fn is_before_with(bytes: &[u8], before: &[u8], end: &[u8]) -> bool {
    match before {
        [front @ .., _] => bytes.get(..front.len()) == Some(front)
            && bytes.get(front.len()..) == Some(end),
        [] => false,
    }
}

fn check_crashes(rt: &impl Abort, alloc: Global, before: &[u8]) -> Result<(), Fail> {
    for calls in 0..6 {
        check_crash(rt, alloc, before, calls)?;
    }
    Ok(())
}

#[test]
fn a_crash_leaves_the_entries_with_or_without_the_new_one(rt: HostRuntime) -> Result<(), Fail> {
    check_crashes(&rt, rt.alloc(), &[0])?;
    let whole = whole_file(&rt, rt.alloc())?;
    check_crashes(&rt, rt.alloc(), &whole)
}

const TORN: &[u8] = &[0, 0, 0, 2, 5, 6];

// A file with those bytes of a torn append that this number's bits name, and zeros for the others.
fn with_torn(alloc: Global, whole: &[u8], torn: u32) -> Result<Vec<u8>, Fail> {
    let mut bytes = Vec::from_slice(alloc, whole)?;
    for (k, byte) in TORN.iter().enumerate() {
        let there = torn.checked_shr(k as u32).unwrap_or(0) % 2 == 1;
        bytes.push(if there { *byte } else { 0 })?;
    }
    Ok(bytes)
}

// Behind the last gate, any of an append's bytes may be there, and any may be 0.
#[test]
fn a_torn_append_leaves_the_entries(rt: HostRuntime) -> Result<(), Fail> {
    let whole = whole_file(&rt, rt.alloc())?;
    for torn in 0..64u32 {
        let bytes = with_torn(rt.alloc(), &whole, torn)?;
        assert!(rt; check_read(&rt, rt.alloc(), &bytes)? == whole.len());
    }
    Ok(())
}

// A disk over a file of the operating system.
fn file_disk(rt: &HostRuntime, name: &str) -> Result<FileDisk<HostRuntime>, Fail> {
    let mut disk = FileDisk::new(rt.clone()?, rt.alloc());
    disk.attach(name)?;
    Ok(disk)
}

const KEPT: &[u8] = b"\0\0\0\0\0\0\0\0\0\0\0\0\0\0\0\x04kept";

#[test]
fn a_file_is_attached_anew(rt: HostRuntime) -> Result<(), Fail> {
    let name = "iss_journal_test_file";
    let mut shown = Vec::new(rt.alloc());
    put_appended(
        &rt,
        rt.alloc(),
        file_disk(&rt, name)?,
        &[b"kept"],
        &mut shown,
    )?;
    shown.clear();
    put_appended(&rt, rt.alloc(), file_disk(&rt, name)?, &[], &mut shown)?;
    fs::remove_file(&rt, name)?;
    assert!(rt; shown.as_slice() == KEPT);
    Ok(())
}
