//! Journals with snapshots, over disks in memory: the bytes of one, and what makes one damaged.
ghost use Rattle.std.specs.Prelude.{◌≡◌, ◌<◌, ◌≤◌, IfOk};
ghost use Rattle.iss_base.specs.Heights.{IsHeight};

use crate::relay_config;
use iss_cluster::start_node;
use iss_disk::{Disk, Fused, MemoryDisk};
use iss_journal::{AttachError, Journal};
use iss_keep::Kept;
use iss_keys::{Directory, Keys};
use iss_node::Answer;
use iss_request::{Bytes, NodeId, ReqId, Seq};
use iss_rules::NodeEvent;
use iss_sb::To;
use iss_segment::sign_request;
use sb_relay::Relay;
use std::alloc::Global;
use std::process::Abort;
use std::test::Fail;

const THREE_NODES: &[u8] =
    b"module = \"relay\"\nf = 0\nepoch = 3\nbuckets = 3\nbatch = 4\nwindow = 2\npolicy = \"simple\"\n\
      clients = 1\nkeys = 2\nrequests = 0\nturns = 1\n";

// Node 0 as it enters epoch 1 behind three empty batches: its kind, the epochs from 0 to 1, the batches, the next leaf,
// and no request, certificate, vote or early packet. The bytes are those of an independent program.
const SNAPSHOT: &[u8] =
    b"\x05\0\0\0\0\0\0\0\0\0\0\0\0\0\0\0\x01\x01\0\x01\0\x01\0\0\0\0\x01\0\0\0\0\0\0\0\0\0\0\0\0\0\0";

// The empty batch of a slot below 256, as the packet of its leader.
fn empty_batch(slot: u8) -> [u8; 27] {
    let leader = slot % 3;
    let epoch = slot / 3;
    [
        1, 1, leader, 0, 0, 0, 0, 0, 0, 0, epoch, leader, 0, 0, 0, 11, 1, 0, 0, 0, 0, 0, 0, 0,
        slot, 1, 0,
    ]
}

// These bytes as a packet. A single byte is a slot, whose empty batch it stands for.
fn packet_of(alloc: Global, bytes: &[u8]) -> Result<Bytes, Fail> {
    match bytes {
        [slot] => Ok(Bytes::of(Vec::from_slice(alloc, &empty_batch(*slot))?)),
        _ => Ok(Bytes::of(Vec::from_slice(alloc, bytes)?)),
    }
}

// A node over a disk. It has not read its journal.
fn node_over<'a>(
    alloc: Global,
    node: u8,
    disk: &'a mut MemoryDisk,
) -> Result<Kept<Relay, &'a mut MemoryDisk>, Fail>
    requires { node < 3 }
{
    let config = relay_config(alloc, THREE_NODES)?;
    let fresh = start_node::<Relay>(alloc, &config, NodeId(node))?;
    Ok(Kept::of(fresh, disk))
}

// What a node sends that takes a packet.
fn sends_of(answer: Answer) -> Result<Seq<(To, Bytes)>, Fail> {
    match answer {
        Answer::Taken(outcome) => Ok(outcome.sends),
        _ => Err("the packet was not taken")?,
    }
}

// The last packet of these, or no bytes.
fn last_of(alloc: Global, sends: Seq<(To, Bytes)>) -> Bytes {
    match sends.into_vec().pop() {
        Some((_to, sent)) => sent,
        None => Bytes::new(alloc),
    }
}

// The node takes a packet. Returns what it sends last.
fn take(
    alloc: Global,
    kept: &mut Kept<Relay, &mut MemoryDisk>,
    bytes: &[u8],
) -> Result<Bytes, Fail> {
    let packet = packet_of(alloc, bytes)?;
    let answer = kept.take(NodeEvent::Packet(packet))?;
    Ok(last_of(alloc, sends_of(answer)?))
}

// The node reads its journal, and takes these packets. Returns what it sends last at the last of them.
fn take_all(
    alloc: Global,
    kept: &mut Kept<Relay, &mut MemoryDisk>,
    packets: &[&[u8]],
) -> Result<Bytes, Fail> {
    kept.reopen()?;
    let mut sent = Bytes::new(alloc);
    for packet in packets {
        sent = take(alloc, kept, packet)?;
    }
    Ok(sent)
}

// The node that has this journal goes on: it takes these packets. Returns what it sends last at the last of them.
fn go_on(alloc: Global, node: u8, disk: &mut MemoryDisk, packets: &[&[u8]]) -> Result<Bytes, Fail>
    requires { node < 3 }
{
    let mut kept = node_over(alloc, node, disk)?;
    let sent = take_all(alloc, &mut kept, packets);
    let _disk = kept.into_disk();
    sent
}

// The same for node 0, which crashes before each packet, so that its disk keeps what was synced, and recovers.
fn go_on_with_restarts(
    alloc: Global,
    disk: &mut MemoryDisk,
    packets: &[&[u8]],
) -> Result<Bytes, Fail> {
    let mut sent = Bytes::new(alloc);
    for packet in packets {
        disk.restart();
        sent = go_on(alloc, 0, disk, &[packet])?;
    }
    Ok(sent)
}

// The file of these entries.
pub(crate) fn file_of(alloc: Global, entries: &[&[u8]]) -> Result<Vec<u8>, Fail> {
    let mut file = Vec::new(alloc);
    for entry in entries {
        put_entry(&mut file, &[entry])?;
    }
    file.push(0)?;
    Ok(file)
}

// Appends an entry: the open gate, its length, and its pieces.
fn put_entry(file: &mut Vec<u8>, pieces: &[&[u8]]) -> Result<(), Fail> {
    let mut len = 0u32;
    for piece in pieces {
        len = len.saturating_add(u32::try_from(piece.len()).unwrap_or(u32::MAX));
    }
    file.push(1)?;
    file.extend_from_slice(&len.to_be_bytes())?;
    put_all(file, pieces)
}

// Appends pieces.
fn put_all(file: &mut Vec<u8>, pieces: &[&[u8]]) -> Result<(), Fail> {
    for piece in pieces {
        file.extend_from_slice(piece)?;
    }
    Ok(())
}

// These pieces, one behind the other.
pub(crate) fn joined(alloc: Global, pieces: &[&[u8]]) -> Result<Vec<u8>, Fail> {
    let mut all = Vec::new(alloc);
    put_all(&mut all, pieces)?;
    Ok(all)
}

// Appends the entries that a journal reads.
fn put_entries(
    alloc: Global,
    journal: &mut Journal<&mut MemoryDisk>,
    file: &mut Vec<u8>,
) -> Result<(), Fail> {
    journal.attach()?;
    for k in 0..journal.entries().len() {
        let entry = journal.entries().get(alloc, k)?;
        put_entry(file, &[&entry])?;
    }
    Ok(())
}

// Appends the entries of the journal on this disk.
fn put_journal(alloc: Global, disk: &mut MemoryDisk, file: &mut Vec<u8>) -> Result<(), Fail> {
    let mut journal = Journal::over(alloc, disk);
    let put = put_entries(alloc, &mut journal, file);
    let _disk = journal.into_disk();
    put
}

// The vote of a node for epoch 0, which three empty batches end.
fn vote(alloc: Global, node: u8) -> Result<Bytes, Fail>
    requires { node < 3 }
{
    let mut disk = MemoryDisk::new(alloc)?;
    go_on(alloc, node, &mut disk, &[&[0], &[1], &[2]])
}

// The entries of node 0, which takes these packets.
fn entries_behind(alloc: Global, packets: &[&[u8]]) -> Result<Vec<u8>, Fail> {
    let mut file = Vec::new(alloc);
    let mut disk = MemoryDisk::new(alloc)?;
    go_on(alloc, 0, &mut disk, packets)?;
    put_journal(alloc, &mut disk, &mut file)?;
    Ok(file)
}

// The entries of a snapshot and of two packets behind it.
fn entries_with(alloc: Global, first: &[u8], second: &[u8]) -> Result<Vec<u8>, Fail> {
    let mut file = Vec::new(alloc);
    put_entry(&mut file, &[SNAPSHOT])?;
    put_entry(&mut file, &[&[1], first])?;
    put_entry(&mut file, &[&[1], second])?;
    Ok(file)
}

#[test]
fn a_snapshot_takes_the_place_of_the_event_that_ended_an_epoch(
    rt: HostRuntime,
) -> Result<(), Fail> {
    let alloc = rt.alloc();
    let own = vote(alloc, 0)?;
    let other = vote(alloc, 1)?;
    let packets: [&[u8]; 5] = [&[0], &[1], &[2], own.as_slice(), other.as_slice()];
    let found = entries_behind(alloc, &packets)?;
    let wanted = entries_with(alloc, own.as_slice(), other.as_slice())?;
    assert_eq!(rt; found.as_slice(), wanted.as_slice());
    Ok(())
}

// The keys of client 0 of this number of clients.
fn client_keys(alloc: Global, clients: u32, height: u8) -> Result<Keys, Fail>
    requires some { 0 < clients }
    requires clients { clients ≤ 256 }
    requires height { IsHeight height }
    ensures { IfOk result (λ keys. keys.height ≡ height) }
{
    let directory = Directory::make(alloc, 3, clients, height)?;
    let keys = directory.keys_of_client(alloc, 0);
    Ok(keys)
}

// The signature of client 0 on its request of this number.
fn signature(alloc: Global, number: u32) -> Result<Bytes, Fail>
    requires { number < 4 }
{
    let mut keys = client_keys(alloc, 1, 2)?;
    Ok(sign_request(&mut keys, ReqId { client: 0, number }, &[])?)
}

// Before the number of a request, and behind it: a packet without sender whose body has 2220 bytes, and no payload.
const HEAD: &[u8] = b"\x01\x05\xff\0\0\0\0\0\0\0\0\0\0\0\x08\xac\0";

const NO_PAYLOAD: &[u8] = b"\0\0";

// The packet of a request of client 0. That of number 1 is not node 0's in the first epochs.
pub(crate) fn request(alloc: Global, number: u32) -> Result<Vec<u8>, Fail>
    requires { number < 4 }
{
    let sig = signature(alloc, number)?;
    joined(
        alloc,
        &[HEAD, &number.to_be_bytes(), NO_PAYLOAD, sig.as_slice()],
    )
}

// Node 1 asks for epoch 0.
const ASK: &[u8] = &[1, 3, 1, 0, 0, 0, 0, 0, 0, 0, 0, 0, 0, 0, 0, 0];

// Node 0 enters epoch 1, and its snapshot has a waiting request, a vote and an early packet. It enters epoch 2, and its
// snapshot has a certificate. Returns what it sends to node 1, which asks for epoch 0: the values of that epoch, and
// its certificate.
fn enter_both(alloc: Global, disk: &mut MemoryDisk, restarts: bool) -> Result<Bytes, Fail> {
    let own = vote(alloc, 0)?;
    let other = vote(alloc, 1)?;
    let request = request(alloc, 1)?;
    let packets: [&[u8]; 10] = [
        &request,
        other.as_slice(),
        &[4],
        &[0],
        &[1],
        &[2],
        own.as_slice(),
        &[3],
        &[5],
        ASK,
    ];
    if restarts {
        go_on_with_restarts(alloc, disk, &packets)
    } else {
        go_on(alloc, 0, disk, &packets)
    }
}

// The entries of node 0 in epoch 2, two snapshots and what node 1 asked, and behind them what it answered.
pub(crate) fn two_snapshots(alloc: Global, restarts: bool) -> Result<Vec<u8>, Fail> {
    let mut all = Vec::new(alloc);
    let mut disk = MemoryDisk::new(alloc)?;
    let answer = enter_both(alloc, &mut disk, restarts)?;
    put_journal(alloc, &mut disk, &mut all)?;
    all.extend_from_slice(answer.as_slice())?;
    Ok(all)
}

// The second snapshot and the answer are the same only if all that the first snapshot has is there again.
#[test]
fn each_part_of_a_snapshot_and_a_certificate_outlive_restarts(rt: HostRuntime) -> Result<(), Fail> {
    let alloc = rt.alloc();
    let all = two_snapshots(alloc, true)?;
    let others = two_snapshots(alloc, false)?;
    assert_eq!(rt; all.as_slice(), others.as_slice());
    assert_eq!(rt; all.len(), BEHIND.1 + 5 + 17 + 16 + 1 + 6 + 4469);
    Ok(())
}

// A disk whose file has these bytes, all synced.
pub(crate) fn disk_with(alloc: Global, bytes: &[u8]) -> Result<MemoryDisk, Fail> {
    let mut disk = MemoryDisk::new(alloc)?;
    disk.reserve(2, bytes.len() as u64)?;
    disk.write_at(0, bytes)?;
    disk.sync()?;
    Ok(disk)
}

// The answer of node 0 that reads the journal on this disk.
fn reopened(alloc: Global, disk: &mut MemoryDisk) -> Result<Result<(), AttachError>, Fail> {
    let mut kept = node_over(alloc, 0, disk)?;
    let answer = kept.reopen();
    let _disk = kept.into_disk();
    Ok(answer)
}

// The bytes of the file on this disk, up to a bound.
fn bytes_on(alloc: Global, disk: &mut MemoryDisk, most: usize) -> Result<Vec<u8>, Fail> {
    let mut bytes = vec![in alloc; 0u8; most]?;
    let len = disk.read_at(0, &mut bytes)?;
    bytes.truncate(len);
    Ok(bytes)
}

// Checks the answer of node 0 that reads this file, and that the file stays as it is.
pub(crate) fn check_opens(
    rt: &impl Abort,
    alloc: Global,
    file: &[u8],
    expected: Result<(), AttachError>,
) -> Result<(), Fail> {
    let mut disk = disk_with(alloc, file)?;
    let answer = reopened(alloc, &mut disk)?;
    assert_eq!(rt; answer, expected);
    let left = bytes_on(alloc, &mut disk, file.len() + 1)?;
    assert_eq!(rt; left.as_slice(), file);
    Ok(())
}

// Checks that the entry whose gate is at `gate` is damaged where one bit of the byte at `at` is another.
fn check_damaged(
    rt: &impl Abort,
    alloc: Global,
    file: &[u8],
    at: usize,
    gate: usize,
) -> Result<(), Fail> {
    let mut bytes = Vec::from_slice(alloc, file)?;
    if let Some(byte) = bytes.get_mut(at) {
        *byte ^= 128;
    }
    let damaged = AttachError::Damaged { at: gate as u64 };
    check_opens(rt, alloc, &bytes, Err(damaged))
}

#[test]
fn a_snapshot_is_damaged_at_each_byte(rt: HostRuntime) -> Result<(), Fail> {
    let alloc = rt.alloc();
    let file = file_of(alloc, &[SNAPSHOT])?;
    check_opens(&rt, alloc, &file, OPENS)?;
    for at in 1..file.len().saturating_sub(1) {
        check_damaged(&rt, alloc, &file, at, 0)?;
    }
    Ok(())
}

// In the file of both snapshots: the first one, the gate of the second, and that one.
pub(crate) const FIRST: (usize, usize) = (5, 4559);

const SECOND: usize = 4559;

pub(crate) const BEHIND: (usize, usize) = (4564, 11302);

// A journal opens, or is damaged at the first or the second of its snapshots.
pub(crate) const OPENS: Result<(), AttachError> = Ok(());

pub(crate) const AT_FIRST: Result<(), AttachError> = Err(AttachError::Damaged { at: 0 });

pub(crate) const AT_SECOND: Result<(), AttachError> = Err(AttachError::Damaged { at: 4559 });

// In the first snapshot: where it begins and ends, the next leaf, the request's client and signature, the vote's epoch,
// node, chain and signature, and the early packet's epoch and leader.
const OF_FIRST: [usize; 11] = [13, 21, 31, 36, 1005, 2271, 2272, 2273, 3005, 4542, 4543];

// In the second: where it begins, and the certificate's chain, a signature of it, and its second signer.
const OF_SECOND: [usize; 4] = [4572, 6827, 7564, 9082];

// The bytes from one offset to another, as far as there are any.
pub(crate) fn cut(bytes: &[u8], (from, to): (usize, usize)) -> &[u8] {
    let to = to.min(bytes.len());
    &bytes[from.min(to)..to]
}

#[test]
fn a_snapshot_that_would_lose_something_is_damaged(rt: HostRuntime) -> Result<(), Fail> {
    let alloc = rt.alloc();
    let all = two_snapshots(alloc, false)?;
    let file = file_of(alloc, &[cut(&all, FIRST), cut(&all, BEHIND)])?;
    check_opens(&rt, alloc, &file, OPENS)?;
    for at in OF_FIRST {
        check_damaged(&rt, alloc, &file, at, 0)?;
    }
    for at in OF_SECOND {
        check_damaged(&rt, alloc, &file, at, SECOND)?;
    }
    let swapped = file_of(alloc, &[cut(&all, BEHIND), cut(&all, FIRST)])?;
    check_opens(&rt, alloc, &swapped, AT_FIRST)
}
