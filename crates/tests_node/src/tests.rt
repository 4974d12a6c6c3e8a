//! Tests of public calls only.
use crate::pbft_config;
use crate::snapshots::disk_with;
use iss_cluster::{NodeFailure, RunningNode, node, start_node};
use iss_disk::{Disk, MemoryDisk};
use iss_links::{Arrival, FailingLinks, Links, MemoryLinks};
use iss_request::{Bytes, NodeId};
use sb_pbft::Pbft;
use std::alloc::Global;
use std::process::Abort;
use std::test::Fail;

// One node that gets no requests. An epoch has one slot.
const ONE_TURN: &[u8] =
    b"module = \"pbft\"\nf = 0\nepoch = 1\nbuckets = 1\nbatch = 4\nwindow = 8\npolicy = \"simple\"\n\
      clients = 8\nkeys = 4\nrequests = 0\nturns = 1\n";

const TWO_TURNS: &[u8] =
    b"module = \"pbft\"\nf = 0\nepoch = 1\nbuckets = 1\nbatch = 4\nwindow = 8\npolicy = \"simple\"\n\
      clients = 8\nkeys = 4\nrequests = 0\nturns = 2\n";

// Runs the node of a configuration over a disk, with these links.
fn run_over(
    alloc: Global,
    text: &[u8],
    links: &mut FailingLinks,
    disk: &mut MemoryDisk,
) -> Result<Result<Bytes, NodeFailure>, Fail> {
    let config = pbft_config(alloc, text)?;
    let fresh = start_node::<Pbft>(alloc, &config, NodeId(0))?;
    let mut running = RunningNode::of(fresh, disk);
    let ran = node(alloc, &config, links, &mut running);
    // The disk is given back.
    let _disk = running.into_disk();
    Ok(ran)
}

// Links in memory, of whose calls those with the given numbers fail.
fn links_of(alloc: Global, failing: &[u64]) -> Result<FailingLinks, Fail> {
    let failing = Vec::from_slice(alloc, failing)?;
    Ok(FailingLinks::new(MemoryLinks::new(alloc)?, failing))
}

// Why a run of two turns fails.
fn failure_of(
    alloc: Global,
    links: &mut FailingLinks,
    disk: &mut MemoryDisk,
) -> Result<Option<NodeFailure>, Fail> {
    match run_over(alloc, TWO_TURNS, links, disk)? {
        Ok(_) => Ok(None),
        Err(failure) => Ok(Some(failure)),
    }
}

// What a run over links that never fail prints.
fn printed(alloc: Global, text: &[u8], disk: &mut MemoryDisk) -> Result<Bytes, Fail> {
    let mut links = links_of(alloc, &[])?;
    Ok(run_over(alloc, text, &mut links, disk)??)
}

// Checks that a run prints this text, and that its journal has grown.
fn check_run(
    rt: &impl Abort,
    alloc: Global,
    config: &[u8],
    disk: &mut MemoryDisk,
    text: &[u8],
) -> Result<(), Fail> {
    let before = disk.length()?;
    let found = printed(alloc, config, disk)?;
    assert_eq!(rt; found.as_slice(), text);
    let now = disk.length()?;
    assert!(rt; before < now);
    Ok(())
}

// Checks that a run over links of which these calls fail fails so.
fn check_fails(
    rt: &impl Abort,
    alloc: Global,
    disk: &mut MemoryDisk,
    failing: &[u64],
    wanted: NodeFailure,
) -> Result<(), Fail> {
    let mut links = links_of(alloc, failing)?;
    let failure = failure_of(alloc, &mut links, disk)?;
    assert_eq!(rt; failure, Some(wanted));
    Ok(())
}

fn new_disk(alloc: Global) -> Result<MemoryDisk, Fail> {
    let mut disk = MemoryDisk::new(alloc)?;
    disk.attach("node.journal")?;
    Ok(disk)
}

// A disk whose call number `calls` fails, and no other.
fn failing_disk(alloc: Global, calls: usize) -> Result<MemoryDisk, Fail> {
    let mut outcomes = vec![in alloc; true; calls]?;
    outcomes.push(false)?;
    Ok(new_disk(alloc)?.with_outcomes(outcomes))
}

// The texts are those of an independent program.
#[test]
fn one_turn_delivers_nothing(rt: HostRuntime) -> Result<(), Fail> {
    let mut disk = new_disk(rt.alloc())?;
    check_run(
        &rt,
        rt.alloc(),
        ONE_TURN,
        &mut disk,
        b"node 0 epoch 0 slots 0 requests 0\n",
    )
}

// The second run goes on from the journal of the first, over links where nothing waits.
#[test]
fn a_node_goes_on_from_its_journal(rt: HostRuntime) -> Result<(), Fail> {
    let mut disk = new_disk(rt.alloc())?;
    check_run(
        &rt,
        rt.alloc(),
        TWO_TURNS,
        &mut disk,
        b"node 0 epoch 1 slots 1 requests 0\n0 0 0\n",
    )?;
    check_run(
        &rt,
        rt.alloc(),
        TWO_TURNS,
        &mut disk,
        b"node 0 epoch 2 slots 2 requests 0\n0 0 0\n1 0 0\n",
    )
}

// An open gate, and no whole entry behind it.
#[test]
fn a_damaged_journal_is_refused(rt: HostRuntime) -> Result<(), Fail> {
    let mut disk = disk_with(rt.alloc(), &[1, 0, 0])?;
    let damaged = NodeFailure::Damaged { at: 0 };
    check_fails(&rt, rt.alloc(), &mut disk, &[], damaged)?;
    let length = disk.length()?;
    assert_eq!(&rt; length, 3);
    Ok(())
}

#[test]
fn a_failing_disk_is_a_fault(rt: HostRuntime) -> Result<(), Fail> {
    let mut disk = failing_disk(rt.alloc(), 0)?;
    check_fails(&rt, rt.alloc(), &mut disk, &[], NodeFailure::DiskFault)
}

// Checks that a run fails whose disk fails at a call, and that the next one prints something.
fn check_recovers(rt: &impl Abort, alloc: Global, calls: usize) -> Result<(), Fail> {
    let mut disk = failing_disk(alloc, calls)?;
    check_fails(rt, alloc, &mut disk, &[], NodeFailure::DiskFault)?;
    let found = printed(alloc, TWO_TURNS, &mut disk)?;
    assert!(rt; 0 < found.len());
    Ok(())
}

// Whether attaching fails, or the first append, or the second: the next run goes on from what was kept.
#[test]
fn a_node_recovers_from_each_failing_call(rt: HostRuntime) -> Result<(), Fail> {
    for calls in [2, 5, 8] {
        check_recovers(&rt, rt.alloc(), calls)?;
    }
    Ok(())
}

// What arrives at the node behind a run whose disk fails at a call.
fn sent_before(alloc: Global, calls: usize) -> Result<(Option<NodeFailure>, Arrival), Fail> {
    let mut disk = failing_disk(alloc, calls)?;
    let mut links = links_of(alloc, &[])?;
    let failure = failure_of(alloc, &mut links, &mut disk)?;
    Ok((failure, links.take(0)?))
}

// To attach a new journal and to append its first entry takes more than five calls. Before that nothing is sent.
#[test]
fn an_event_that_was_not_kept_sends_nothing(rt: HostRuntime) -> Result<(), Fail> {
    for calls in 0..5 {
        let (failure, arrival) = sent_before(rt.alloc(), calls)?;
        assert_eq!(&rt; failure, Some(NodeFailure::DiskFault));
        assert!(&rt; matches!(&arrival, Arrival::Nothing));
    }
    Ok(())
}

#[test]
fn failing_links_are_a_fault(rt: HostRuntime) -> Result<(), Fail> {
    let mut disk = new_disk(rt.alloc())?;
    check_fails(&rt, rt.alloc(), &mut disk, &[0], NodeFailure::LinksFault)
}
