//! The orders that run nodes, over links and disks in memory, some of which fail, and over UDP and a file. The expected
//! logs follow from the rules: node 0 alone casts a slot in its first turn, and its own Commit fills the slot in the
//! second.
use crate::tests::calls::{Call, answer, call_over, check_over};
use iss_disk::{Disk, FileDisk, MemoryDisk};
use iss_links::{FailingLinks, MemoryLinks, UdpLinks};
use std::alloc::{AllocError, Global};
use std::fs;
use std::process::Abort;
use std::test::Fail;

// Each module with its faults.
const CLUSTERS: [(&str, u32); 5] = [
    ("relay", 0),
    ("raft", 1),
    ("pbft", 1),
    ("hotstuff", 1),
    ("chained", 1),
];

// A configuration without its module and its faults.
const SIZES: &str =
    "epoch = 4\nbuckets = 4\nbatch = 4\nwindow = 8\npolicy = \"simple\"\nclients = 8\nkeys = 6\n\
     requests = 8\nturns = 400\n";

// One node, for one turn and for two.
const ONE_TURN: &str =
    "module = \"pbft\"\nf = 0\nepoch = 1\nbuckets = 1\nbatch = 4\nwindow = 8\npolicy = \"simple\"\n\
     clients = 1\nkeys = 4\nrequests = 0\nturns = 1\n";

const TWO_TURNS: &str =
    "module = \"pbft\"\nf = 0\nepoch = 1\nbuckets = 1\nbatch = 4\nwindow = 8\npolicy = \"simple\"\n\
     clients = 1\nkeys = 4\nrequests = 0\nturns = 2\n";

const MOST_BYTES: usize = 16_777_216;

const NODE: &str = "node 0 20000 journal";

// The file of a node over UDP.
const JOURNAL: &str = "journal_over_udp";

// The system hands out no port from here on.
const FREE_PORT: u16 = 61_000;

// What a node prints after two turns over a new journal, and after two more over what each run left.
const LOGS: [&str; 3] = [
    "node 0 epoch 1 slots 1 requests 0\n0 0 0\nend ok\n",
    "node 0 epoch 2 slots 2 requests 0\n0 0 0\n1 0 0\nend ok\n",
    "node 0 epoch 3 slots 3 requests 0\n0 0 0\n1 0 0\n2 0 0\nend ok\n",
];

// The replay of a cluster's trace prints its report, in which a node has all requests.
fn check_trace(rt: &impl Abort, alloc: Global, module: &str, text: &str) -> Result<(), Fail> {
    let (trace, printed) = text.split_once("report\n").ok_or("no line `report`")?;
    let (status, report) = answer(alloc, "replay", trace.as_bytes())?;
    assert_eq!(rt; status, 0, "{module}");
    assert_eq!(rt; report.as_slice(), printed.as_bytes(), "{module}");
    let all = printed.split_once(" requests 8\n").is_some();
    assert!(rt; all, "{module} orders all requests");
    Ok(())
}

fn check_cluster(rt: &impl Abort, alloc: Global, module: &str, config: &str) -> Result<(), Fail> {
    let (status, text) = answer(alloc, "cluster 20000", config.as_bytes())?;
    assert_eq!(rt; status, 0, "{module}");
    check_trace(rt, alloc, module, str::from_utf8(&text)?)
}

#[test]
fn a_replay_of_a_clusters_trace_prints_its_report(rt: HostRuntime) -> Result<(), Fail> {
    for (module, f) in CLUSTERS {
        let config = format!(in rt.alloc(); "module = \"{module}\"\nf = {f}\n{SIZES}")?;
        check_cluster(&rt, rt.alloc(), module, &config)?;
    }
    Ok(())
}

// Checks the answer to a call over new links and this disk.
fn check(
    rt: &impl Abort,
    alloc: Global,
    call: &Call<'_>,
    disk: &mut MemoryDisk,
) -> Result<(), Fail> {
    let mut links = MemoryLinks::new(alloc)?;
    check_over(rt, alloc, call, &mut links, disk)
}

#[test]
fn one_turn_fills_no_slot(rt: HostRuntime) -> Result<(), Fail> {
    let mut disk = MemoryDisk::new(rt.alloc())?;
    let call = Call {
        line: NODE,
        input: ONE_TURN,
        status: 0,
        text: "node 0 epoch 0 slots 0 requests 0\nend ok\n",
    };
    check(&rt, rt.alloc(), &call, &mut disk)
}

#[test]
fn a_node_goes_on_from_its_journal(rt: HostRuntime) -> Result<(), Fail> {
    let mut disk = MemoryDisk::new(rt.alloc())?;
    for text in LOGS {
        let call = Call {
            line: NODE,
            input: TWO_TURNS,
            status: 0,
            text,
        };
        check(&rt, rt.alloc(), &call, &mut disk)?;
    }
    Ok(())
}

// The answer of node 0 over UDP with end 0 at this port, and its journal in a file.
fn answer_over_udp(
    rt: &HostRuntime,
    port: u32,
    config: &[u8],
) -> Result<(u8, Vec<u8>), AllocError> {
    let line = format!(in rt.alloc(); "node 0 {port} {JOURNAL}")?;
    let mut links = UdpLinks::new(rt, rt.alloc());
    let mut disk = FileDisk::new(rt, rt.alloc());
    call_over(rt.alloc(), &line, config, &mut links, &mut disk)
}

// The answer at the first port that is free of this one and every second one behind it.
fn answer_over_free_port(
    rt: &HostRuntime,
    abort: &impl Abort,
    port: u16,
    config: &[u8],
) -> Result<Vec<u8>, AllocError> {
    for i in 0..1000u32 {
        let (status, text) = answer_over_udp(rt, u32::from(port) + 2 * i, config)?;
        if status != 8 {
            assert_eq!(abort; status, 0);
            return Ok(text);
        }
    }
    panic!(abort; "no port is free");
}

// What one node prints over UDP after these turns.
fn printed_over_udp(
    rt: &HostRuntime,
    abort: &impl Abort,
    port: u16,
    turns: u32,
) -> Result<Vec<u8>, AllocError> {
    let config = format!(in rt.alloc();
        "module = \"pbft\"\nf = 0\nepoch = 1\nbuckets = 1\nbatch = 4\nwindow = 8\n\
        policy = \"simple\"\nclients = 1\nkeys = 8\nrequests = 0\nturns = {turns}\n"
    )?;
    answer_over_free_port(rt, abort, port, config.as_bytes())
}

// A turn in which the node waits for a frame in vain takes a millisecond or more. No slot is filled in one turn, and no
// frame of the first run arrives at the ports of the second. So what the second run prints is what its journal holds.
#[test]
fn a_node_over_udp_fills_slots_and_goes_on(rt: HostRuntime) -> Result<(), Fail> {
    let text = printed_over_udp(&rt, &rt, FREE_PORT, 100)?;
    assert_eq!(rt; str::from_utf8(&text)?.lines().nth(1), Some("0 0 0"));
    let again = printed_over_udp(&rt, &rt, FREE_PORT + 1, 1)?;
    fs::remove_file(&rt, JOURNAL)?;
    assert_eq!(rt; again, text);
    Ok(())
}

#[test]
fn a_longer_text_is_refused(rt: HostRuntime) -> Result<(), Fail> {
    let mut long = Vec::from_slice(rt.alloc(), TWO_TURNS.as_bytes())?;
    long.push(b'#')?;
    long.resize(MOST_BYTES + 1, b'x')?;
    for line in ["cluster 20000", NODE] {
        check_refused(&rt, rt.alloc(), line, &long)?;
    }
    Ok(())
}

fn check_refused(rt: &impl Abort, alloc: Global, line: &str, config: &[u8]) -> Result<(), Fail> {
    let (status, text) = answer(alloc, line, config)?;
    assert_eq!(rt; status, 11, "{line}");
    assert_eq!(rt;
        text.as_slice(),
        b"refused configuration\n".as_slice(),
        "{line}"
    );
    Ok(())
}

// Links over which this call fails, and no other.
fn failing_links(alloc: Global, call: u64) -> Result<FailingLinks, Fail> {
    let failing = vec![in alloc; call; 1]?;
    Ok(FailingLinks::new(MemoryLinks::new(alloc)?, failing))
}

fn check_links(rt: &impl Abort, alloc: Global, line: &str, call: u64) -> Result<(), Fail> {
    let mut links = failing_links(alloc, call)?;
    let mut disk = MemoryDisk::new(alloc)?;
    let call = Call {
        line,
        input: TWO_TURNS,
        status: 8,
        text: "",
    };
    check_over(rt, alloc, &call, &mut links, &mut disk)
}

#[test]
fn failing_links_are_told(rt: HostRuntime) -> Result<(), Fail> {
    for line in ["cluster 20000", NODE] {
        for call in 0..3u64 {
            check_links(&rt, rt.alloc(), line, call)?;
        }
    }
    Ok(())
}

// A disk of which this call fails, and no other.
fn failing_disk(alloc: Global, call: usize) -> Result<MemoryDisk, AllocError> {
    let mut outcomes = vec![in alloc; true; call]?;
    outcomes.push(false)?;
    Ok(MemoryDisk::new(alloc)?.with_outcomes(outcomes))
}

#[test]
fn failing_disks_are_told(rt: HostRuntime) -> Result<(), Fail> {
    let call = Call {
        line: NODE,
        input: TWO_TURNS,
        status: 9,
        text: "",
    };
    for k in 0..4usize {
        let mut disk = failing_disk(rt.alloc(), k)?;
        check(&rt, rt.alloc(), &call, &mut disk)?;
    }
    Ok(())
}

// Has the file of this name begin with an open gate, and no whole entry behind it.
fn damage(disk: &mut MemoryDisk, name: &str) -> Result<(), Fail> {
    disk.attach(name)?;
    disk.reserve(2, 6)?;
    disk.write_at(0, &[1, 0, 0, 0, 5, 0xaa])?;
    disk.sync()?;
    Ok(())
}

// A node whose journal is another file is not concerned.
#[test]
fn a_damaged_journal_is_told(rt: HostRuntime) -> Result<(), Fail> {
    let mut disk = MemoryDisk::new(rt.alloc())?;
    damage(&mut disk, "journal")?;
    let call = Call {
        line: NODE,
        input: TWO_TURNS,
        status: 10,
        text: "damaged 0\n",
    };
    check(&rt, rt.alloc(), &call, &mut disk)?;
    let call = Call {
        line: "node 0 20000 other",
        status: 0,
        text: LOGS[0],
        ..call
    };
    check(&rt, rt.alloc(), &call, &mut disk)
}
