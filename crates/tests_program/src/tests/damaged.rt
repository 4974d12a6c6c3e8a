//! A core whose journal is damaged does not come back, and its file stays as it is.
ghost use Rattle.std.specs.Prelude.{◌≡◌, ◌<◌, IfOk};
ghost use Rattle.iss_rules.specs.Concrete.{keys_of};
ghost use Rattle.iss_rules.specs.Setups.{IsSetupOf};
ghost use Rattle.sb_echo.specs.Echo.{echo};

use crate::four_nodes;
use iss_disk::{Disk, Fused, MemoryDisk};
use iss_journal::AttachError;
use iss_keep::Kept;
use iss_keys::SharedDirectory;
use iss_request::{NodeId, Setup};
use sb_echo::Echo;
use std::alloc::Global;
use std::process::Abort;
use std::test::Fail;

// The journal of a node after two timeouts of the leader 2: a gate, a length, the event's kind and its leader, twice.
// Last comes the closed gate.
const TWO_TIMEOUTS: [u8; 15] = [1, 0, 0, 0, 2, 3, 2, 1, 0, 0, 0, 2, 3, 2, 0];

// A disk whose file has these bytes, all synced.
fn disk_with(alloc: Global, bytes: &[u8]) -> Result<MemoryDisk, Fail> {
    let mut disk = MemoryDisk::new(alloc)?;
    disk.reserve(2, bytes.len() as u64)?;
    disk.write_at(0, bytes)?;
    disk.sync()?;
    Ok(disk)
}

fn directory_of(alloc: Global, setup: &Setup) -> Result<SharedDirectory, Fail>
    requires { IsSetupOf echo setup.now }
    ensures { IfOk result (λ directory. directory ≡ keys_of setup.now) }
{
    Ok(SharedDirectory::make(alloc, setup.n, setup.clients, setup.keys as u8)?)
}

// What node 1 answers that reopens the file.
fn reopen(
    alloc: Global,
    setup: &Setup,
    directory: &SharedDirectory,
    disk: &mut MemoryDisk,
) -> Result<Result<(), AttachError>, Fail>
    requires good { IsSetupOf echo setup.now }
    requires directory { directory.now ≡ keys_of setup.now }
    requires me { 1 < setup.now.n }
{
    let mut node = Kept::<Echo, &mut MemoryDisk>::over(alloc, setup, directory, NodeId(1), disk)?;
    Ok(node.reopen())
}

fn reopen_with_keys(
    alloc: Global,
    setup: &Setup,
    disk: &mut MemoryDisk,
) -> Result<Result<(), AttachError>, Fail>
    requires good { IsSetupOf echo setup.now }
    requires me { 1 < setup.now.n }
{
    let directory = directory_of(alloc, setup)?;
    reopen(alloc, setup, &directory, disk)
}

// What node 1 answers after a restart over the file.
fn restart(alloc: Global, disk: &mut MemoryDisk) -> Result<Result<(), AttachError>, Fail> {
    disk.restart();
    let setup = four_nodes(alloc)?;
    reopen_with_keys(alloc, &setup, disk)
}

// Checks the file's bytes, which are at most 16.
fn check_file(rt: &impl Abort, disk: &mut MemoryDisk, bytes: &[u8]) -> Result<(), Fail> {
    let mut read = [0u8; 16];
    let count = disk.read_at(0, &mut read)?;
    assert!(rt; count <= 16);
    assert_eq!(rt; &read[..count], bytes);
    Ok(())
}

// Restarts the node twice over these bytes, and checks both answers and the file.
fn check_restarts(
    rt: &impl Abort,
    alloc: Global,
    bytes: &[u8],
    expected: Result<(), AttachError>,
) -> Result<(), Fail> {
    let mut disk = disk_with(alloc, bytes)?;
    for _ in 0..2 {
        let answer = restart(alloc, &mut disk)?;
        assert_eq!(rt; answer, expected);
    }
    check_file(rt, &mut disk, bytes)
}

// Each byte of the second entry is changed in turn: its length, then an event of no kind, then of no node.
#[test]
fn a_damaged_core_stays_out(rt: HostRuntime) -> Result<(), Fail> {
    check_restarts(&rt, rt.alloc(), &TWO_TIMEOUTS, Ok(()))?;
    for k in 8..14usize {
        let mut bytes = TWO_TIMEOUTS;
        bytes[k] = 9;
        check_restarts(&rt, rt.alloc(), &bytes, Err(AttachError::Damaged { at: 7 }))?;
    }
    Ok(())
}
