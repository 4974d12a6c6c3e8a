//! Which node each core runs, and how cores are started and recovered.
ghost use Rattle.std.specs.Prelude.{◌≡◌, ◌<◌, ◌≤◌, ◌+◌, [], length, IfOk, OnOk};
ghost use Rattle.iss_disk.specs.Calls.{script};
ghost use Rattle.iss_disk.specs.MemoryViews.{calls_of};
ghost use Rattle.iss_keep.specs.Steps.{IsSame};
ghost use Rattle.iss_rules.specs.Concrete.{keys_of};
ghost use Rattle.iss_model.specs.Run.{cores_of, node_of};
ghost use Rattle.iss_rules.specs.Setups.{IsSetupOf};
ghost use Rattle.iss_request.specs.Setup.{IsGoodSetup};
ghost use Rattle.iss_world.specs.Refines.{AreFresh, HasLed, IsFresh, IsMadeAnew};

use crate::members::Members;
use iss_disk::MemoryDisk;
use iss_journal::{AttachError, a_file_has_one_reading};
use iss_keep::{Kept, a_journal_recovers};
use iss_keys::SharedDirectory;
use iss_node::nodes_stand_for_slims;
use iss_request::{NoMemory, NodeId, Setup};
use iss_sb::Sequenced;
use std::alloc::Global;

/// The number of cores: one for each node, and a twin for each faulty node.
pub fn cores_of(setup: &Setup) -> u32
    requires { IsGoodSetup setup.now }
    ensures { result ≡ cores_of setup.now }
{
    setup.n + setup.faulty.as_slice().len() as u32
}

/// The node that a core runs. Cores `n` and above are twins of the faulty nodes, in their order.
// rule: Runs: A faulty node runs as two cores with the same keys
pub fn node_of(setup: &Setup, core: u32) -> NodeId
    requires good { IsGoodSetup setup.now }
    requires core { core < cores_of setup.now }
    ensures is { result.0 ≡ node_of setup.now core }
    ensures below { result.0 < setup.now.n }
{
    if core < setup.n {
        return NodeId(core as u8);
    }
    setup.faulty.as_slice()[(core - setup.n) as usize]
}

/// The keys of all nodes and clients. Key trees are computed lazily. The only error is out of memory.
pub fn directory_of(alloc: Global, setup: &Setup) -> Result<SharedDirectory, NoMemory>
    requires { IsGoodSetup setup.now }
    ensures { IfOk result (λ directory. directory ≡ keys_of setup.now) }
{
    match SharedDirectory::make(alloc, setup.n, setup.clients, setup.keys as u8) {
        Ok(directory) => Ok(directory),
        Err(_) => Err(NoMemory),
    }
}

/// All cores of a cluster, ascending. None has taken an event; each has its own new disk, and all share the directory.
pub fn start_cores<M: Sequenced>(
    alloc: Global,
    members: &Members,
) -> Result<Vec<Kept<M, MemoryDisk>>, NoMemory>
    requires { IsSetupOf M.spec members.now }
    ensures { IfOk result (λ nodes. AreFresh M.spec M.refines members.now (cores_of members.now) nodes.items) }
{
    let mut nodes = Vec::new(alloc);
    for core in 0..members.cores() {
        nodes.push(start_core(alloc, members, core)?)?;
    }
    Ok(nodes)
}

// A core that has taken no event, with its node's keys from the directory.
fn start_core<M: Sequenced>(
    alloc: Global,
    members: &Members,
    core: u32,
) -> Result<Kept<M, MemoryDisk>, NoMemory>
    requires good { IsSetupOf M.spec members.now }
    requires core { core < cores_of members.now }
    ensures { IfOk result (λ node. IsFresh M.spec M.refines members.now core node) }
{
    let disk = MemoryDisk::new(alloc)?;
    let me = members.node_of(core);
    let mut node = Kept::over(alloc, members.setup(), members.shared(), me, disk)?;
    make_anew(&mut node)?;
    Ok(node)
}

/// Recovers a kept node whose disk works and whose entries lead to a core. So the only possible error is out of memory.
pub fn make_anew<M: Sequenced>(node: &mut Kept<M, MemoryDisk>) -> Result<(), NoMemory>
    requires works { calls_of node.old.disk ≡ script [] }
    requires whole { HasLed M.spec node.old }
    ensures anew { OnOk result (IsMadeAnew M.spec M.refines node.old node.new) }
    ensures same { IsSame node.old node.new }
{
    a_file_has_one_reading();
    a_journal_recovers::<M>();
    nodes_stand_for_slims::<M>();
    let _setup = node.setup();
    let _me = node.me();
    let _epoch = node.epoch();
    match node.reopen() {
        Ok(()) => Ok(()),
        Err(AttachError::NoMemory) => Err(NoMemory),
        Err(AttachError::Failed) => unreachable!(),
        Err(AttachError::Damaged { at: _ }) => unreachable!(),
    }
}
