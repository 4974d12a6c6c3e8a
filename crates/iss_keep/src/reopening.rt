// Recovery: a node is rebuilt from the snapshots of its journal, and replays the events behind them.
ghost use Rattle.std.specs.Prelude.{◌≡◌, ◌<◌, [], get_or, length, slice_index_or, take, IfOk, IsErrOf};
ghost use Rattle.iss_journal.specs.Frames.{version_1};
ghost use Rattle.iss_journal.specs.Promises.{LosesNone};
ghost use Rattle.iss_journal.specs.Retained.{is_snapshot, retained};
ghost use Rattle.iss_journal.specs.SharedViews.{shared_in};
ghost use Rattle.iss_keep.specs.Internal.Replays.{AreInFront, HasReadOn, HasReplayed, IsBackAt, IsInFront, IsOf};
ghost use Rattle.iss_keep.specs.Internal.Replays.{IsOpening, IsRecovery};
ghost use Rattle.iss_model.specs.Node.{initial_core};
ghost use Rattle.iss_node.specs.State.{IsMember, RefinesCore};

use crate::entries::decode_entry;
use iss_disk::Disk;
use iss_journal::{AttachError, Journal, SharedEntries};
use iss_keys::SharedDirectory;
use iss_node::{Answer, Node, Rebuilding};
use iss_request::{NoMemory, NodeId, Setup};
use iss_sb::Sequenced;
use iss_snapshot::snapshots::KIND;
use std::alloc::Global;
use std::mem;

/// A node that took no event, with unused keys.
pub(crate) fn start_fresh<M: Sequenced>(
    alloc: Global,
    setup: &Setup,
    directory: &SharedDirectory,
    me: NodeId,
) -> Result<Node<M>, NoMemory>
    requires { IsMember M.spec setup.now directory.now me.0 }
    ensures refines { IfOk result (λ node. RefinesCore M.spec M.refines node initial_core) }
    ensures same { IfOk result (λ node. (node.state.setup ≡ setup.now) × (node.state.me ≡ me)) }
{
    let keys = directory.directory().keys_of_node(alloc, me.0);
    Node::start(alloc, setup, directory, me, keys)
}

// Whether an entry is a snapshot, by its first byte.
fn is_snapshot(entry: &[u8]) -> bool
    ensures { result ≡ is_snapshot entry.now }
{
    match entry {
        [kind, ..] => *kind == KIND,
        [] => false,
    }
}

// The number of snapshots in front. None stands behind another entry.
fn snapshots_in_front(alloc: Global, entries: &SharedEntries) -> Result<usize, NoMemory>
    ensures { IfOk result (AreInFront (shared_in entries.now)) }
{
    for k in 0..entries.len() {
        let entry = entries.get(alloc, k)?;
        if !is_snapshot(&entry) {
            return Ok(k);
        }
    }
    Ok(entries.len())
}

// That entry `k` leads nowhere.
fn damage_at<D: Disk>(journal: &Journal<D>, k: usize) -> AttachError
    requires { k < length journal.now.entries }
    ensures { result ≡ AttachError.Damaged (get_or journal.now.gates k 0) }
{
    AttachError::Damaged {
        at: journal.gate_of(k),
    }
}

// Reads entry `k` as a snapshot. `None` if it does not continue those before it.
fn read_at<M: Sequenced>(
    alloc: Global,
    rebuilding: Rebuilding<M>,
    entries: &SharedEntries,
    k: usize,
) -> Result<Option<Rebuilding<M>>, NoMemory>
    requires { k < length (shared_in entries.now) }
    ensures { IfOk result (HasReadOn M.spec M.refines (slice_index_or (shared_in entries.now) k []) rebuilding) }
{
    let Ok(entry) = entries.get(alloc, k) else {
        drop(rebuilding);
        return Err(NoMemory);
    };
    rebuilding.read(&entry)
}

// Rebuilds the node from the first `front` entries, which are snapshots. `Damaged` has the gate offset of the first
// that does not continue those before it.
fn rebuild<M: Sequenced, D: Disk>(
    alloc: Global,
    setup: &Setup,
    directory: &SharedDirectory,
    me: NodeId,
    journal: &Journal<D>,
    front: usize,
) -> Result<Node<M>, AttachError>
    requires member { IsMember M.spec setup.now directory.now me.0 }
    requires front { AreInFront journal.now.entries front }
    ensures { IsRecovery (IsBackAt setup.now M.spec M.refines me (take front journal.now.entries))
        setup.now M.spec me.0 journal.now result }
{
    let Ok(mut rebuilding) = Rebuilding::<M>::start(alloc, setup, directory, me) else {
        return Err(AttachError::NoMemory);
    };
    let entries = journal.entries();
    for k in 0..front {
        let Ok(next) = read_at(alloc, rebuilding, entries, k) else {
            return Err(AttachError::NoMemory);
        };
        let Some(next) = next else {
            return Err(damage_at(journal, k));
        };
        rebuilding = next;
    }
    match rebuilding.finish() {
        Ok(node) => Ok(node),
        Err(_) => Err(AttachError::NoMemory),
    }
}

// Replays one entry. `false` if it does not decode or the node drops it; the node must not be used afterwards.
fn replay_entry<M: Sequenced>(
    alloc: Global,
    n: u32,
    node: &mut Node<M>,
    entry: &[u8],
) -> Result<bool, NoMemory>
    requires { n ≡ node.old.state.setup.n }
    ensures { HasReplayed M.spec M.refines entry.now node.old node.new result }
{
    let Some(event) = decode_entry(alloc, n, entry)? else {
        return Ok(false);
    };
    match node.replay(alloc, event) {
        Answer::Taken(outcome) => {
            drop(outcome);
            Ok(true)
        }
        Answer::Dropped(_why) => Ok(false),
        Answer::NoMemory => Err(NoMemory),
        Answer::Stale => Err(NoMemory),
    }
}

// Replays entry `k`, as `replay_entry` does.
fn replay_at<M: Sequenced>(
    alloc: Global,
    n: u32,
    node: &mut Node<M>,
    entries: &SharedEntries,
    k: usize,
) -> Result<bool, NoMemory>
    requires n { n ≡ node.old.state.setup.n }
    requires k { k < length (shared_in entries.now) }
    ensures { HasReplayed M.spec M.refines (slice_index_or (shared_in entries.now) k []) node.old node.new result }
{
    let entry = entries.get(alloc, k)?;
    replay_entry(alloc, n, node, &entry)
}

// Replays the entries behind the first `front`. `Damaged` has the gate offset of the first that does not decode or is
// dropped.
fn replay_behind<M: Sequenced, D: Disk>(
    alloc: Global,
    setup: &Setup,
    node: &mut Node<M>,
    journal: &Journal<D>,
    front: usize,
) -> Result<(), AttachError>
    requires { IsInFront setup.now M.spec M.refines journal.now.entries front node.old }
    ensures recovered { IsRecovery
        (λ done. IsBackAt setup.now M.spec M.refines node.old.state.me journal.now.entries node.new)
        setup.now M.spec node.old.state.me.0 journal.now result }
    ensures same { IsOf setup.now node.old.state.me node.new }
{
    let entries = journal.entries();
    for k in front..entries.len() {
        let Ok(taken) = replay_at(alloc, setup.n, node, entries, k) else {
            return Err(AttachError::NoMemory);
        };
        if !taken {
            return Err(damage_at(journal, k));
        }
    }
    Ok(())
}

// Rebuilds the node from the snapshots in front of the journal, and replays the events behind them. `Damaged` has the
// gate offset of the first entry that leads nowhere.
// rule: Persistence: A reopened node is that of its entries, with its next leaf
// rule: Persistence: An entry that is no event of its node is damage, at the offset of its gate
// rule: Persistence: No leaf is used by two entries, over all restarts
// rule: Signatures: A node signs at most one statement with each leaf
fn recover<M: Sequenced, D: Disk>(
    alloc: Global,
    setup: &Setup,
    directory: &SharedDirectory,
    me: NodeId,
    journal: &Journal<D>,
) -> Result<Node<M>, AttachError>
    requires member { IsMember M.spec setup.now directory.now me.0 }
    requires stay { retained journal.now.entries ≡ journal.now.entries }
    ensures { IsRecovery (IsBackAt setup.now M.spec M.refines me journal.now.entries)
        setup.now M.spec me.0 journal.now result }
{
    let Ok(front) = snapshots_in_front(alloc, journal.entries()) else {
        return Err(AttachError::NoMemory);
    };
    let mut node = rebuild::<M, D>(alloc, setup, directory, me, journal, front)?;
    match replay_behind(alloc, setup, &mut node, journal, front) {
        Ok(()) => Ok(node),
        Err(error) => {
            drop(node);
            Err(error)
        }
    }
}

/// Replaces a node.
pub(crate) fn put<M: Sequenced>(place: &mut Node<M>, node: Node<M>)
    ensures { place.new ≡ node }
{
    drop(mem::replace(place, node));
}

/// Attaches the journal and recovers the node from its entries. `Failed` if the disk failed, `Damaged` as `recover`
/// says, or if the file itself is damaged.
pub(crate) fn open<M: Sequenced, D: Disk>(
    alloc: Global,
    setup: &Setup,
    directory: &SharedDirectory,
    me: NodeId,
    journal: &mut Journal<D>,
) -> Result<Node<M>, AttachError>
    requires member { IsMember M.spec setup.now directory.now me.0 }
    ensures opened { IsOpening D.state setup.now M.spec M.refines me journal.old journal.new result }
    ensures loses { LosesNone version_1 (IsErrOf result AttachError.Failed) (D.state journal.old.disk)
        (D.state journal.new.disk) }
{
    match journal.attach() {
        Ok(()) => recover(alloc, setup, directory, me, journal),
        Err(error) => Err(error),
    }
}
