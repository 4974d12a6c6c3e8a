//! A node from the snapshots of its journal.
ghost use Rattle.std.specs.Prelude.{◌≡◌, ◌<◌, ℕ, [], IfOk, IfSome, IsErrOf, None, Some, length, reverse, slice_index_or};
ghost use Rattle.iss_model.specs.Frames.{frame_of};
ghost use Rattle.iss_model.specs.Node.{initial_core};
ghost use Rattle.iss_node.specs.Rebuilding.{IsFirstBad, IsOf, IsReadOn, RefinesRebuilt};
ghost use Rattle.iss_node.specs.State.{IsMember};
ghost use Rattle.iss_rebuilt.specs.Reading.{Rebuilt, reads_entry, rebuilt, woken_of};
ghost use Rattle.iss_rebuilt.specs.Stored.{nothing_saved};

use crate::answers::{Early, Outcome};
use crate::node::Node;
use crate::state::NodeState;
use iss_keys::SharedDirectory;
use iss_request::{Bytes, NoMemory, NodeId, Setup};
use iss_sb::Sequenced;
use std::alloc::Global;
use std::marker::Model;

/// Why a node is not rebuilt. `BadEntry` is the first entry that is no snapshot, does not continue those before it, or
/// has a part that the node would drop.
#[derive(Clone, Copy, Debug, PartialEq, Eq)]
pub enum RebuildError {
    BadEntry { index: usize },
    NoMemory,
}

/// A node that reads its snapshots, one after the other.
#[derive(Drop)]
pub struct Rebuilding<M: Sequenced> {
    alloc: Global,
    state: NodeState<M>,
    // The early messages of the last snapshot.
    early: Vec<Early<M::Msg>>,
}

impl<M: Sequenced> Model for Rebuilding<M> {
    ghost use Rattle.std.specs.Prelude.{◌≡◌};
    ghost use Rattle.iss_node.specs.Rebuilding.{RebuildingView, RefinesRebuilt};
    ghost use Rattle.iss_rebuilt.specs.Reading.{Rebuilt};

    ghost Value = { RebuildingView M M.Msg };

    ghost view = { λ v. record { state = v.state; early = v.early.items } };

    ghost invariant = { λ v. (r : Rebuilt M.Msg) ×
        RefinesRebuilt M.spec M.refines (record { state = v.state; early = v.early.items }) r };
}

impl<M: Sequenced> Rebuilding<M> {
    /// A node that took no event, with unused keys. The only error is out of memory.
    pub fn start(
        alloc: Global,
        setup: &Setup,
        directory: &SharedDirectory,
        me: NodeId,
    ) -> Result<Rebuilding<M>, NoMemory>
        requires { IsMember M.spec setup.now directory.now me.0 }
        ensures refines { IfOk result
            (λ v. RefinesRebuilt M.spec M.refines v (record { core = initial_core; saved = nothing_saved })) }
        ensures same { IfOk result (λ v. (v.state.setup ≡ setup.now) × (v.state.me ≡ me)) }
    {
        let keys = directory.directory().keys_of_node(alloc, me.0);
        let node = Node::start(alloc, setup, directory, me, keys)?;
        Ok(Rebuilding {
            alloc,
            state: node.into_state(),
            early: Vec::new(alloc),
        })
    }

    /// Continues with a snapshot. `None` if the bytes are no snapshot, do not continue those before, or have a part
    /// that the node would drop. The only error is out of memory.
    // rule: Persistence: A snapshot that does not continue those before it, or has a part to be dropped, is damage
    pub fn read(self, bytes: &[u8]) -> Result<Option<Rebuilding<M>>, NoMemory>
        ensures read { IfOk result (λ next. (r : Rebuilt M.Msg) → RefinesRebuilt M.spec M.refines self r →
            IsReadOn M.spec M.refines
            (reads_entry (frame_of self.state.setup M.spec) self.state.me.0 (Some r) bytes.now) next) }
        ensures same { IfOk result (λ next. IfSome next
            (λ v. (v.state.setup ≡ self.state.setup) × (v.state.me ≡ self.state.me))) }
    {
        let Rebuilding {
            alloc,
            mut state,
            early: before,
        } = self;
        drop(before);
        match state.read_entry(alloc, bytes) {
            Ok(Some(early)) => Ok(Some(Rebuilding {
                alloc,
                state,
                early,
            })),
            Ok(None) => {
                drop(state);
                Ok(None)
            }
            Err(error) => {
                drop(state);
                Err(error)
            }
        }
    }

    /// The node, with the early messages of the last snapshot taken. The only error is out of memory.
    // rule: Persistence: The early messages of the last snapshot are taken next
    pub fn finish(self) -> Result<Node<M>, NoMemory>
        ensures woken { IfOk result (λ node. (r : Rebuilt M.Msg) → RefinesRebuilt M.spec M.refines self r →
            IsOf M.spec M.refines (woken_of (frame_of self.state.setup M.spec) self.state.me.0 (Some r)) node) }
        ensures same { IfOk result
            (λ node. (node.state.setup ≡ self.state.setup) × (node.state.me ≡ self.state.me)) }
    {
        let Rebuilding {
            alloc,
            mut state,
            early,
        } = self;
        match state.take_each(alloc, Outcome::nothing(alloc), early) {
            Ok(outcome) => {
                drop(outcome);
                Ok(Node::of(state))
            }
            Err(error) => {
                drop(state);
                Err(error)
            }
        }
    }
}

impl<M: Sequenced> Node<M> {
    /// The node that these snapshots lead to, oldest first, with the early messages of the last taken. Without any, a
    /// node that took no event, with unused keys.
    // rule: Persistence: A node is rebuilt from its snapshots, in order
    pub fn rebuild(
        alloc: Global,
        setup: &Setup,
        directory: &SharedDirectory,
        me: NodeId,
        entries: &[Bytes],
    ) -> Result<Node<M>, RebuildError>
        requires { IsMember M.spec setup.now directory.now me.0 }
        ensures rebuilt { IfOk result (IsOf M.spec M.refines
            (woken_of (frame_of setup.now M.spec) me.0
            (rebuilt (frame_of setup.now M.spec) me.0 (reverse entries.now)))) }
        ensures same { IfOk result (λ node. (node.state.setup ≡ setup.now) × (node.state.me ≡ me)) }
        ensures bad { (index : ℕ) → IsErrOf result (RebuildError.BadEntry index) →
            IsFirstBad (frame_of setup.now M.spec) me.0 entries.now index }
    {
        let Ok(fresh) = Rebuilding::start(alloc, setup, directory, me) else {
            return Err(RebuildError::NoMemory);
        };
        let mut rebuilding = fresh;
        for index in 0..entries.len() {
            rebuilding = read_at(rebuilding, entries, index)?;
        }
        match rebuilding.finish() {
            Ok(node) => Ok(node),
            Err(_) => Err(RebuildError::NoMemory),
        }
    }
}

// Continues with the entry at this index.
fn read_at<M: Sequenced>(
    rebuilding: Rebuilding<M>,
    entries: &[Bytes],
    index: usize,
) -> Result<Rebuilding<M>, RebuildError>
    requires { index < length entries.now }
    ensures next { IfOk result (λ next. (r : Rebuilt M.Msg) → RefinesRebuilt M.spec M.refines rebuilding r →
        IsReadOn M.spec M.refines (reads_entry (frame_of rebuilding.state.setup M.spec) rebuilding.state.me.0 (Some r)
        (slice_index_or entries.now index [])) (Some next)) }
    ensures same { IfOk result (λ next. (next.state.setup ≡ rebuilding.state.setup)
        × (next.state.me ≡ rebuilding.state.me)) }
    ensures bad { (at : ℕ) → IsErrOf result (RebuildError.BadEntry at) → (at ≡ index)
        × ((r : Rebuilt M.Msg) → RefinesRebuilt M.spec M.refines rebuilding r →
        reads_entry (frame_of rebuilding.state.setup M.spec) rebuilding.state.me.0 (Some r)
        (slice_index_or entries.now index []) ≡ None) }
{
    match rebuilding.read(entries[index].as_slice()) {
        Ok(Some(next)) => Ok(next),
        Ok(None) => Err(RebuildError::BadEntry { index }),
        Err(_) => Err(RebuildError::NoMemory),
    }
}
