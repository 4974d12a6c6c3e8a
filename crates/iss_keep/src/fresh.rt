//! A replica before it has a journal.
ghost use Rattle.std.specs.Prelude.{◌≡◌, ◌<◌, IfOk};
ghost use Rattle.iss_node.specs.State.{IsMember};

use crate::reopening::start_fresh;
use iss_keys::SharedDirectory;
use iss_node::Node;
use iss_request::{NoMemory, NodeId, Setup};
use iss_sb::Sequenced;
use std::alloc::Global;
use std::marker::Model;

/// A replica that has taken no event, and has no journal yet.
#[derive(Drop)]
pub struct Fresh<M: Sequenced> {
    pub(crate) alloc: Global,
    pub(crate) setup: Setup,
    pub(crate) directory: SharedDirectory,
    pub(crate) me: NodeId,
    pub(crate) node: Node<M>,
}

impl<M: Sequenced> Model for Fresh<M> {
    ghost use Rattle.iss_keep.specs.State.{FreshState, IsFresh};

    ghost Value = { FreshState M M.Msg };

    ghost view = { λ v. record { setup = v.setup; me = v.me; node = v.node } };

    ghost invariant = { λ v. IsFresh M.spec M.refines v.directory
        (record { setup = v.setup; me = v.me; node = v.node }) };
}

impl<M: Sequenced> Fresh<M> {
    /// Node `me` of a cluster. The only error is out of memory.
    pub fn start(
        alloc: Global,
        setup: &Setup,
        directory: &SharedDirectory,
        me: NodeId,
    ) -> Result<Fresh<M>, NoMemory>
        requires { IsMember M.spec setup.now directory.now me.0 }
        ensures { IfOk result (λ v. (v.setup ≡ setup.now) × (v.me ≡ me)) }
    {
        let node = start_fresh(alloc, setup, directory, me)?;
        let setup = setup.copy()?;
        Ok(Fresh {
            alloc,
            setup,
            directory: directory.share(),
            me,
            node,
        })
    }

    /// The set-up of its cluster.
    pub fn setup(&self) -> &Setup
        ensures { result.now ≡ self.now.setup }
    {
        &self.setup
    }

    /// Which node it is.
    pub fn me(&self) -> NodeId
        ensures same { result ≡ self.now.me }
        ensures member { result.0 < self.now.setup.n }
    {
        self.me
    }
}
