//! The nodes and clients of a cluster: its set-up, and the keys of each.
ghost use Rattle.std.specs.Prelude.{◌≡◌, ◌<◌, IfOk};
ghost use Rattle.iss_model.specs.Run.{cores_of, node_of};
ghost use Rattle.iss_request.specs.Setup.{IsGoodSetup};
ghost use Rattle.iss_rules.specs.Concrete.{keys_of};

use crate::cores::{cores_of, directory_of, node_of};
use iss_keys::{Directory, SharedDirectory};
use iss_request::{NoMemory, NodeId, Setup};
use std::alloc::Global;
use std::marker::Model;

/// A good set-up and its key directory. Contracts see the set-up, on which the keys depend.
#[derive(Drop)]
pub struct Members {
    setup: Setup,
    directory: SharedDirectory,
}

impl Model for Members {
    ghost use Rattle.std.specs.Prelude.{◌≡◌};
    ghost use Rattle.iss_request.specs.Setup.{IsGoodSetup};
    ghost use Rattle.iss_request.specs.declared.setups.Setup.{Setup as ModelSetup};
    ghost use Rattle.iss_rules.specs.Concrete.{keys_of};

    ghost Value = { ModelSetup };

    ghost view = { λ m. m.setup };

    ghost invariant = { λ m. IsGoodSetup m.setup × (m.directory ≡ keys_of m.setup) };
}

impl Members {
    /// The members of a cluster with this set-up. Key trees are computed when they are used. The only error is out of
    /// memory.
    pub fn of(alloc: Global, setup: &Setup) -> Result<Members, NoMemory>
        requires { IsGoodSetup setup.now }
        ensures { IfOk result (λ m. m ≡ setup.now) }
    {
        let directory = directory_of(alloc, setup)?;
        Ok(Members {
            setup: setup.copy()?,
            directory,
        })
    }

    /// The set-up.
    pub fn setup(&self) -> &Setup
        ensures { result.now ≡ self.now }
    {
        &self.setup
    }

    /// The keys of all nodes and clients, to be shared.
    pub fn shared(&self) -> &SharedDirectory
        ensures { result.now ≡ keys_of self.now }
    {
        &self.directory
    }

    /// The keys of all nodes and clients.
    pub fn directory(&self) -> &Directory
        ensures { result.now ≡ keys_of self.now }
    {
        self.directory.directory()
    }

    /// The number of cores.
    pub fn cores(&self) -> u32
        ensures { result ≡ cores_of self.now }
    {
        cores_of(&self.setup)
    }

    /// The node that a core runs.
    pub fn node_of(&self, core: u32) -> NodeId
        requires { core < cores_of self.now }
        ensures is { result.0 ≡ node_of self.now core }
        ensures below { result.0 < self.now.n }
    {
        node_of(&self.setup, core)
    }
}
