//! The set-up that a configuration gives.
ghost use Rattle.std.specs.Prelude.{◌≡◌, IfOk};
ghost use Rattle.iss_schedule.specs.Schedules.{IsKnown, cluster_tag};
ghost use Rattle.iss_config.specs.Configs.{IsInRange, setup_of, untagged};

use crate::configs::Config;
use crate::modules::{kind_of, nodes_of, quorum_of};
use iss_request::versions::FIRST;
use iss_request::{NoMemory, Nodes, Setup};
use iss_schedule::put_header;
use sha2::{Digest, Sha256};
use std::alloc::Global;

impl Config {
    /// The set-up of the cluster: the values of the configuration, and no faulty node. Its tag is that of the header
    /// of a schedule with these values. The only error is out of memory.
    // rule: Loopback: A configuration's set-up has its values, no faulty node, and the tag of its own header
    pub fn setup(&self, alloc: Global) -> Result<Setup, NoMemory>
        requires { IsInRange self.now }
        ensures value { IfOk result (λ s. s ≡ setup_of self.now) }
        ensures known { IfOk result IsKnown }
    {
        let mut setup = untagged(alloc, self);
        setup.tag = tag_of(alloc, &setup)?;
        Ok(setup)
    }
}

// The set-up with a tag of zeros.
fn untagged(alloc: Global, config: &Config) -> Setup
    requires { IsInRange config.now }
    ensures { result ≡ record (untagged config.now) { tag = result.tag } }
{
    Setup {
        version: FIRST,
        module: config.module,
        f: config.f,
        epoch: config.epoch,
        buckets: config.buckets,
        batch: config.batch,
        window: config.window,
        policy: config.policy,
        clients: config.clients,
        keys: config.keys,
        faulty: Nodes::new(alloc),
        n: nodes_of(config.module, config.f),
        quorum: quorum_of(config.module, config.f),
        kind: kind_of(config.module),
        tag: [0u8; 32],
    }
}

// The tag of the cluster with the header of this set-up.
// rule: Schedules: The cluster's tag is the digest of the header's lines
fn tag_of(alloc: Global, setup: &Setup) -> Result<[u8; 32], NoMemory>
    ensures { IfOk result (λ tag. tag ≡ cluster_tag setup.now) }
{
    let mut header = Vec::new(alloc);
    put_header(&mut header, setup)?;
    let mut hasher = Sha256::new();
    hasher.update([0x43u8]);
    hasher.update(&header);
    Ok(hasher.finalize())
}
