//! The set-up of the witness.
ghost use Rattle.std.specs.Prelude.{◌≡◌, IfOk};
ghost use Rattle.witness_echo.specs.Shown.{four};

use iss_request::{Kind, NoMemory, NodeId, Nodes, Policy, Setup};
use std::alloc::Global;

/// Four nodes, of which the last is faulty.
pub fn four_nodes(alloc: Global) -> Result<Setup, NoMemory>
    ensures { IfOk result (λ s. s ≡ four) }
{
    let mut faulty = Nodes::new(alloc);
    faulty.push(NodeId(3))?;
    Ok(Setup {
        version: 1,
        module: 6,
        f: 1,
        epoch: 4,
        buckets: 4,
        batch: 4,
        window: 8,
        policy: Policy::Simple,
        clients: 1,
        keys: 4,
        faulty,
        n: 4,
        quorum: 3,
        kind: Kind::Byzantine,
        tag: [67; 32],
    })
}
