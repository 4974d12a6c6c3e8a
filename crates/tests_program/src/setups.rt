//! The set-up of the tests.
ghost use Rattle.std.specs.Prelude.{◌≡◌, IfOk};
ghost use Rattle.iss_request.specs.declared.setups.Kind.TheVariants.{Byzantine};
ghost use Rattle.iss_rules.specs.Setups.{IsSetupOf};
ghost use Rattle.sb_echo.specs.Echo.{echo};

use iss_request::{Kind, NoMemory, NodeId, Nodes, Policy, Setup};
use std::alloc::Global;

/// Four nodes with echo, of which node 0 may be Byzantine. Each epoch has a slot for each node. The bucket of a request
/// is the sum of its client and its number.
pub fn four_nodes(alloc: Global) -> Result<Setup, NoMemory>
    ensures good { IfOk result (λ s. IsSetupOf echo s) }
    ensures kind { IfOk result (λ s. s.kind ≡ Byzantine) }
    ensures nodes { IfOk result (λ s. s.n ≡ 4) }
{
    let mut faulty = Nodes::new(alloc);
    faulty.push(NodeId(0))?;
    Ok(Setup {
        version: 1,
        module: 6,
        f: 1,
        epoch: 4,
        buckets: 4,
        batch: 4,
        window: 8,
        policy: Policy::Simple,
        clients: 2,
        keys: 4,
        faulty,
        n: 4,
        quorum: 3,
        kind: Kind::Byzantine,
        tag: [7; 32],
    })
}
