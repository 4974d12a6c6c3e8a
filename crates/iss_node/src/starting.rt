//! Starting the instances of an epoch.
ghost use Rattle.std.specs.Prelude.{◌≡◌, ◌<◌, [], IfOk, IfSome, is_some, length, option_map};
ghost use Rattle.iss_layout.specs.Layout.{IsGoodPlan, leads};
ghost use Rattle.iss_node.specs.Internal.Epochs.{AreParamsAt, AreStarted, IsPlanOf, params_by};
ghost use Rattle.iss_node.specs.State.{IsMember};
ghost use Rattle.iss_sb.specs.Calls.{IsGoodParams};
ghost use Rattle.iss_segment.specs.Instance.{RefinesItems};

use iss_keys::SharedDirectory;
use iss_layout::Layout;
use iss_request::{Epoch, NoMemory, NodeId, Setup};
use iss_sb::{Params, Sequenced};
use iss_segment::Segment;
use std::alloc::Global;

/// One instance for each leader of the epoch, by node, and `None` for the other nodes. No instance has taken an input.
/// The only error is out of memory.
pub fn start_segments<M: Sequenced>(
    alloc: Global,
    setup: &Setup,
    directory: &SharedDirectory,
    epoch: Epoch,
    layout: &Layout,
    me: NodeId,
) -> Result<Vec<Option<Segment<M>>>, NoMemory>
    requires member { IsMember M.spec setup.now directory.now me.0 }
    requires plan { IsPlanOf setup.now.n layout.now }
    ensures started { IfOk result (λ segments. AreStarted M.refines setup.now me epoch.0 layout.now segments.items) }
    ensures count { IfOk result (λ segments. length segments.items ≡ setup.now.n) }
{
    let mut segments = Vec::new(alloc);
    for node in 0..setup.n {
        let leader = NodeId(node as u8);
        let params = params_of::<M>(alloc, setup, directory, epoch, layout, leader)?;
        let segment = start_with::<M>(alloc, params, me)?;
        segments.push(segment)?;
    }
    Ok(segments)
}

// The parameters of a node's instance, if it leads the epoch.
fn params_of<M: Sequenced>(
    alloc: Global,
    setup: &Setup,
    directory: &SharedDirectory,
    epoch: Epoch,
    layout: &Layout,
    leader: NodeId,
) -> Result<Option<Params>, NoMemory>
    requires member { IsMember M.spec setup.now directory.now leader.0 }
    requires plan { IsGoodPlan layout.now }
    ensures leads { IfOk result (λ o. is_some o ≡ leads layout.now leader.0) }
    ensures params { IfOk result (λ o. IfSome o (λ p. p ≡ params_by setup.now epoch.0 layout.now leader.0)) }
    ensures good { IfOk result (λ o. IfSome o (λ p. IsGoodParams M.spec p)) }
{
    if !layout.leads(leader) {
        return Ok(None);
    }
    Ok(Some(Params {
        setup: setup.copy()?,
        epoch,
        leader,
        slots: layout.slots_of(alloc, leader)?,
        directory: directory.share(),
    }))
}

// The instance with these parameters, if there are any.
fn start_with<M: Sequenced>(
    alloc: Global,
    params: Option<Params>,
    me: NodeId,
) -> Result<Option<Segment<M>>, NoMemory>
    requires { IfSome params (λ p. AreParamsAt M.spec p me.0) }
    ensures started { IfOk result (λ o. is_some o ≡ is_some params) }
    ensures refines { IfOk result (λ o. IfSome o (λ g. RefinesItems M.refines g [])) }
    ensures node { IfOk result (λ o. IfSome o (λ g. g.me ≡ me)) }
    ensures params { IfOk result (λ o. option_map (λ g. g.params) o ≡ params) }
{
    match params {
        Some(params) => Ok(Some(Segment::start(alloc, params, me)?)),
        None => Ok(None),
    }
}
