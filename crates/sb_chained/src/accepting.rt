//! Which batch a replica accepts: that of a valid cast or proposal, unless it was accepted at the same slot before.
ghost use Rattle.std.specs.Prelude.{◌≡◌, List, Some, None, IfSome, if◌then◌else◌};
ghost use Rattle.iss_base.specs.Lists.{In};
ghost use Rattle.iss_request.specs.declared.ids.Slot.{Slot};
ghost use Rattle.iss_request.specs.declared.requests.Batch.{Batch};
ghost use Rattle.hs_views.specs.Accepted.{AreAccepted, at_slot, what_at};
ghost use Rattle.sb_chained.specs.Chained.{offered};
ghost use Rattle.sb_chained.specs.Rules.{State, may_cast};
ghost use Rattle.sb_chained.specs.Refines.{RefinesState};

use crate::state::Node;
use hs_tree::Certificate;
use hs_views::{Accepted, free_slot};
use iss_request::{Batch, NoMemory, Slot};
use iss_sb::{Content, Params};
use std::alloc::Global;

/// The slot of a cast, if the cast is valid now.
pub fn cast_slot(node: &Node, p: &Params, slot: Slot) -> Option<Slot>
    ensures cast { (s : State) (batch : Batch) → RefinesState p.now node.now s →
        at_slot batch result ≡ (if may_cast p.now node.now.me.0 s slot.0 then Some (slot, batch) else None) }
    ensures inside { IfSome result (λ s. In s p.now.slots) }
{
    if !node.may_cast(p, slot) {
        return None;
    }
    Some(slot)
}

/// The slot of a proposal's batch: the one after the branch of its justification. `None` if the proposal holds no
/// batch, no slot is left, or the batch was accepted there before.
// rule: HotStuff: A batch is accepted once at a slot
// rule: Chained HotStuff: A correct leader accepts one batch a slot
pub fn offered_slot(
    node: &Node,
    accepted: &Accepted,
    p: &Params,
    what: &Content,
    just: &Certificate,
) -> Option<Slot>
    ensures offered { (s : State) (old : List (Slot × Batch)) → RefinesState p.now node.now s →
        AreAccepted accepted.now old →
        what_at what.now result ≡ offered p.now s old what.now just.now }
    ensures inside { IfSome result (λ s. In s p.now.slots) }
{
    let Content::Holds(batch) = what else {
        return None;
    };
    let place = node.nodes.tree.slots(&just.digest());
    free_slot(accepted, p, place, batch)
}
