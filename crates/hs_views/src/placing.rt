//! Where a batch is accepted: at a slot where it was not accepted before.
ghost use Rattle.std.specs.Prelude.{◌≡◌, List, IfOk, IfSome, OnOk};
ghost use Rattle.iss_base.specs.Lists.{In, nth};
ghost use Rattle.iss_request.specs.declared.ids.Slot.{Slot};
ghost use Rattle.iss_request.specs.declared.requests.Batch.{Batch};
ghost use Rattle.iss_sb.specs.Evidence.{one_or_none};
ghost use Rattle.hs_views.specs.Accepted.{Adds, AreAccepted, at_slot, what_at};
ghost use Rattle.hs_views.specs.Batches.{unless_accepted};

use crate::accepted::Accepted;
use iss_request::{Batch, NoMemory, Slot};
use iss_sb::{Content, Params};
use std::alloc::Global;

/// The slot at this index of the segment, unless the batch was accepted there.
// rule: HotStuff: A batch is accepted once at a slot
pub fn free_slot(accepted: &Accepted, p: &Params, place: usize, batch: &Batch) -> Option<Slot>
    ensures free { (old : List (Slot × Batch)) → AreAccepted accepted.now old →
        at_slot batch.now result ≡ unless_accepted old batch.now (nth p.now.slots place) }
    ensures inside { IfSome result (λ s. In s p.now.slots) }
{
    let Some(slot) = p.slots.as_slice().get(place) else {
        return None;
    };
    if accepted.has(*slot, batch) {
        return None;
    }
    Some(*slot)
}

/// Records the batch as accepted at the slot, if there is one. Returns both. The only error is out of memory.
pub fn keep_at(
    accepted: &mut Accepted,
    alloc: Global,
    slot: Option<Slot>,
    batch: &Batch,
) -> Result<Option<(Slot, Batch)>, NoMemory>
    ensures is { IfOk result (λ a. a ≡ at_slot batch.now slot) }
    ensures kept { OnOk result (Adds accepted.old accepted.new (one_or_none (at_slot batch.now slot))) }
{
    let Some(slot) = slot else {
        return Ok(None);
    };
    let given = batch.copy()?;
    let kept = batch.copy()?;
    accepted.keep(alloc, slot, kept)?;
    Ok(Some((slot, given)))
}

/// Records the proposed batch as accepted at the slot, if there are both. Returns both. The only error is out of
/// memory.
pub fn keep_what(
    accepted: &mut Accepted,
    alloc: Global,
    slot: Option<Slot>,
    what: &Content,
) -> Result<Option<(Slot, Batch)>, NoMemory>
    ensures is { IfOk result (λ a. a ≡ what_at what.now slot) }
    ensures kept { OnOk result (Adds accepted.old accepted.new (one_or_none (what_at what.now slot))) }
{
    match what {
        Content::Holds(batch) => keep_at(accepted, alloc, slot, batch),
        _ => Ok(None),
    }
}
