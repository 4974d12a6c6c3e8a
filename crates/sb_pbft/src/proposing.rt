//! Proposals of view 0: batches that are cast to the leader, and the leader's PrePrepares.
ghost use Rattle.std.specs.Prelude.{◌≡◌, ◌≤◌, ◌*◌, ◌+◌, length, true, IfOk, OnOk};
ghost use Rattle.iss_keys.specs.KeyStates.{left_of};
ghost use Rattle.iss_sb.specs.Calls.{IsNothing};
ghost use Rattle.pbft_wire.specs.Signed.{PrePrepare};
ghost use Rattle.sb_pbft.specs.Internal.Refines.{Does, HasAccepted, held, is_free, may_cast, may_take};

use crate::pbft::Pbft;
use crate::proposals::Proposal;
use crate::sending::{send_pre_prepare, send_prepare};
use crate::settling::Touched;
use crate::tallies::Envelope;
use iss_keys::Keys;
use iss_request::{Batch, NoMemory, NodeId, Slot, Value};
use iss_sb::{Effects, Input, Params};
use pbft_views::has_slot;
use pbft_wire::{Mark, Message, string_of};
use sb_context::Context;

// Accepts a batch at a slot: the effects tell the batch and a hashed string. Returns the value that holds the batch,
// and the value's digest.
fn accept(
    context: &Context<Pbft>,
    slot: Slot,
    batch: Batch,
    effects: &mut Effects<Message>,
) -> Result<(Value, [u8; 32]), NoMemory>
    ensures { IfOk result (λ r. IsNothing effects.old →
        HasAccepted context.now.p.now slot batch r.0 r.1 effects.new) }
{
    effects.accepted = Some((slot, batch.copy()?));
    let value = Value::Batch(batch);
    let string = string_of(context.alloc, context.p, &value)?;
    let digest = context.p.directory.directory().digest(string.as_slice());
    effects.hashed.push(string)?;
    Ok((value, digest))
}

impl Pbft {
    // Whether a batch may be accepted at the slot: view 0 is active, and has no proposal at this slot of the segment.
    // rule: PBFT: A replica takes a batch for a slot once, in view 0 while that is active
    fn is_free(&self, p: &Params, slot: Slot) -> bool
        ensures { result ≡ is_free p.now (held self.now) slot.0 }
    {
        self.view == 0 && self.active && has_slot(p, slot) && self.proposals.get(0, slot).is_none()
    }

    /// Whether this replica may propose a batch at the slot: it is the leader, and the slot is free.
    pub(crate) fn may_cast(&self, p: &Params, slot: Slot) -> bool
        ensures { result ≡ may_cast p.now self.now slot.0 }
    {
        self.me == p.leader && self.is_free(p, slot)
    }

    /// Whether a backup accepts a PrePrepare: the leader's, of view 0, at a free slot.
    // rule: PBFT: The leader alone casts, and replicas take a batch from the leader alone
    pub(crate) fn may_take(&self, p: &Params, from: NodeId, view: u16, slot: Slot) -> bool
        ensures { result ≡ may_take p.now self.now from.0 view slot.0 }
    {
        self.me != p.leader && from == p.leader && view == 0 && self.is_free(p, slot)
    }

    // The leader proposes a batch: it accepts the batch and sends the PrePrepare of view 0 to all.
    // rule: Modules: A correct leader accepts one batch at a slot
    pub(crate) fn cast(
        &mut self,
        context: &Context<Pbft>,
        slot: Slot,
        batch: Batch,
        keys: &mut Keys,
    ) -> Result<Effects<Message>, NoMemory>
        requires { 2 * length context.now.p.now.slots + 1 ≤ left_of keys.old }
        ensures { IfOk result (λ e.
            Does context.now.p.now self.old self.new (Input.Cast slot batch) keys.old keys.new e) }
    {
        let mut effects = Effects::nothing(context.alloc);
        if !self.may_cast(context.p, slot) {
            return Ok(effects);
        }
        self.propose(context, slot, batch, keys, &mut effects)?;
        Ok(effects)
    }

    // What follows a cast at a slot where the leader may propose.
    fn propose(
        &mut self,
        context: &Context<Pbft>,
        slot: Slot,
        batch: Batch,
        keys: &mut Keys,
        effects: &mut Effects<Message>,
    ) -> Result<(), NoMemory>
        requires enough { 2 * length context.now.p.now.slots + 1 ≤ left_of keys.old }
        requires may { may_cast context.now.p.now self.old slot.0 ≡ true }
        ensures { OnOk result (IsNothing effects.old →
            Does context.now.p.now self.old self.new (Input.Cast slot batch) keys.old keys.new effects.new) }
    {
        let (value, digest) = accept(context, slot, batch, effects)?;
        let view = 0;
        let mark = Mark { slot, view, digest };
        let sig = send_pre_prepare(context, &mark, &value, keys, &mut effects.sends)?;
        let proposal = Proposal { value, digest, sig };
        self.proposals.put(view, slot, proposal)?;
        let answers = false;
        let touched = Touched { view, answers };
        self.settle_at(context, touched, slot, keys, effects)?;
        Ok(())
    }

    // A backup accepts the leader's PrePrepare and sends its Prepare to all.
    pub(crate) fn take_pre_prepare(
        &mut self,
        context: &Context<Pbft>,
        offer: Envelope,
        batch: Batch,
        keys: &mut Keys,
    ) -> Result<Effects<Message>, NoMemory>
        requires { 2 * length context.now.p.now.slots + 1 ≤ left_of keys.old }
        ensures { IfOk result (λ e. Does context.now.p.now self.old self.new (Input.Receive offer.from
            (PrePrepare offer.view offer.slot (Value.Batch batch) offer.sig)) keys.old keys.new e) }
    {
        let mut effects = Effects::nothing(context.alloc);
        if !self.may_take(context.p, offer.from, offer.view, offer.slot) {
            return Ok(effects);
        }
        self.follow(context, offer, batch, keys, &mut effects)?;
        Ok(effects)
    }

    // What follows a PrePrepare that a backup may take.
    fn follow(
        &mut self,
        context: &Context<Pbft>,
        offer: Envelope,
        batch: Batch,
        keys: &mut Keys,
        effects: &mut Effects<Message>,
    ) -> Result<(), NoMemory>
        requires enough { 2 * length context.now.p.now.slots + 1 ≤ left_of keys.old }
        requires may { may_take context.now.p.now self.old offer.from.0 offer.view offer.slot.0 ≡ true }
        ensures { OnOk result (IsNothing effects.old →
            Does context.now.p.now self.old self.new (Input.Receive offer.from
            (PrePrepare offer.view offer.slot (Value.Batch batch) offer.sig)) keys.old keys.new effects.new) }
    {
        let slot = offer.slot;
        let (value, digest) = accept(context, slot, batch, effects)?;
        let view = 0;
        let mark = Mark { slot, view, digest };
        send_prepare(context, &mark, keys, &mut effects.sends)?;
        let sig = offer.sig;
        let proposal = Proposal { value, digest, sig };
        self.proposals.put(view, slot, proposal)?;
        let answers = false;
        let touched = Touched { view, answers };
        self.settle_at(context, touched, slot, keys, effects)?;
        Ok(())
    }
}
