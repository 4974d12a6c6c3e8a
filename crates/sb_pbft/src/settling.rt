//! What follows at a slot that an input touched: a Prepare in a new view, a Commit for what is prepared, and the
//! delivery of what is committed.
ghost use Rattle.std.specs.Prelude.{◌≡◌, ◌≤◌, ◌*◌, ◌∷◌, [], length, is_some, true, IfOk, OnOk};
ghost use Rattle.iss_keys.specs.KeyStates.{left_of};
ghost use Rattle.sb_pbft.specs.Internal.Refines.{Answers, Commits, HandsOver, HasCertified, HasDelivered, Settles, held};
ghost use Rattle.sb_pbft.specs.Internal.Turns.{committed_at, newly_at, prepared_at, ready_at};

use crate::pbft::Pbft;
use crate::sending::{send_commit, send_prepare};
use iss_keys::Keys;
use iss_request::{NoMemory, Slot, Value};
use iss_sb::Effects;
use pbft_wire::{Certificate, Mark, Message};
use sb_context::Context;

/// The view in which an input touched slots, and whether the replica answers the proposals of this view with Prepares.
#[derive(Clone, Copy)]
pub struct Touched {
    pub view: u16,
    pub answers: bool,
}

impl Pbft {
    // PBFT's "prepared": the replica has a proposal of the view at the slot, and Prepares of 2f replicas for its
    // digest.
    fn is_prepared(&self, context: &Context<Pbft>, view: u16, slot: Slot) -> bool
        ensures { result ≡ is_some (prepared_at context.now.p.now (held self.now) view slot.0) }
    {
        match self.proposals.get(view, slot) {
            Some(proposal) => {
                self.prepares
                    .count(view, slot, &proposal.digest, context.p.setup.n as u8)
                    >= 2 * context.p.setup.f
            }
            None => false,
        }
    }

    // PBFT's "committed-local": prepared, and Commits of 2f+1 replicas for the digest.
    fn is_committed(&self, context: &Context<Pbft>, view: u16, slot: Slot) -> bool
        ensures { result ≡ is_some (committed_at context.now.p.now (held self.now) view slot.0) }
    {
        let Some(proposal) = self.proposals.get(view, slot) else {
            return false;
        };
        // Commits arrive last, so they are counted first: mostly they are what is missing.
        let nodes = context.p.setup.n as u8;
        let committed = self.commits.count(view, slot, &proposal.digest, nodes);
        committed >= 2 * context.p.setup.f + 1 && self.is_prepared(context, view, slot)
    }

    // Whether a Commit is due: the slot is prepared in the current view, which is active and has no certificate for
    // the slot yet.
    // rule: PBFT: A replica commits once a view and slot to what 2f distinct replicas prepared
    fn is_ready(&self, context: &Context<Pbft>, slot: Slot) -> bool
        ensures { result ≡ is_some (ready_at context.now.p.now (held self.now) slot.0) }
    {
        self.active
            && !self.tops.is_of(self.view, slot)
            && self.is_prepared(context, self.view, slot)
    }

    // Whether the slot is committed in the view and not delivered yet.
    // rule: PBFT: A slot is delivered once, when 2f+1 distinct replicas committed it in one view
    fn is_new(&self, context: &Context<Pbft>, view: u16, slot: Slot) -> bool
        ensures { result ≡ is_some (newly_at context.now.p.now (held self.now) view slot.0) }
    {
        !self.delivered.contains(&slot.0) && self.is_committed(context, view, slot)
    }

    // If a Commit is due, stores the prepared certificate, with the Prepares of the 2f lowest replicas, and returns
    // its digest.
    fn certify(&mut self, context: &Context<Pbft>, slot: Slot) -> Result<Option<[u8; 32]>, NoMemory>
        ensures { IfOk result (λ digest. HasCertified context.now.p.now self.old self.new slot digest) }
    {
        if !self.is_ready(context, slot) {
            return Ok(None);
        }
        let view = self.view;
        let Some(proposal) = self.proposals.get(view, slot) else {
            return Ok(None);
        };
        let digest = proposal.digest;
        let value = proposal.value.copy()?;
        let sig = proposal.sig.copy()?;
        let nodes = context.p.setup.n as u8;
        let most = 2 * context.p.setup.f;
        let prepares = self
            .prepares
            .votes(context.alloc, view, slot, &digest, nodes, most)?;
        self.tops.put(Certificate {
            slot,
            view,
            value,
            sig,
            prepares,
        })?;
        Ok(Some(digest))
    }

    // If the slot is committed in the view and not delivered yet, marks it as delivered and returns its value.
    fn deliver(
        &mut self,
        context: &Context<Pbft>,
        view: u16,
        slot: Slot,
    ) -> Result<Option<Value>, NoMemory>
        ensures { IfOk result (λ value. HasDelivered context.now.p.now self.old self.new view slot.0 value) }
    {
        if !self.is_new(context, view, slot) {
            return Ok(None);
        }
        let Some(proposal) = self.proposals.get(view, slot) else {
            return Ok(None);
        };
        let value = proposal.value.copy()?;
        self.delivered.insert(slot.0)?;
        Ok(Some(value))
    }

    // If the replica answers (a backup that entered this view by a NewView), sends a Prepare for the proposal of the
    // view at the slot.
    fn prepare_if_asked(
        &self,
        context: &Context<Pbft>,
        touched: Touched,
        slot: Slot,
        keys: &mut Keys,
        effects: &mut Effects<Message>,
    ) -> Result<(), NoMemory>
        requires { 2 ≤ left_of keys.old }
        ensures { OnOk result (Answers context.now.p.now touched.answers touched.view slot self.now keys.old keys.new
            effects.old effects.new) }
    {
        if !touched.answers {
            return Ok(());
        }
        let view = touched.view;
        let Some(proposal) = self.proposals.get(view, slot) else {
            return Ok(());
        };
        let digest = proposal.digest;
        let mark = Mark { slot, view, digest };
        send_prepare(context, &mark, keys, &mut effects.sends)?;
        Ok(())
    }

    // If a Commit is due at the slot, stores the prepared certificate and sends the Commit.
    fn commit(
        &mut self,
        context: &Context<Pbft>,
        slot: Slot,
        keys: &mut Keys,
        effects: &mut Effects<Message>,
    ) -> Result<(), NoMemory>
        requires { 1 ≤ left_of keys.old }
        ensures { OnOk result
            (Commits context.now.p.now slot self.old self.new keys.old keys.new effects.old effects.new) }
    {
        let Some(digest) = self.certify(context, slot)? else {
            return Ok(());
        };
        let view = self.view;
        let mark = Mark { slot, view, digest };
        send_commit(context, &mark, keys, &mut effects.sends)?;
        Ok(())
    }

    // Delivers the value that is committed in the view at the slot, unless the slot was delivered before.
    // rule: Modules: A step delivers exactly what the module's definition delivers
    fn deliver_committed(
        &mut self,
        context: &Context<Pbft>,
        view: u16,
        slot: Slot,
        effects: &mut Effects<Message>,
    ) -> Result<(), NoMemory>
        ensures { OnOk result (HandsOver context.now.p.now view slot self.old self.new effects.old effects.new) }
    {
        let Some(value) = self.deliver(context, view, slot)? else {
            return Ok(());
        };
        effects.delivers.push((slot, value))?;
        Ok(())
    }

    // Settles one slot that an input touched: Prepare (if the replica answers), Commit, delivery.
    pub(crate) fn settle_at(
        &mut self,
        context: &Context<Pbft>,
        touched: Touched,
        slot: Slot,
        keys: &mut Keys,
        effects: &mut Effects<Message>,
    ) -> Result<(), NoMemory>
        requires { 2 ≤ left_of keys.old }
        ensures { OnOk result
            (Settles context.now.p.now touched.answers touched.view (slot ∷ []) self.old self.new keys.old keys.new
            effects.old effects.new) }
    {
        self.prepare_if_asked(context, touched, slot, keys, effects)?;
        self.commit(context, slot, keys, effects)?;
        self.deliver_committed(context, touched.view, slot, effects)?;
        Ok(())
    }

    // Settles each of these slots, in order.
    pub(crate) fn settle(
        &mut self,
        context: &Context<Pbft>,
        touched: Touched,
        slots: &[Slot],
        keys: &mut Keys,
        effects: &mut Effects<Message>,
    ) -> Result<(), NoMemory>
        requires { 2 * length slots.now ≤ left_of keys.old }
        ensures { OnOk result
            (Settles context.now.p.now touched.answers touched.view slots.now self.old self.new keys.old keys.new
            effects.old effects.new) }
    {
        for slot in slots {
            self.settle_at(context, touched, *slot, keys, effects)?;
        }
        Ok(())
    }
}
