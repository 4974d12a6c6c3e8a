//! View changes: ViewChanges, NewViews, timeouts.
ghost use Rattle.std.specs.Prelude.{◌≡◌, ◌≤◌, ◌<◌, ◌*◌, ◌+◌, ◌==◌, ◌&&◌, ℕ, List, length, not, is_some, IfOk, OnOk};
ghost use Rattle.iss_base.specs.Lists.{first_of};
ghost use Rattle.iss_keys.specs.KeyStates.{left_of};
ghost use Rattle.pbft_views.specs.Choice.{certificates_of};
ghost use Rattle.pbft_views.specs.Good.{all_good, primary};
ghost use Rattle.pbft_wire.specs.Signed.{NewView as New_view, ViewChange};
ghost use Rattle.sb_pbft.specs.Makes.{choice_strings, value_strings};
ghost use Rattle.sb_pbft.specs.Places.{proposal_at};
ghost use Rattle.sb_pbft.specs.Rules.{enters, is_newer, passes};
ghost use Rattle.sb_pbft.specs.Internal.Refines.{Does, HasHashed, Renews, chosen_among, held, is_due};

use crate::pbft::Pbft;
use crate::proposals::{Choices, Proposal, Proposals};
use crate::sending::{send_change, send_new_view};
use crate::settling::Touched;
use iss_keys::Keys;
use iss_request::{Bytes, NoMemory, NodeId, Seq, Slot};
use iss_sb::{Effects, Input, Params};
use pbft_views::{all_good, are_enough, choice, choice_string, primary};
use pbft_wire::{Certificate, Change, Message, digest_of, string_of};
use sb_context::Context;
use std::alloc::Global;

/// A replica's ViewChange.
pub fn change_of(from: NodeId, view: u16, certificates: Seq<Certificate>, sig: Bytes) -> Change
    ensures { result ≡ record { node = from; view = view; certificates = certificates; sig = sig } }
{
    Change {
        node: from,
        view,
        certificates,
        sig,
    }
}

// ---- hashed strings

// Appends the strings of these certificates' values to the hashed strings.
fn hash_values(
    alloc: Global,
    p: &Params,
    certificates: &[Certificate],
    effects: &mut Effects<Message>,
) -> Result<(), NoMemory>
    ensures { OnOk result (HasHashed (value_strings p.now certificates.now) effects.old effects.new) }
{
    let [first, others @ ..] = certificates else {
        return Ok(());
    };
    let string = string_of(alloc, p, &first.value)?;
    effects.hashed.push(string)?;
    hash_values(alloc, p, others, effects)
}

// Appends the strings of the values of all certificates in these ViewChanges.
fn hash_changes(
    alloc: Global,
    p: &Params,
    changes: &[Change],
    effects: &mut Effects<Message>,
) -> Result<(), NoMemory>
    ensures { OnOk result (HasHashed (value_strings p.now (certificates_of changes.now)) effects.old effects.new) }
{
    let [first, others @ ..] = changes else {
        return Ok(());
    };
    hash_values(alloc, p, first.certificates.as_slice(), effects)?;
    hash_changes(alloc, p, others, effects)?;
    Ok(())
}

// Appends the strings of the values that these ViewChanges choose, slot by slot.
fn hash_choices(
    alloc: Global,
    p: &Params,
    changes: &[Change],
    slots: &[Slot],
    effects: &mut Effects<Message>,
) -> Result<(), NoMemory>
    ensures { OnOk result (HasHashed (choice_strings p.now changes.now slots.now) effects.old effects.new) }
{
    let [slot, others @ ..] = slots else {
        return Ok(());
    };
    let string = choice_string(alloc, p, *slot, changes)?;
    effects.hashed.push(string)?;
    hash_choices(alloc, p, changes, others, effects)
}

// ---- what a new view proposes

/// A NewView with its sender.
#[derive(Drop)]
pub struct NewView {
    pub from: NodeId,
    pub view: u16,
    pub changes: Seq<Change>,
    pub signatures: Seq<Bytes>,
}

impl NewView {
    /// The NewView of these.
    pub fn of(from: NodeId, view: u16, changes: Seq<Change>, signatures: Seq<Bytes>) -> NewView
        ensures { result ≡ record { from = from; view = view; changes = changes; signatures = signatures } }
    {
        NewView {
            from,
            view,
            changes,
            signatures,
        }
    }
}

// Stores the new view's proposals: at each slot the value that its ViewChanges choose, with the signature of its
// PrePrepare.
fn put_choices(
    context: &Context<Pbft>,
    choices: &Choices,
    slots: &[Slot],
    signatures: &[Bytes],
    proposals: &mut Proposals,
) -> Result<(), NoMemory>
    requires { length signatures.now ≡ length slots.now }
    ensures { OnOk result ((w s : ℕ) → proposal_at proposals.new w s ≡ first_of
        (chosen_among context.now.p.now choices.now.view choices.now.changes.now slots.now signatures.now w s)
        (proposal_at proposals.old w s)) }
{
    let [slot, slots @ ..] = slots else {
        return Ok(());
    };
    let [sig, signatures @ ..] = signatures else {
        return Ok(());
    };
    put_choices(context, choices, slots, signatures, proposals)?;
    let value = choice(*slot, choices.changes)?;
    let digest = digest_of(context.alloc, context.p, &value);
    let sig = sig.copy()?;
    let proposal = Proposal { value, digest, sig };
    proposals.put(choices.view, *slot, proposal)
}

impl Pbft {
    // ---- ViewChanges, and the primary's NewView

    // Whether a ViewChange is stored: all its certificates are good and of lower views, and it is its sender's first
    // for this view.
    // rule: PBFT: A replica's first good ViewChange of a view is kept
    fn keeps(&self, context: &Context<Pbft>, change: &Change) -> bool
        ensures { result ≡ (all_good context.now.p.now change.now.view change.now.certificates &&
            not (is_some ((held self.now).change change.now.view change.now.node.0))) }
    {
        all_good(context.p, change.view, change.certificates.as_slice())
            && !self.changes.has(change.view, change.node)
    }

    // Whether the NewView is due: this replica is the view's primary, is not in a higher view, and has just reached
    // 2f+1 ViewChanges. `before` is their number before this step.
    fn is_due(&self, context: &Context<Pbft>, view: u16, before: u32) -> bool
        ensures { result ≡ is_due context.now.p.now self.now view before }
    {
        let enough = 2 * context.p.setup.f + 1;
        (self.me == primary(context.p, view) && self.view <= view)
            && (before < enough && self.changes.count(view, context.p.setup.n as u8) == enough)
    }

    // If the NewView is due, sends it with the stored ViewChanges and hashes the strings of what they choose.
    // rule: PBFT: The primary sends a NewView once, with the ViewChange that makes 2f+1
    fn renew(
        &self,
        context: &Context<Pbft>,
        view: u16,
        before: u32,
        keys: &mut Keys,
        effects: &mut Effects<Message>,
    ) -> Result<(), NoMemory>
        requires { length context.now.p.now.slots + 1 ≤ left_of keys.old }
        ensures { OnOk result
            (Renews context.now.p.now (is_due context.now.p.now self.now view before) self.now view keys.old keys.new
            effects.old effects.new) }
    {
        if !self.is_due(context, view, before) {
            return Ok(());
        }
        let changes = self
            .changes
            .all(context.alloc, view, context.p.setup.n as u8)?;
        hash_choices(
            context.alloc,
            context.p,
            changes.as_slice(),
            context.p.slots.as_slice(),
            effects,
        )?;
        send_new_view(context, view, changes, keys, &mut effects.sends)?;
        Ok(())
    }

    pub(crate) fn take_change(
        &mut self,
        context: &Context<Pbft>,
        change: Change,
        keys: &mut Keys,
    ) -> Result<Effects<Message>, NoMemory>
        requires { 2 * length context.now.p.now.slots + 1 ≤ left_of keys.old }
        ensures { IfOk result (λ e. Does context.now.p.now self.old self.new
            (Input.Receive change.node
            (ViewChange change.view change.certificates change.sig)) keys.old keys.new e) }
    {
        let view = change.view;
        let mut effects = Effects::nothing(context.alloc);
        if !self.keeps(context, &change) {
            return Ok(effects);
        }
        let before = self.changes.count(view, context.p.setup.n as u8);
        hash_values(
            context.alloc,
            context.p,
            change.certificates.as_slice(),
            &mut effects,
        )?;
        self.changes.keep(change)?;
        self.renew(context, view, before, keys, &mut effects)?;
        Ok(effects)
    }

    // ---- NewViews

    // Whether the view is above the current one, or is the current one and not active.
    fn is_newer(&self, view: u16) -> bool
        ensures { result ≡ is_newer (held self.now).mode view }
    {
        self.view < view || (self.view == view && !self.active)
    }

    // Whether this NewView starts its view: it is of the primary, has 2f+1 good ViewChanges, and a signature for each
    // slot.
    // rule: PBFT: A replica enters a view above its own, or its inactive own one, by the primary's NewView
    fn enters(
        &self,
        context: &Context<Pbft>,
        from: NodeId,
        view: u16,
        changes: &[Change],
        signatures: &[Bytes],
    ) -> bool
        ensures { result ≡ enters context.now.p.now (held self.now).mode from.0 view changes.now signatures.now }
    {
        self.is_newer(view)
            && (are_enough(context.p, view, changes)
                && (from == primary(context.p, view)
                    && (0 < view && signatures.len() == context.p.slots.len())))
    }

    // Whether this replica is a backup in the view.
    fn follows(&self, context: &Context<Pbft>, view: u16) -> bool
        ensures { result ≡ not (self.now.me.0 == primary context.now.p.now view) }
    {
        self.me != primary(context.p, view)
    }

    pub(crate) fn take_new_view(
        &mut self,
        context: &Context<Pbft>,
        new: NewView,
        keys: &mut Keys,
    ) -> Result<Effects<Message>, NoMemory>
        requires { 2 * length context.now.p.now.slots + 1 ≤ left_of keys.old }
        ensures { IfOk result (λ e. (sig : List ℕ) → Does context.now.p.now self.old self.new
            (Input.Receive new.from (New_view new.view new.changes new.signatures sig)) keys.old keys.new e) }
    {
        let mut effects = Effects::nothing(context.alloc);
        let view = new.view;
        let shown = new.changes.as_slice();
        let signed = new.signatures.as_slice();
        if !self.enters(context, new.from, view, shown, signed) {
            return Ok(effects);
        }
        let slots = context.p.slots.as_slice();
        hash_changes(context.alloc, context.p, shown, &mut effects)?;
        hash_choices(context.alloc, context.p, shown, slots, &mut effects)?;
        let choices = Choices {
            view,
            changes: shown,
        };
        put_choices(context, &choices, slots, signed, &mut self.proposals)?;
        self.view = view;
        self.active = true;
        let answers = self.follows(context, view);
        let touched = Touched { view, answers };
        self.settle(context, touched, slots, keys, &mut effects)?;
        Ok(effects)
    }

    // ---- timeouts

    // Whether there is a next view: the last one is 65,535.
    fn passes(&self) -> bool
        ensures { result ≡ passes (held self.now).mode }
    {
        self.view < u16::MAX
    }

    // rule: PBFT: A timeout leaves the view and sends each slot's certificate of the highest view
    pub(crate) fn time_out(
        &mut self,
        context: &Context<Pbft>,
        keys: &mut Keys,
    ) -> Result<Effects<Message>, NoMemory>
        requires { 2 * length context.now.p.now.slots + 1 ≤ left_of keys.old }
        ensures { IfOk result (λ e. Does context.now.p.now self.old self.new Input.Timeout keys.old keys.new e) }
    {
        let mut effects = Effects::nothing(context.alloc);
        if !self.passes() {
            return Ok(effects);
        }
        let view = self.view + 1;
        let certificates = self
            .tops
            .of_slots(context.alloc, context.p.slots.as_slice())?;
        send_change(context, view, certificates, keys, &mut effects.sends)?;
        self.view = view;
        self.active = false;
        Ok(effects)
    }
}
