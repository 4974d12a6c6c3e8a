//! The messages that a replica signs and sends to all.
ghost use Rattle.std.specs.Prelude.{◌≡◌, ◌<◌, ◌≤◌, ℕ, ◌∷◌, ◌++◌, [], ◌+◌, length, IfOk, OnOk};
ghost use Rattle.iss_keys.specs.Directories.{AreKeysOf};
ghost use Rattle.iss_keys.specs.KeyStates.{left_of};
ghost use Rattle.iss_sb.specs.Statements.{signature};
ghost use Rattle.iss_sb.specs.declared.effects.To.TheVariants.{All as To_all};
ghost use Rattle.pbft_views.specs.Choice.{choice};
ghost use Rattle.pbft_wire.specs.Signed.{PrePrepare};
ghost use Rattle.pbft_wire.specs.Statements.{digest_of, state_at};
ghost use Rattle.sb_pbft.specs.Makes.{DraftCommit, DraftNewView, DraftPrepare, DraftViewChange, choice_sigs};
ghost use Rattle.sb_pbft.specs.Internal.Refines.{Sent};

use crate::pbft::Pbft;
use crate::proposals::Choices;
use iss_keys::Keys;
use iss_request::{Bytes, NoMemory, Seq, Slot, Value};
use iss_sb::{To, sign};
use pbft_views::choice_digest;
use pbft_wire::signing::{COMMIT, PRE_PREPARE, PREPARE};
use pbft_wire::{Body, Certificate, Change, Mark, Message, state_at, state_change, state_new};
use sb_context::Context;

/// Signs the statement of a PrePrepare, a Prepare or a Commit (`kind`) with the next one-time key.
pub fn sign_at(
    context: &Context<Pbft>,
    kind: u8,
    mark: &Mark,
    keys: &mut Keys,
) -> Result<Bytes, NoMemory>
    requires { 0 < left_of keys.old }
    ensures sig { IfOk result (λ s. (me : ℕ) → AreKeysOf me context.now.p.now.setup.keys keys.old →
        s ≡ signature context.now.p.now me keys.old.used
        (state_at context.now.p.now kind mark.now.view mark.now.slot.0 mark.now.digest)) }
    ensures used { OnOk result (keys.new ≡ record keys.old { used = keys.old.used + 1 }) }
    ensures left { OnOk result (left_of keys.new + 1 ≡ left_of keys.old) }
{
    let statement = state_at(context.alloc, context.p, kind, mark)?;
    sign(&statement, keys)
}

/// Signs the PrePrepare of this value and sends it to all. Returns the signature.
pub fn send_pre_prepare(
    context: &Context<Pbft>,
    mark: &Mark,
    value: &Value,
    keys: &mut Keys,
    sends: &mut Seq<(To, Message)>,
) -> Result<Bytes, NoMemory>
    requires { 0 < left_of keys.old }
    ensures sig { IfOk result (λ s. (me : ℕ) → AreKeysOf me context.now.p.now.setup.keys keys.old →
        s ≡ signature context.now.p.now me keys.old.used
        (state_at context.now.p.now 1 mark.now.view mark.now.slot.0 mark.now.digest)) }
    ensures used { OnOk result (keys.new ≡ record keys.old { used = keys.old.used + 1 }) }
    ensures left { OnOk result (left_of keys.new + 1 ≡ left_of keys.old) }
    ensures sent { IfOk result (λ s.
        sends.new ≡ sends.old ++ (To_all, PrePrepare mark.now.view mark.now.slot value.now s) ∷ []) }
{
    let sig = sign_at(context, PRE_PREPARE, mark, keys)?;
    let said = value.copy()?;
    let tag = sig.copy()?;
    let body = Body::PrePrepare {
        view: mark.view,
        slot: mark.slot,
        value: said,
    };
    sends.push((To::All, Message { body, sig: tag }))?;
    Ok(sig)
}

/// Signs a Prepare and sends it to all.
pub fn send_prepare(
    context: &Context<Pbft>,
    mark: &Mark,
    keys: &mut Keys,
    sends: &mut Seq<(To, Message)>,
) -> Result<(), NoMemory>
    requires { 0 < left_of keys.old }
    ensures sent { OnOk result (Sent context.now.p.now
        (DraftPrepare mark.now.view mark.now.slot mark.now.digest ∷ []) keys.old keys.new sends.old sends.new) }
    ensures left { OnOk result (left_of keys.new + 1 ≡ left_of keys.old) }
{
    let sig = sign_at(context, PREPARE, mark, keys)?;
    let body = Body::Prepare {
        view: mark.view,
        slot: mark.slot,
        digest: mark.digest,
    };
    sends.push((To::All, Message { body, sig }))?;
    Ok(())
}

/// Signs a Commit and sends it to all.
pub fn send_commit(
    context: &Context<Pbft>,
    mark: &Mark,
    keys: &mut Keys,
    sends: &mut Seq<(To, Message)>,
) -> Result<(), NoMemory>
    requires { 0 < left_of keys.old }
    ensures sent { OnOk result (Sent context.now.p.now
        (DraftCommit mark.now.view mark.now.slot mark.now.digest ∷ []) keys.old keys.new sends.old sends.new) }
    ensures left { OnOk result (left_of keys.new + 1 ≡ left_of keys.old) }
{
    let sig = sign_at(context, COMMIT, mark, keys)?;
    let body = Body::Commit {
        view: mark.view,
        slot: mark.slot,
        digest: mark.digest,
    };
    sends.push((To::All, Message { body, sig }))?;
    Ok(())
}

/// Signs a ViewChange with these prepared certificates and sends it to all.
pub fn send_change(
    context: &Context<Pbft>,
    view: u16,
    certificates: Seq<Certificate>,
    keys: &mut Keys,
    sends: &mut Seq<(To, Message)>,
) -> Result<(), NoMemory>
    requires few { length certificates ≤ 255 }
    requires enough { 0 < left_of keys.old }
    ensures { OnOk result
        (Sent context.now.p.now (DraftViewChange view certificates ∷ []) keys.old keys.new sends.old sends.new) }
{
    let statement = state_change(context.alloc, context.p, view, certificates.as_slice())?;
    let sig = sign(&statement, keys)?;
    let body = Body::ViewChange { view, certificates };
    sends.push((To::All, Message { body, sig }))?;
    Ok(())
}

// Signs the PrePrepare of the choice at the slot.
fn sign_choice(
    context: &Context<Pbft>,
    choices: &Choices,
    slot: Slot,
    keys: &mut Keys,
) -> Result<Bytes, NoMemory>
    requires { 0 < left_of keys.old }
    ensures sig { IfOk result (λ s. (me : ℕ) → AreKeysOf me context.now.p.now.setup.keys keys.old →
        let digest = digest_of context.now.p.now (choice choices.now.changes.now slot.0) in
        s ≡ signature context.now.p.now me keys.old.used
        (state_at context.now.p.now 1 choices.now.view slot.0 digest)) }
    ensures used { OnOk result (keys.new ≡ record keys.old { used = keys.old.used + 1 }) }
    ensures left { OnOk result (left_of keys.new + 1 ≡ left_of keys.old) }
{
    let view = choices.view;
    let digest = choice_digest(context.alloc, context.p, slot, choices.changes);
    let mark = Mark { slot, view, digest };
    sign_at(context, PRE_PREPARE, &mark, keys)
}

// Signs the new view's PrePrepares, slot by slot. Each signature takes the next one-time key.
fn sign_choices(
    context: &Context<Pbft>,
    choices: &Choices,
    slots: &[Slot],
    keys: &mut Keys,
    all: &mut Seq<Bytes>,
) -> Result<(), NoMemory>
    requires { length slots.now ≤ left_of keys.old }
    ensures sigs { OnOk result ((me : ℕ) → AreKeysOf me context.now.p.now.setup.keys keys.old → all.new ≡ all.old ++
        choice_sigs context.now.p.now me keys.old.used choices.now.view choices.now.changes.now slots.now) }
    ensures used { OnOk result (keys.new ≡ record keys.old { used = keys.old.used + length slots.now }) }
    ensures left { OnOk result (left_of keys.new + length slots.now ≡ left_of keys.old) }
{
    let [slot, others @ ..] = slots else {
        return Ok(());
    };
    let sig = sign_choice(context, choices, *slot, keys)?;
    all.push(sig)?;
    sign_choices(context, choices, others, keys, all)
}

/// Signs the NewView with these ViewChanges and its PrePrepares, and sends it to all.
// rule: PBFT: A new view's primary signs a PrePrepare of each slot's choice, and then its NewView
pub fn send_new_view(
    context: &Context<Pbft>,
    view: u16,
    changes: Seq<Change>,
    keys: &mut Keys,
    sends: &mut Seq<(To, Message)>,
) -> Result<(), NoMemory>
    requires { length context.now.p.now.slots + 1 ≤ left_of keys.old }
    ensures { OnOk result
        (Sent context.now.p.now (DraftNewView view changes ∷ []) keys.old keys.new sends.old sends.new) }
{
    let slots = context.p.slots.as_slice();
    let mut signatures = Seq::new(context.alloc);
    let choices = Choices {
        view,
        changes: changes.as_slice(),
    };
    sign_choices(context, &choices, slots, keys, &mut signatures)?;
    let statement = state_new(context.alloc, context.p, view)?;
    let sig = sign(&statement, keys)?;
    let body = Body::NewView {
        view,
        changes,
        signatures,
    };
    sends.push((To::All, Message { body, sig }))?;
    Ok(())
}
