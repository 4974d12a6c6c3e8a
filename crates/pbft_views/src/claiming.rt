//! The claims of a message: the statements that it says replicas have signed.
ghost use Rattle.std.specs.Prelude.{◌≡◌, ◌++◌, ◌∷◌, [], List, map, IfOk, OnOk};
ghost use Rattle.iss_request.specs.Setup.{IsGoodSetup};
ghost use Rattle.pbft_wire.specs.Marks.{mark_of};
ghost use Rattle.pbft_wire.specs.Statements.{digest_of, state_at, state_change, stated};
ghost use Rattle.iss_sb.specs.declared.effects.Claim.{Claim};
ghost use Rattle.pbft_wire.specs.declared.messages.Body.TheVariants.{NewView};
ghost use Rattle.pbft_views.specs.Choice.{choice};
ghost use Rattle.iss_sb.specs.Statements.{claim};
ghost use Rattle.pbft_views.specs.Claims.{certificate_claims, certificates_claims, change_claims, changes_claims, chosen_claims, claimed_inside, claims, vote_claims};

use crate::choosing::choice_digest;
use crate::goodness::Turns;
use iss_request::{Bytes, NoMemory, NodeId, Seq, Slot};
use iss_sb::{Claim, Params, Signed};
use pbft_wire::signing::{COMMIT, PRE_PREPARE, PREPARE};
use pbft_wire::{
    Body, Certificate, Change, Mark, Message, digest_of, mark_of, state_at, state_marked, state_new,
};
use std::alloc::Global;

// ---- claims that are appended to `all`

fn put_claim(
    by: NodeId,
    statement: Bytes,
    sig: &Bytes,
    all: &mut Seq<Claim>,
) -> Result<(), NoMemory>
    ensures { OnOk result (all.new ≡ all.old ++ claim by.0 statement sig.now ∷ []) }
{
    let sig = sig.copy()?;
    all.push(Claim { by, statement, sig })
}

// The claims of Prepares for the marked value. All have one statement.
fn put_vote_claims(
    p: &Params,
    mark: &Mark,
    statement: &Bytes,
    votes: &[Signed],
    all: &mut Seq<Claim>,
) -> Result<(), NoMemory>
    requires { statement.now ≡ state_at p.now 2 mark.now.view mark.now.slot.0 mark.now.digest }
    ensures { OnOk result
        (all.new ≡ all.old ++ vote_claims p.now mark.now.view mark.now.slot.0 mark.now.digest votes.now) }
{
    match votes {
        [] => Ok(()),
        [first, others @ ..] => {
            let again = statement.copy()?;
            put_claim(first.by, again, &first.sig, all)?;
            put_vote_claims(p, mark, statement, others, all)
        }
    }
}

fn put_certificate_claims(
    alloc: Global,
    turns: &Turns,
    mark: &Mark,
    c: &Certificate,
    all: &mut Seq<Claim>,
) -> Result<(), NoMemory>
    requires marked { mark.now ≡ mark_of turns.now.p.now c.now }
    ensures { OnOk result (all.new ≡ all.old ++ certificate_claims turns.now.p.now c.now) }
{
    let p = turns.p;
    let statement = state_at(alloc, p, PRE_PREPARE, mark)?;
    put_claim(turns.primary(mark.view), statement, &c.sig, all)?;
    let prepared = state_at(alloc, p, PREPARE, mark)?;
    put_vote_claims(p, mark, &prepared, c.prepares.as_slice(), all)
}

// Appends the claims of the certificates to `all`, and their marks to `marks`.
fn put_certificates_claims(
    alloc: Global,
    turns: &Turns,
    certificates: &[Certificate],
    marks: &mut Seq<Mark>,
    all: &mut Seq<Claim>,
) -> Result<(), NoMemory>
    ensures marked { OnOk result (marks.new ≡ marks.old ++ map (mark_of turns.now.p.now) certificates.now) }
    ensures claimed { OnOk result (all.new ≡ all.old ++ certificates_claims turns.now.p.now certificates.now) }
{
    match certificates {
        [] => Ok(()),
        [first, others @ ..] => {
            let mark = mark_of(alloc, turns.p, first);
            put_certificate_claims(alloc, turns, &mark, first, all)?;
            marks.push(mark)?;
            put_certificates_claims(alloc, turns, others, marks, all)
        }
    }
}

// Appends the claims of a ViewChange's certificates, and returns its statement. With more than 255 certificates it has
// none: the answer is `NoMemory`.
fn change_statement(
    alloc: Global,
    turns: &Turns,
    view: u16,
    certificates: &[Certificate],
    all: &mut Seq<Claim>,
) -> Result<Bytes, NoMemory>
    ensures statement { IfOk result (λ s. s ≡ state_change turns.now.p.now view certificates.now) }
    ensures claimed { OnOk result (all.new ≡ all.old ++ certificates_claims turns.now.p.now certificates.now) }
{
    let mut marks = Seq::new(alloc);
    put_certificates_claims(alloc, turns, certificates, &mut marks, all)?;
    if marks.len() > 255 {
        return Err(NoMemory);
    }
    state_marked(alloc, turns.p, view, marks.as_slice())
}

fn put_change_claims(
    alloc: Global,
    turns: &Turns,
    change: &Change,
    all: &mut Seq<Claim>,
) -> Result<(), NoMemory>
    ensures { OnOk result (all.new ≡ all.old ++
        change_claims turns.now.p.now change.now.node.0 change.now.view change.now.certificates change.now.sig) }
{
    let statement = change_statement(
        alloc,
        turns,
        change.view,
        change.certificates.as_slice(),
        all,
    )?;
    put_claim(change.node, statement, &change.sig, all)
}

fn put_changes_claims(
    alloc: Global,
    turns: &Turns,
    changes: &[Change],
    all: &mut Seq<Claim>,
) -> Result<(), NoMemory>
    ensures { OnOk result (all.new ≡ all.old ++ changes_claims turns.now.p.now changes.now) }
{
    match changes {
        [] => Ok(()),
        [change, others @ ..] => {
            put_change_claims(alloc, turns, change, all)?;
            put_changes_claims(alloc, turns, others, all)
        }
    }
}

// The PrePrepares of a NewView in an instance: their primary, their view, and the ViewChanges that choose their values.
#[derive(Drop)]
struct NewProposals<'a> {
    turns: &'a Turns<'a>,
    by: NodeId,
    view: u16,
    changes: &'a [Change],
}

// The claim of a new primary's PrePrepare, which is for the choice at the slot.
fn put_chosen_claim(
    alloc: Global,
    new: &NewProposals,
    slot: Slot,
    sig: &Bytes,
    all: &mut Seq<Claim>,
) -> Result<(), NoMemory>
    ensures { OnOk result (let p = new.now.turns.now.p.now in all.new ≡ all.old ++ claim new.now.by.0
        (state_at p 1 new.now.view slot.0 (digest_of p (choice new.now.changes.now slot.0))) sig.now ∷ []) }
{
    let p = new.turns.p;
    let digest = choice_digest(alloc, p, slot, new.changes);
    let view = new.view;
    let mark = Mark { slot, view, digest };
    let statement = state_at(alloc, p, PRE_PREPARE, &mark)?;
    put_claim(new.by, statement, sig, all)
}

fn put_chosen_claims(
    alloc: Global,
    new: &NewProposals,
    slots: &[Slot],
    signatures: &[Bytes],
    all: &mut Seq<Claim>,
) -> Result<(), NoMemory>
    ensures { OnOk result (all.new ≡ all.old ++
        chosen_claims new.now.turns.now.p.now new.now.by.0 new.now.view new.now.changes.now slots.now signatures.now) }
{
    let [slot, slots @ ..] = slots else {
        return Ok(());
    };
    let [sig, signatures @ ..] = signatures else {
        return Ok(());
    };
    put_chosen_claim(alloc, new, *slot, sig, all)?;
    put_chosen_claims(alloc, new, slots, signatures, all)
}

// ---- the claims of a message

fn mark(view: u16, slot: Slot, digest: [u8; 32]) -> Mark
    ensures { result ≡ record { slot = slot; view = view; digest = digest } }
{
    Mark { slot, view, digest }
}

// Appends the claims of the ViewChanges and the PrePrepares in a NewView.
fn put_new_view_claims(
    alloc: Global,
    new: &NewProposals,
    signatures: &[Bytes],
    all: &mut Seq<Claim>,
) -> Result<(), NoMemory>
    ensures { OnOk result ((others : List Claim) → all.new ++ others ≡ all.old ++ claimed_inside new.now.turns.now.p.now
        new.now.by.0 (NewView new.now.view new.now.changes.now signatures.now) others) }
{
    put_changes_claims(alloc, new.turns, new.changes, all)?;
    put_chosen_claims(alloc, new, new.turns.p.slots.as_slice(), signatures, all)
}

// Appends the claims of the signatures inside a body, and returns the body's statement.
fn body_statement(
    alloc: Global,
    turns: &Turns,
    by: NodeId,
    body: &Body,
    all: &mut Seq<Claim>,
) -> Result<Bytes, NoMemory>
    ensures statement { IfOk result (λ s. s ≡ stated turns.now.p.now body.now) }
    ensures claimed { OnOk result ((others : List Claim) →
        all.new ++ others ≡ all.old ++ claimed_inside turns.now.p.now by.0 body.now others) }
{
    let p = turns.p;
    match body {
        Body::PrePrepare { view, slot, value } => {
            let digest = digest_of(alloc, p, value);
            state_at(alloc, p, PRE_PREPARE, &mark(*view, *slot, digest))
        }
        Body::Prepare { view, slot, digest } => {
            state_at(alloc, p, PREPARE, &mark(*view, *slot, *digest))
        }
        Body::Commit { view, slot, digest } => {
            state_at(alloc, p, COMMIT, &mark(*view, *slot, *digest))
        }
        Body::ViewChange { view, certificates } => {
            change_statement(alloc, turns, *view, certificates.as_slice(), all)
        }
        Body::NewView {
            view,
            changes,
            signatures,
        } => {
            let new = NewProposals {
                turns,
                by,
                view: *view,
                changes: changes.as_slice(),
            };
            put_new_view_claims(alloc, &new, signatures.as_slice(), all)?;
            state_new(alloc, p, *view)
        }
    }
}

/// The claims of a message, in the order of its bytes: the signatures inside it, and then its own. A ViewChange with
/// more than 255 certificates has no statement: the answer is `NoMemory`.
// rule: PBFT: A message claims each signature in it, in the order of its bytes
pub fn claims(
    alloc: Global,
    p: &Params,
    from: NodeId,
    msg: &Message,
) -> Result<Seq<Claim>, NoMemory>
    requires { IsGoodSetup p.now.setup }
    ensures { IfOk result (λ all. all ≡ claims p.now from.0 msg.now) }
{
    let mut all = Seq::new(alloc);
    let statement = body_statement(alloc, &Turns::of(p), from, &msg.body, &mut all)?;
    put_claim(from, statement, &msg.sig, &mut all)?;
    Ok(all)
}
