//! Encodes messages. A message without an encoding is detected first, and written as the number of no message.
ghost use Rattle.std.specs.Prelude.{◌≡◌, ◌≤◌, ◌∷◌, ◌++◌, ℕ, List, true, length, OnOk};
ghost use Rattle.std.specs.List.{flat_map, list_all};
ghost use Rattle.iss_request.specs.Fields.{and_bytes};
ghost use Rattle.iss_request.specs.Formats.{has_spelling, is_signature, spell_value};
ghost use Rattle.pbft_wire.specs.Certificates.{certificate_bytes, change_bytes};
ghost use Rattle.pbft_wire.specs.Certificates.{fits_certificate, fits_certificates, fits_change, fits_value};
ghost use Rattle.pbft_wire.specs.Signed.{NewView, PrePrepare};
ghost use Rattle.pbft_wire.specs.Messages.{as_is, at_bytes, fits, fits_at, fits_changes, message_bytes, new_bytes, node_change_bytes, spell};

use crate::messages::{Body, Certificate, Change, Message};
use crate::reading::{node_follows, slot_follows};
use crate::signing::{COMMIT, Mark, NEW_VIEW, PRE_PREPARE, PREPARE, VIEW_CHANGE};
use iss_request::{
    Bytes, NoMemory, Request, Slot, Value, Writer, has_shape, is_spellable, requests_most,
    write_value,
};
use iss_sb::{are_signers, put_signers};

// ---- which messages have an encoding

fn requests_fit(requests: &[Request]) -> bool
    ensures { result ≡ list_all has_spelling requests.now }
{
    requests.iter().all(|request| is_spellable(request))
}

fn value_fits(version: u8, value: &Value) -> bool
    ensures { result ≡ fits_value version value.now }
{
    match value {
        Value::Nil => true,
        Value::Batch(batch) => {
            batch.len() <= requests_most(version) as usize && requests_fit(batch.as_slice())
        }
    }
}

fn certificate_fits(version: u8, c: &Certificate) -> bool
    ensures { result ≡ fits_certificate version c.now }
{
    // The ranges of these fields are part of the contract.
    let _slot = c.slot.0;
    let _view = c.view;
    value_fits(version, &c.value)
        && has_shape(c.sig.as_slice())
        && c.prepares.len() <= 255
        && are_signers(0, c.prepares.as_slice())
}

fn certificates_fit(version: u8, certificates: &[Certificate]) -> bool
    ensures { result ≡ fits_certificates version 0 certificates.now }
{
    let mut last = None;
    for certificate in certificates {
        if !slot_follows(last, certificate.slot.0) || !certificate_fits(version, certificate) {
            return false;
        }
        last = Some(certificate.slot);
    }
    true
}

fn change_fits(version: u8, view: u16, certificates: &[Certificate], sig: &[u8]) -> bool
    ensures { result ≡ fits_change version view certificates.now sig.now }
{
    certificates.len() <= 255 && certificates_fit(version, certificates) && has_shape(sig)
}

fn changes_fit(version: u8, changes: &[Change]) -> bool
    ensures { result ≡ fits_changes version 0 changes.now }
{
    let mut last = None;
    for change in changes {
        let view = change.view;
        if !node_follows(last, change.node.0)
            || !change_fits(
                version,
                view,
                change.certificates.as_slice(),
                change.sig.as_slice(),
            )
        {
            return false;
        }
        last = Some(change.node);
    }
    true
}

fn vote_fits(view: u16, slot: Slot, digest: &[u8; 32], sig: &[u8]) -> bool
    ensures { result ≡ fits_at view slot.0 digest.now sig.now }
{
    has_shape(sig)
}

fn signatures_fit(signatures: &[Bytes]) -> bool
    ensures { result ≡ list_all is_signature signatures.now }
{
    signatures.iter().all(|sig| has_shape(sig.as_slice()))
}

fn proposal_fits(version: u8, view: u16, slot: Slot, value: &Value, sig: &[u8]) -> bool
    ensures { result ≡ fits version (PrePrepare view slot value.now sig.now) }
{
    value_fits(version, value) && has_shape(sig)
}

fn new_view_fits(
    version: u8,
    view: u16,
    changes: &[Change],
    signatures: &[Bytes],
    sig: &[u8],
) -> bool
    ensures { result ≡ fits version (NewView view changes.now signatures.now sig.now) }
{
    changes.len() <= 255
        && changes_fit(version, changes)
        && signatures.len() <= 255
        && signatures_fit(signatures)
        && has_shape(sig)
}

fn is_well_formed(version: u8, msg: &Message) -> bool
    ensures { result ≡ fits version msg.now }
{
    let sig = msg.sig.as_slice();
    match &msg.body {
        Body::PrePrepare { view, slot, value } => proposal_fits(version, *view, *slot, value, sig),
        Body::Prepare { view, slot, digest } => vote_fits(*view, *slot, digest, sig),
        Body::Commit { view, slot, digest } => vote_fits(*view, *slot, digest, sig),
        Body::ViewChange { view, certificates } => {
            change_fits(version, *view, certificates.as_slice(), sig)
        }
        Body::NewView {
            view,
            changes,
            signatures,
        } => new_view_fits(
            version,
            *view,
            changes.as_slice(),
            signatures.as_slice(),
            sig,
        ),
    }
}

// ---- writing

fn put_certificate(c: &Certificate, out: &mut Writer) -> Result<(), NoMemory>
    requires { fits_certificate out.old.version c.now ≡ true }
    ensures { OnOk result (out.new ≡ and_bytes out.old (certificate_bytes out.old.version c.now)) }
{
    out.put_u64(c.slot.0)?;
    out.put_u16(c.view)?;
    write_value(&c.value, out)?;
    out.put_bytes(c.sig.as_slice())?;
    out.put_u8(c.prepares.len() as u8)?;
    put_signers(c.prepares.as_slice(), out)
}

fn put_certificates(certificates: &[Certificate], out: &mut Writer) -> Result<(), NoMemory>
    requires { fits_certificates out.old.version 0 certificates.now ≡ true }
    ensures { OnOk result
        (out.new ≡ and_bytes out.old (flat_map (certificate_bytes out.old.version) certificates.now)) }
{
    for certificate in certificates {
        put_certificate(certificate, out)?;
    }
    Ok(())
}

fn put_change(
    view: u16,
    certificates: &[Certificate],
    sig: &[u8],
    out: &mut Writer,
) -> Result<(), NoMemory>
    requires { fits_change out.old.version view certificates.now sig.now ≡ true }
    ensures { OnOk result (out.new ≡ and_bytes out.old (change_bytes out.old.version view certificates.now sig.now)) }
{
    out.put_u16(view)?;
    out.put_u8(certificates.len() as u8)?;
    put_certificates(certificates, out)?;
    out.put_bytes(sig)
}

fn put_node_change(x: &Change, out: &mut Writer) -> Result<(), NoMemory>
    requires { fits_change out.old.version x.now.view x.now.certificates x.now.sig ≡ true }
    ensures { OnOk result (out.new ≡ and_bytes out.old (node_change_bytes out.old.version x.now)) }
{
    out.put_u8(x.node.0)?;
    put_change(x.view, x.certificates.as_slice(), x.sig.as_slice(), out)
}

fn put_changes(changes: &[Change], out: &mut Writer) -> Result<(), NoMemory>
    requires { fits_changes out.old.version 0 changes.now ≡ true }
    ensures { OnOk result (out.new ≡ and_bytes out.old (flat_map (node_change_bytes out.old.version) changes.now)) }
{
    for change in changes {
        put_node_change(change, out)?;
    }
    Ok(())
}

fn put_signatures(signatures: &[Bytes], out: &mut Writer) -> Result<(), NoMemory>
    ensures { OnOk result (out.new ≡ and_bytes out.old (flat_map as_is signatures.now)) }
{
    for sig in signatures {
        out.put_bytes(sig.as_slice())?;
    }
    Ok(())
}

fn put_at(kind: u8, mark: &Mark, sig: &[u8], out: &mut Writer) -> Result<(), NoMemory>
    ensures { OnOk result (out.new ≡
        and_bytes out.old (kind ∷ at_bytes mark.now.view mark.now.slot.0 (mark.now.digest ++ sig.now))) }
{
    out.put_u8(kind)?;
    out.put_u16(mark.view)?;
    out.put_u64(mark.slot.0)?;
    let digest = &mark.digest;
    out.put_bytes(digest)?;
    out.put_bytes(sig)
}

fn put_pre_prepare(
    view: u16,
    slot: Slot,
    value: &Value,
    sig: &[u8],
    out: &mut Writer,
) -> Result<(), NoMemory>
    ensures { OnOk result
        (out.new ≡ and_bytes out.old (1 ∷ at_bytes view slot.0 (spell_value out.old.version value.now ++ sig.now))) }
{
    out.put_u8(PRE_PREPARE)?;
    out.put_u16(view)?;
    out.put_u64(slot.0)?;
    write_value(value, out)?;
    out.put_bytes(sig)
}

fn put_new_view(
    view: u16,
    changes: &[Change],
    signatures: &[Bytes],
    sig: &[u8],
    out: &mut Writer,
) -> Result<(), NoMemory>
    requires few { length changes.now ≤ 255 }
    requires few_signatures { length signatures.now ≤ 255 }
    requires good { fits_changes out.old.version 0 changes.now ≡ true }
    ensures { OnOk result
        (out.new ≡ and_bytes out.old (5 ∷ new_bytes out.old.version view changes.now signatures.now sig.now)) }
{
    out.put_u8(NEW_VIEW)?;
    out.put_u16(view)?;
    out.put_u8(changes.len() as u8)?;
    put_changes(changes, out)?;
    out.put_u8(signatures.len() as u8)?;
    put_signatures(signatures, out)?;
    out.put_bytes(sig)
}

fn put_view_change(
    view: u16,
    certificates: &[Certificate],
    sig: &[u8],
    out: &mut Writer,
) -> Result<(), NoMemory>
    requires { fits_change out.old.version view certificates.now sig.now ≡ true }
    ensures { OnOk result
        (out.new ≡ and_bytes out.old (4 ∷ change_bytes out.old.version view certificates.now sig.now)) }
{
    out.put_u8(VIEW_CHANGE)?;
    put_change(view, certificates, sig, out)
}

fn mark(view: u16, slot: Slot, digest: &[u8; 32]) -> Mark
    ensures { result ≡ record { slot = slot; view = view; digest = digest.now } }
{
    Mark {
        slot,
        view,
        digest: *digest,
    }
}

fn put_message(msg: &Message, out: &mut Writer) -> Result<(), NoMemory>
    requires { fits out.old.version msg.now ≡ true }
    ensures { OnOk result (out.new ≡ and_bytes out.old (message_bytes out.old.version msg.now)) }
{
    let sig = msg.sig.as_slice();
    match &msg.body {
        Body::PrePrepare { view, slot, value } => put_pre_prepare(*view, *slot, value, sig, out),
        Body::Prepare { view, slot, digest } => {
            put_at(PREPARE, &mark(*view, *slot, digest), sig, out)
        }
        Body::Commit { view, slot, digest } => {
            put_at(COMMIT, &mark(*view, *slot, digest), sig, out)
        }
        Body::ViewChange { view, certificates } => {
            put_view_change(*view, certificates.as_slice(), sig, out)
        }
        Body::NewView {
            view,
            changes,
            signatures,
        } => put_new_view(*view, changes.as_slice(), signatures.as_slice(), sig, out),
    }
}

/// Writes a message: its number, its fields, its signature. A message without an encoding (such as one with slots
/// that do not ascend) is written as bytes that do not decode.
// rule: PBFT: A message has one encoding, with replicas and slots strictly ascending
pub fn write(msg: &Message, out: &mut Writer) -> Result<(), NoMemory>
    ensures { OnOk result (out.new ≡ and_bytes out.old (spell out.old.version msg.now)) }
{
    if is_well_formed(out.version(), msg) {
        put_message(msg, out)
    } else {
        out.put_u8(0)
    }
}
