//! Decodes messages, field by field in the order of the parsers.
ghost use Rattle.std.specs.Int.{w64};
ghost use Rattle.std.specs.Prelude.{◌≡◌, ℕ, List, nat_le, IfOk, Err};
ghost use Rattle.iss_request.specs.Fields.{IsRead, IsUnreadable};
ghost use Rattle.iss_request.specs.Formats.{parse_signature};
ghost use Rattle.iss_request.specs.Parsing.{byte, number, such_that, times};
ghost use Rattle.iss_request.specs.declared.ids.Slot.{Slot};
ghost use Rattle.pbft_wire.specs.Certificates.{after_node, after_slot};
ghost use Rattle.pbft_wire.specs.Certificates.{count, parse_certificate, parse_certificates, parse_change};
ghost use Rattle.pbft_wire.specs.Messages.{commit, parse, parse_at, parse_changes, parse_new_view, parse_node_change, parse_pre_prepare, parse_view_change, prepare};
ghost use Rattle.pbft_wire.specs.declared.messages.Message.{Message};

use crate::messages::{Body, Certificate, Change, Message};
use crate::signing::{COMMIT, NEW_VIEW, PRE_PREPARE, PREPARE, VIEW_CHANGE};
use iss_request::{Bytes, DecodeError, Fields, NodeId, Seq, Slot, read_signature, read_value};
use iss_sb::read_signers;
use std::alloc::Global;

// ---- single fields

fn read_count(f: &mut Fields) -> Result<u8, DecodeError>
    ensures ok { IfOk result (λ n. IsRead count f.old f.new n) }
    ensures bad { (at : ℕ) → result ≡ Err (DecodeError.BadField at) → IsUnreadable count f.old at }
{
    let count = f.read_u8()?;
    Ok(count)
}

pub(crate) fn node_follows(last: Option<NodeId>, node: u8) -> bool
    ensures { result ≡ nat_le (after_node last) node }
{
    match last {
        None => true,
        Some(last) => last.0 < node,
    }
}

pub(crate) fn slot_follows(last: Option<Slot>, slot: u64) -> bool
    ensures { result ≡ nat_le (after_slot last) slot }
{
    match last {
        None => true,
        Some(last) => last.0 < slot,
    }
}

// Reads the next replica. It has to be above `last`; otherwise it is the bad field.
fn read_node(last: Option<NodeId>, f: &mut Fields) -> Result<u8, DecodeError>
    ensures ok { IfOk result (λ k. IsRead (such_that (λ n. nat_le (after_node last) n) byte) f.old f.new k) }
    ensures bad { (at : ℕ) → result ≡ Err (DecodeError.BadField at) →
        IsUnreadable (such_that (λ n. nat_le (after_node last) n) byte) f.old at }
{
    let no_node = f.bad_field();
    let node = f.read_u8()?;
    if !node_follows(last, node) {
        return Err(no_node);
    }
    Ok(node)
}

// Reads the next slot. It has to be above `last`; otherwise it is the bad field.
fn read_slot(last: Option<Slot>, f: &mut Fields) -> Result<u64, DecodeError>
    ensures ok { IfOk result (λ s. IsRead (such_that (λ n. nat_le (after_slot last) n) (number w64)) f.old f.new s) }
    ensures bad { (at : ℕ) → result ≡ Err (DecodeError.BadField at) →
        IsUnreadable (such_that (λ n. nat_le (after_slot last) n) (number w64)) f.old at }
{
    let no_slot = f.bad_field();
    let slot = f.read_u64()?;
    if !slot_follows(last, slot) {
        return Err(no_slot);
    }
    Ok(slot)
}

// ---- certificates, ViewChanges

fn read_certificate(
    alloc: Global,
    last: Option<Slot>,
    f: &mut Fields,
) -> Result<Certificate, DecodeError>
    ensures ok { IfOk result (λ c. IsRead (parse_certificate f.old.version (after_slot last)) f.old f.new c) }
    ensures bad { (at : ℕ) → result ≡ Err (DecodeError.BadField at) →
        IsUnreadable (parse_certificate f.old.version (after_slot last)) f.old at }
{
    let slot = read_slot(last, f)?;
    let view = f.read_u16()?;
    let value = read_value(alloc, f)?;
    let sig = read_signature(alloc, f)?;
    let many = read_count(f)?;
    let prepares = read_signers(alloc, many, f)?;
    Ok(Certificate {
        slot: Slot(slot),
        view,
        value,
        sig,
        prepares,
    })
}

fn read_certificates(
    alloc: Global,
    many: u8,
    f: &mut Fields,
) -> Result<Seq<Certificate>, DecodeError>
    ensures ok { IfOk result (λ all. IsRead (parse_certificates f.old.version many 0) f.old f.new all) }
    ensures bad { (at : ℕ) → result ≡ Err (DecodeError.BadField at) →
        IsUnreadable (parse_certificates f.old.version many 0) f.old at }
{
    let mut certificates = Seq::new(alloc);
    let mut last = None;
    for _ in 0..many {
        let certificate = read_certificate(alloc, last, f)?;
        last = Some(certificate.slot);
        certificates.push(certificate)?;
    }
    Ok(certificates)
}

// Reads the rest of a replica's ViewChange, after the replica's number.
fn read_change(alloc: Global, node: NodeId, f: &mut Fields) -> Result<Change, DecodeError>
    ensures ok { IfOk result (λ x. IsRead (parse_change f.old.version node.0) f.old f.new x) }
    ensures bad { (at : ℕ) → result ≡ Err (DecodeError.BadField at) →
        IsUnreadable (parse_change f.old.version node.0) f.old at }
{
    let view = f.read_u16()?;
    let many = read_count(f)?;
    let certificates = read_certificates(alloc, many, f)?;
    let sig = read_signature(alloc, f)?;
    Ok(Change {
        node,
        view,
        certificates,
        sig,
    })
}

fn read_node_change(
    alloc: Global,
    last: Option<NodeId>,
    f: &mut Fields,
) -> Result<Change, DecodeError>
    ensures ok { IfOk result (λ x. IsRead (parse_node_change f.old.version (after_node last)) f.old f.new x) }
    ensures bad { (at : ℕ) → result ≡ Err (DecodeError.BadField at) →
        IsUnreadable (parse_node_change f.old.version (after_node last)) f.old at }
{
    let node = read_node(last, f)?;
    let change = read_change(alloc, NodeId(node), f)?;
    Ok(change)
}

fn read_changes(alloc: Global, many: u8, f: &mut Fields) -> Result<Seq<Change>, DecodeError>
    ensures ok { IfOk result (λ all. IsRead (parse_changes f.old.version many 0) f.old f.new all) }
    ensures bad { (at : ℕ) → result ≡ Err (DecodeError.BadField at) →
        IsUnreadable (parse_changes f.old.version many 0) f.old at }
{
    let mut changes = Seq::new(alloc);
    let mut last = None;
    for _ in 0..many {
        let change = read_node_change(alloc, last, f)?;
        last = Some(change.node);
        changes.push(change)?;
    }
    Ok(changes)
}

fn read_signatures(alloc: Global, many: u8, f: &mut Fields) -> Result<Seq<Bytes>, DecodeError>
    ensures ok { IfOk result (λ all. IsRead (times many parse_signature) f.old f.new all) }
    ensures bad { (at : ℕ) → result ≡ Err (DecodeError.BadField at) →
        IsUnreadable (times many parse_signature) f.old at }
{
    let mut signatures = Seq::new(alloc);
    for _ in 0..many {
        let sig = read_signature(alloc, f)?;
        signatures.push(sig)?;
    }
    Ok(signatures)
}

// ---- messages

/// Reads the message at the front. `BadField` has the position of the first field that does not decode.
pub fn read(alloc: Global, f: &mut Fields) -> Result<Message, DecodeError>
    ensures ok { IfOk result (λ m. IsRead (parse f.old.version) f.old f.new m) }
    ensures bad { (at : ℕ) → result ≡ Err (DecodeError.BadField at) → IsUnreadable (parse f.old.version) f.old at }
{
    let no_message = f.bad_field();
    let number = f.read_u8()?;
    match number {
        PRE_PREPARE => read_pre_prepare(alloc, f),
        PREPARE => read_prepare(alloc, f),
        COMMIT => read_commit(alloc, f),
        VIEW_CHANGE => read_view_change(alloc, f),
        NEW_VIEW => read_new_view(alloc, f),
        _ => Err(no_message),
    }
}

fn read_pre_prepare(alloc: Global, f: &mut Fields) -> Result<Message, DecodeError>
    ensures ok { IfOk result (λ m. IsRead (parse_pre_prepare f.old.version) f.old f.new m) }
    ensures bad { (at : ℕ) → result ≡ Err (DecodeError.BadField at) →
        IsUnreadable (parse_pre_prepare f.old.version) f.old at }
{
    let view = f.read_u16()?;
    let slot = f.read_u64()?;
    let value = read_value(alloc, f)?;
    let sig = read_signature(alloc, f)?;
    let body = Body::PrePrepare {
        view,
        slot: Slot(slot),
        value,
    };
    Ok(Message { body, sig })
}

// The fields of a Prepare or a Commit.
#[derive(Drop)]
struct At {
    view: u16,
    slot: Slot,
    digest: [u8; 32],
    sig: Bytes,
}

fn read_at(alloc: Global, f: &mut Fields) -> Result<At, DecodeError>
    ensures ok { IfOk result (λ a. (make : ℕ → Slot → List ℕ → List ℕ → Message) →
        IsRead (parse_at make) f.old f.new (make a.view a.slot a.digest a.sig)) }
    ensures bad { (at : ℕ) → result ≡ Err (DecodeError.BadField at) → (make : ℕ → Slot → List ℕ → List ℕ → Message) →
        IsUnreadable (parse_at make) f.old at }
{
    let view = f.read_u16()?;
    let slot = f.read_u64()?;
    let digest = f.read_digest()?;
    let sig = read_signature(alloc, f)?;
    Ok(At {
        view,
        slot: Slot(slot),
        digest,
        sig,
    })
}

fn read_prepare(alloc: Global, f: &mut Fields) -> Result<Message, DecodeError>
    ensures ok { IfOk result (λ m. IsRead (parse_at prepare) f.old f.new m) }
    ensures bad { (at : ℕ) → result ≡ Err (DecodeError.BadField at) → IsUnreadable (parse_at prepare) f.old at }
{
    let at = read_at(alloc, f)?;
    let At {
        view,
        slot,
        digest,
        sig,
    } = at;
    let body = Body::Prepare { view, slot, digest };
    Ok(Message { body, sig })
}

fn read_commit(alloc: Global, f: &mut Fields) -> Result<Message, DecodeError>
    ensures ok { IfOk result (λ m. IsRead (parse_at commit) f.old f.new m) }
    ensures bad { (at : ℕ) → result ≡ Err (DecodeError.BadField at) → IsUnreadable (parse_at commit) f.old at }
{
    let at = read_at(alloc, f)?;
    let At {
        view,
        slot,
        digest,
        sig,
    } = at;
    let body = Body::Commit { view, slot, digest };
    Ok(Message { body, sig })
}

fn read_view_change(alloc: Global, f: &mut Fields) -> Result<Message, DecodeError>
    ensures ok { IfOk result (λ m. IsRead (parse_view_change f.old.version) f.old f.new m) }
    ensures bad { (at : ℕ) → result ≡ Err (DecodeError.BadField at) →
        IsUnreadable (parse_view_change f.old.version) f.old at }
{
    // The sender is not part of the encoding, so any number will do here.
    let change = read_change(alloc, NodeId(0), f)?;
    let Change {
        view,
        certificates,
        sig,
        ..
    } = change;
    let body = Body::ViewChange { view, certificates };
    Ok(Message { body, sig })
}

fn read_new_view(alloc: Global, f: &mut Fields) -> Result<Message, DecodeError>
    ensures ok { IfOk result (λ m. IsRead (parse_new_view f.old.version) f.old f.new m) }
    ensures bad { (at : ℕ) → result ≡ Err (DecodeError.BadField at) →
        IsUnreadable (parse_new_view f.old.version) f.old at }
{
    let view = f.read_u16()?;
    let first = read_count(f)?;
    let changes = read_changes(alloc, first, f)?;
    let second = read_count(f)?;
    let signatures = read_signatures(alloc, second, f)?;
    let sig = read_signature(alloc, f)?;
    let body = Body::NewView {
        view,
        changes,
        signatures,
    };
    Ok(Message { body, sig })
}
