//! What is hashed of a value, and the statements that are signed.
ghost use Rattle.std.specs.Prelude.{◌≡◌, ◌≤◌, List, length, map, IfOk, OnOk};
ghost use Rattle.std.specs.List.{flat_map};
ghost use Rattle.iss_request.specs.Fields.{and_bytes};
ghost use Rattle.pbft_wire.specs.Marks.{mark_bytes, mark_of};
ghost use Rattle.pbft_wire.specs.Statements.{digest_of, state_at, state_change, state_new, string_of};
ghost use Rattle.pbft_wire.specs.declared.messages.Certificate.{Certificate};

use crate::messages::Certificate;
use iss_request::{Bytes, NoMemory, Seq, Slot, Value, Writer, value_string};
use iss_sb::{Params, put_head};
use std::alloc::Global;

/// The tag of the module, which is part of each statement.
pub const TAG: u8 = 3;

/// The number of a PrePrepare, in encodings and in statements.
pub const PRE_PREPARE: u8 = 1;

/// The number of a Prepare.
pub const PREPARE: u8 = 2;

/// The number of a Commit.
pub const COMMIT: u8 = 3;

/// The number of a ViewChange.
pub const VIEW_CHANGE: u8 = 4;

/// The number of a NewView.
pub const NEW_VIEW: u8 = 5;

/// The digest of a value at a slot in a view: what PrePrepares, Prepares and Commits sign, and what a ViewChange signs
/// of each certificate.
#[derive(Drop)]
pub struct Mark {
    pub slot: Slot,
    pub view: u16,
    pub digest: [u8; 32],
}

/// The string of which the digest is taken.
pub fn string_of(alloc: Global, p: &Params, value: &Value) -> Result<Bytes, NoMemory>
    ensures { IfOk result (λ s. s ≡ string_of p.now value.now) }
{
    value_string(alloc, p.setup.version, value)
}

fn has_requests(value: &Value) -> bool {
    match value {
        Value::Nil => false,
        Value::Batch(batch) => batch.len() > 0,
    }
}

/// The digest of a value. A replica needs it more than once, so the directory caches the digests of long strings. If
/// there is no memory for the string, the digest is computed without it.
pub fn digest_of(alloc: Global, p: &Params, value: &Value) -> [u8; 32]
    ensures { result ≡ digest_of p.now value.now }
{
    if has_requests(value) {
        if let Ok(string) = string_of(alloc, p, value) {
            return p.directory.directory().digest(string.as_slice());
        }
    }
    iss_request::digest_of(p.setup.version, value)
}

/// What a ViewChange signs of a certificate.
pub fn mark_of(alloc: Global, p: &Params, c: &Certificate) -> Mark
    ensures { result ≡ mark_of p.now c.now }
{
    Mark {
        slot: c.slot,
        view: c.view,
        digest: digest_of(alloc, p, &c.value),
    }
}

fn marks_of(alloc: Global, p: &Params, certificates: &[Certificate]) -> Result<Seq<Mark>, NoMemory>
    ensures { IfOk result (λ all. all ≡ map (mark_of p.now) certificates.now) }
{
    let mut all = Seq::new(alloc);
    for c in certificates {
        all.push(mark_of(alloc, p, c))?;
    }
    Ok(all)
}

// ---- statements

/// The statement of a PrePrepare, a Prepare or a Commit (`kind`).
// rule: PBFT: A signature covers the instance, kind, view, slot and digest
pub fn state_at(alloc: Global, p: &Params, kind: u8, mark: &Mark) -> Result<Bytes, NoMemory>
    ensures { IfOk result (λ s. s ≡ state_at p.now kind mark.now.view mark.now.slot.0 mark.now.digest) }
{
    let mut out = Writer::new(alloc, p.setup.version);
    put_head(p, TAG, &mut out)?;
    out.put_u8(kind)?;
    out.put_u16(mark.view)?;
    out.put_u64(mark.slot.0)?;
    let digest = &mark.digest;
    out.put_bytes(digest)?;
    Ok(out.into_bytes())
}

/// The statement of a ViewChange with these certificates.
pub fn state_change(
    alloc: Global,
    p: &Params,
    view: u16,
    certificates: &[Certificate],
) -> Result<Bytes, NoMemory>
    requires { length certificates.now ≤ 255 }
    ensures { IfOk result (λ s. s ≡ state_change p.now view certificates.now) }
{
    let marks = marks_of(alloc, p, certificates)?;
    state_marked(alloc, p, view, marks.as_slice())
}

/// The statement of a ViewChange, from the marks of its certificates.
// rule: PBFT: A ViewChange signs the slot, view and digest of each prepared certificate
pub fn state_marked(alloc: Global, p: &Params, view: u16, marks: &[Mark]) -> Result<Bytes, NoMemory>
    requires { length marks.now ≤ 255 }
    ensures { IfOk result (λ s.
        (cs : List Certificate) → marks.now ≡ map (mark_of p.now) cs → s ≡ state_change p.now view cs) }
{
    let mut out = Writer::new(alloc, p.setup.version);
    put_head(p, TAG, &mut out)?;
    out.put_u8(VIEW_CHANGE)?;
    out.put_u16(view)?;
    out.put_u8(marks.len() as u8)?;
    put_marks(marks, &mut out)?;
    Ok(out.into_bytes())
}

fn put_mark(mark: &Mark, out: &mut Writer) -> Result<(), NoMemory>
    ensures { OnOk result (out.new ≡ and_bytes out.old (mark_bytes mark.now)) }
{
    let slot = mark.slot.0;
    let view = mark.view;
    out.put_u64(slot)?;
    out.put_u16(view)?;
    out.put_bytes(&mark.digest)
}

fn put_marks(marks: &[Mark], out: &mut Writer) -> Result<(), NoMemory>
    ensures { OnOk result (out.new ≡ and_bytes out.old (flat_map mark_bytes marks.now)) }
{
    for mark in marks {
        put_mark(mark, out)?;
    }
    Ok(())
}

/// The statement of a NewView.
pub fn state_new(alloc: Global, p: &Params, view: u16) -> Result<Bytes, NoMemory>
    ensures { IfOk result (λ s. s ≡ state_new p.now view) }
{
    let mut out = Writer::new(alloc, p.setup.version);
    put_head(p, TAG, &mut out)?;
    out.put_u8(NEW_VIEW)?;
    out.put_u16(view)?;
    Ok(out.into_bytes())
}
