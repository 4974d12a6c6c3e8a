//! The bytes of the messages.
ghost use Rattle.std.specs.Prelude.{◌≡◌, ℕ, IfOk, OnOk, Err};
ghost use Rattle.iss_request.specs.Fields.{IsRead, IsUnreadable, and_bytes};
ghost use Rattle.hs_tree.specs.declared.certificates.Certificate.{Certificate};
ghost use Rattle.hs_tree.specs.declared.messages.Body.{Body};
ghost use Rattle.hs_tree.specs.declared.messages.Body.TheVariants.{NewView, Prepare, Vote};
ghost use Rattle.hs_tree.specs.Messages.{is_message, parse, parse_body, parse_new_view, parse_prepare, parse_shown, parse_vote, spell, spell_body, spell_shown};

use crate::certificates::{Certificate, is_phase, read_certificate, read_phase, write_certificate};
use crate::messages::{Body, Message};
use iss_request::{DecodeError, Fields, NoMemory, Writer, has_shape, read_signature};
use iss_sb::{Content, read_content, write_content};
use std::alloc::Global;

const NO_MESSAGE: u8 = 0;

/// The number of a NewView, in bytes and in statements.
pub const NEW_VIEW: u8 = 1;

/// The number of a Prepare, in bytes and in statements.
pub const PREPARE: u8 = 2;

/// The number of a PreCommit, in bytes and in statements.
pub const PRE_COMMIT: u8 = 3;

/// The number of a Commit, in bytes and in statements.
pub const COMMIT: u8 = 4;

/// The number of a Decide, in bytes and in statements.
pub const DECIDE: u8 = 5;

/// The number of a Vote, in bytes and in statements.
pub const VOTE: u8 = 6;

// ---- writing

/// Writes a message of a protocol with this many phases: its body, its signature. One without an encoding is written as
/// bytes that no reader accepts. The only error is out of memory.
// rule: HotStuff: A message has one encoding for its number of phases and version
pub fn write(phases: u8, msg: &Message, out: &mut Writer) -> Result<(), NoMemory>
    ensures { OnOk result (out.new ≡ and_bytes out.old (spell phases out.old.version msg.now)) }
{
    let sig = msg.sig.as_slice();
    if !has_shape(sig) {
        return out.put_u8(NO_MESSAGE);
    }
    write_body(phases, &msg.body, out)?;
    out.put_bytes(sig)
}

fn write_body(phases: u8, body: &Body, out: &mut Writer) -> Result<(), NoMemory>
    ensures { OnOk result (out.new ≡ and_bytes out.old (spell_body phases out.old.version body.now)) }
{
    match body {
        Body::NewView { round, high } => write_new_view(phases, *round, high, out),
        Body::Prepare { view, what, just } => write_prepare(phases, *view, what, just, out),
        Body::PreCommit { view, shown } => write_shown(phases, PRE_COMMIT, *view, shown, out),
        Body::Commit { view, shown } => write_shown(phases, COMMIT, *view, shown, out),
        Body::Decide { view, shown } => write_shown(phases, DECIDE, *view, shown, out),
        Body::Vote {
            phase,
            view,
            digest,
        } => write_vote(phases, *phase, *view, digest, out),
    }
}

fn write_new_view(
    phases: u8,
    round: u16,
    high: &Certificate,
    out: &mut Writer,
) -> Result<(), NoMemory>
    ensures { OnOk result (out.new ≡ and_bytes out.old (spell_body phases out.old.version (NewView round high.now))) }
{
    out.put_u8(NEW_VIEW)?;
    out.put_u16(round)?;
    write_certificate(phases, high, out)
}

fn write_prepare(
    phases: u8,
    view: u32,
    what: &Content,
    just: &Certificate,
    out: &mut Writer,
) -> Result<(), NoMemory>
    ensures { OnOk result (out.new ≡ and_bytes out.old
        (spell_body phases out.old.version (Prepare view what.now just.now))) }
{
    out.put_u8(PREPARE)?;
    out.put_u32(view)?;
    write_content(what, out)?;
    write_certificate(phases, just, out)
}

// Writes a PreCommit, Commit or Decide, which exist only with three phases.
fn write_shown(
    phases: u8,
    kind: u8,
    view: u32,
    shown: &Certificate,
    out: &mut Writer,
) -> Result<(), NoMemory>
    ensures { OnOk result (out.new ≡ and_bytes out.old (spell_shown phases kind view shown.now)) }
{
    if phases != 3 {
        return out.put_u8(NO_MESSAGE);
    }
    out.put_u8(kind)?;
    out.put_u32(view)?;
    write_certificate(phases, shown, out)
}

fn write_vote(
    phases: u8,
    phase: u8,
    view: u32,
    digest: &[u8; 32],
    out: &mut Writer,
) -> Result<(), NoMemory>
    ensures { OnOk result (out.new ≡ and_bytes out.old
        (spell_body phases out.old.version (Vote phase view digest.now))) }
{
    if !is_phase(phases, phase) {
        return out.put_u8(NO_MESSAGE);
    }
    out.put_u8(VOTE)?;
    out.put_u8(phase)?;
    out.put_u32(view)?;
    out.put_bytes(digest)
}

// ---- reading

// Whether there is a message with this number.
fn is_message(phases: u8, number: u8) -> bool
    ensures { result ≡ is_message phases number }
{
    match number {
        NEW_VIEW | PREPARE | VOTE => true,
        PRE_COMMIT | COMMIT | DECIDE => phases == 3,
        _ => false,
    }
}

/// Reads a message of a protocol with this many phases. `BadField` has the position of the first bad field.
pub fn read(alloc: Global, phases: u8, f: &mut Fields) -> Result<Message, DecodeError>
    ensures ok { IfOk result (λ m. IsRead (parse phases f.old.version) f.old f.new m) }
    ensures bad { (at : ℕ) → result ≡ Err (DecodeError.BadField at) →
        IsUnreadable (parse phases f.old.version) f.old at }
{
    let body = read_body(alloc, phases, f)?;
    let sig = read_signature(alloc, f)?;
    Ok(Message { body, sig })
}

fn read_body(alloc: Global, phases: u8, f: &mut Fields) -> Result<Body, DecodeError>
    ensures ok { IfOk result (λ b. IsRead (parse_body phases f.old.version) f.old f.new b) }
    ensures bad { (at : ℕ) → result ≡ Err (DecodeError.BadField at) →
        IsUnreadable (parse_body phases f.old.version) f.old at }
{
    let no_message = f.bad_field();
    let number = f.read_u8()?;
    if !is_message(phases, number) {
        return Err(no_message);
    }
    match number {
        NEW_VIEW => read_new_view(alloc, phases, f),
        PREPARE => read_prepare(alloc, phases, f),
        PRE_COMMIT => {
            let s = read_shown(alloc, phases, f)?;
            Ok(Body::PreCommit {
                view: s.view,
                shown: s.shown,
            })
        }
        COMMIT => {
            let s = read_shown(alloc, phases, f)?;
            Ok(Body::Commit {
                view: s.view,
                shown: s.shown,
            })
        }
        DECIDE => {
            let s = read_shown(alloc, phases, f)?;
            Ok(Body::Decide {
                view: s.view,
                shown: s.shown,
            })
        }
        _ => read_vote(phases, f),
    }
}

fn read_new_view(alloc: Global, phases: u8, f: &mut Fields) -> Result<Body, DecodeError>
    ensures ok { IfOk result (λ b. IsRead (parse_new_view phases) f.old f.new b) }
    ensures bad { (at : ℕ) → result ≡ Err (DecodeError.BadField at) → IsUnreadable (parse_new_view phases) f.old at }
{
    let round = f.read_u16()?;
    let high = read_certificate(alloc, phases, f)?;
    Ok(Body::NewView { round, high })
}

fn read_prepare(alloc: Global, phases: u8, f: &mut Fields) -> Result<Body, DecodeError>
    ensures ok { IfOk result (λ b. IsRead (parse_prepare phases f.old.version) f.old f.new b) }
    ensures bad { (at : ℕ) → result ≡ Err (DecodeError.BadField at) →
        IsUnreadable (parse_prepare phases f.old.version) f.old at }
{
    let view = f.read_u32()?;
    let what = read_content(alloc, f)?;
    let just = read_certificate(alloc, phases, f)?;
    Ok(Body::Prepare { view, what, just })
}

// The fields of a PreCommit, Commit or Decide.
#[derive(Drop)]
struct Shown {
    view: u32,
    shown: Certificate,
}

fn read_shown(alloc: Global, phases: u8, f: &mut Fields) -> Result<Shown, DecodeError>
    ensures ok { (body : ℕ → Certificate → Body)
        → IfOk result (λ s. IsRead (parse_shown phases body) f.old f.new (body s.view s.shown)) }
    ensures bad { (body : ℕ → Certificate → Body) (at : ℕ)
        → result ≡ Err (DecodeError.BadField at) → IsUnreadable (parse_shown phases body) f.old at }
{
    let view = f.read_u32()?;
    let shown = read_certificate(alloc, phases, f)?;
    Ok(Shown { view, shown })
}

fn read_vote(phases: u8, f: &mut Fields) -> Result<Body, DecodeError>
    ensures ok { IfOk result (λ b. IsRead (parse_vote phases) f.old f.new b) }
    ensures bad { (at : ℕ) → result ≡ Err (DecodeError.BadField at) → IsUnreadable (parse_vote phases) f.old at }
{
    let phase = read_phase(phases, f)?;
    let view = f.read_u32()?;
    let digest = f.read_digest()?;
    Ok(Body::Vote {
        phase,
        view,
        digest,
    })
}
