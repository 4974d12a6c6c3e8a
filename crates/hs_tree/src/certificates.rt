//! Quorum certificates (HotStuff: QC), and their bytes.
ghost use Rattle.std.specs.Prelude.{◌≡◌, ◌<◌, ◌≤◌, ℕ, List, length, IfOk, OnOk, Err};
ghost use Rattle.iss_request.specs.Fields.{IsRead, IsUnreadable, and_bytes};
ghost use Rattle.iss_request.specs.Parsing.{block, byte, such_that};
ghost use Rattle.iss_request.specs.Formats.{is_signature};
ghost use Rattle.hs_tree.specs.Certificates.{digest_of, fits, is_phase, is_quorum, is_ascending, parse_certificate, parse_votes, spell_certificate, view_of, votes_row};

use iss_request::{DecodeError, Fields, NoMemory, Seq, Writer};
use iss_sb::{Signed, are_signers, copy_signers, put_signers, read_signers};
use std::alloc::Global;

// What is written for a certificate without an encoding: view 1 and phase 0, which no reader accepts.
const NO_CERTIFICATE: [u8; 5] = [0, 0, 0, 1, 0];

/// A quorum certificate: votes for a node, by its digest, in one phase of one view. `Root` certifies the tree's root
/// without votes. The votes are not checked here.
#[derive(Drop)]
pub enum Certificate {
    Root,
    Votes {
        view: u32,
        phase: u8,
        digest: [u8; 32],
        votes: Seq<Signed>,
    },
}

impl Certificate {
    /// The view of the votes, 0 for the root.
    pub fn view(&self) -> u32
        ensures { result ≡ view_of self.now }
    {
        match self {
            Certificate::Root => 0,
            Certificate::Votes { view, .. } => *view,
        }
    }

    /// The digest of the certified node.
    pub fn digest(&self) -> [u8; 32]
        ensures { result ≡ digest_of self.now }
    {
        match self {
            Certificate::Root => [0; 32],
            Certificate::Votes { digest, .. } => *digest,
        }
    }

    /// A copy. The only error is out of memory.
    pub fn copy(&self, alloc: Global) -> Result<Certificate, NoMemory>
        ensures { IfOk result (λ c. c ≡ self.now) }
    {
        match self {
            Certificate::Root => Ok(Certificate::Root),
            Certificate::Votes {
                view,
                phase,
                digest,
                votes,
            } => {
                let votes = copy_signers(alloc, votes.as_slice())?;
                Ok(Certificate::Votes {
                    view: *view,
                    phase: *phase,
                    digest: *digest,
                    votes,
                })
            }
        }
    }

    /// Whether it has exactly a quorum's votes, by strictly ascending signers, for this phase and view. Signatures are
    /// checked elsewhere, by the message's claims.
    pub fn is_quorum(&self, quorum: u32, in_phase: u8, in_view: u32) -> bool
        ensures { result ≡ is_quorum quorum in_phase in_view self.now }
    {
        match self {
            Certificate::Root => false,
            Certificate::Votes {
                view,
                phase,
                votes,
                ..
            } => {
                *view == in_view
                    && *phase == in_phase
                    && votes.len() == quorum as usize
                    && are_ascending(0, votes.as_slice())
            }
        }
    }
}

/// Whether the phase is one of 1 to `phases`.
pub fn is_phase(phases: u8, phase: u8) -> bool
    ensures { result ≡ is_phase phases phase }
{
    1 <= phase && phase <= phases
}

// ---- writing

// Whether the signers are strictly ascending, from this number on.
fn are_ascending(from: u16, votes: &[Signed]) -> bool
    requires { from ≤ 256 }
    ensures { result ≡ is_ascending from votes.now }
{
    match votes {
        [] => true,
        [first, others @ ..] => {
            let by = first.by.0 as u16;
            from <= by && are_ascending(by + 1, others)
        }
    }
}

// Whether a certificate with these votes has an encoding.
fn has_spelling(phases: u8, view: u32, phase: u8, digest: &[u8; 32], votes: &[Signed]) -> bool
    ensures { result ≡ fits phases view phase digest.now votes.now }
{
    if view == 0 || !is_phase(phases, phase) || votes.len() > 255 {
        return false;
    }
    are_signers(0, votes)
}

fn write_votes(
    view: u32,
    phase: u8,
    digest: &[u8; 32],
    votes: &[Signed],
    out: &mut Writer,
) -> Result<(), NoMemory>
    requires { length votes.now < 256 }
    ensures { OnOk result (out.new ≡ and_bytes out.old (votes_row view phase digest.now votes.now)) }
{
    out.put_u32(view)?;
    out.put_u8(phase)?;
    out.put_bytes(digest)?;
    out.put_u8(votes.len() as u8)?;
    put_signers(votes, out)
}

/// Writes a certificate of a protocol with this many phases. One without an encoding is written as bytes that no reader
/// accepts. The only error is out of memory.
pub fn write_certificate(
    phases: u8,
    certificate: &Certificate,
    out: &mut Writer,
) -> Result<(), NoMemory>
    ensures { OnOk result (out.new ≡ and_bytes out.old (spell_certificate phases certificate.now)) }
{
    match certificate {
        Certificate::Root => out.put_u32(0),
        Certificate::Votes {
            view,
            phase,
            digest,
            votes,
        } => {
            let votes = votes.as_slice();
            if !has_spelling(phases, *view, *phase, digest, votes) {
                return out.put_bytes(&NO_CERTIFICATE);
            }
            write_votes(*view, *phase, digest, votes, out)
        }
    }
}

// ---- reading

/// Reads a phase. `BadField` if it is not one of 1 to `phases`.
pub fn read_phase(phases: u8, f: &mut Fields) -> Result<u8, DecodeError>
    ensures ok { IfOk result (λ n. IsRead (such_that (is_phase phases) byte) f.old f.new n) }
    ensures bad { (at : ℕ) → result ≡ Err (DecodeError.BadField at) →
        IsUnreadable (such_that (is_phase phases) byte) f.old at }
{
    let no_phase = f.bad_field();
    let phase = f.read_u8()?;
    if !is_phase(phases, phase) {
        return Err(no_phase);
    }
    Ok(phase)
}

fn read_votes(
    alloc: Global,
    phases: u8,
    view: u32,
    f: &mut Fields,
) -> Result<Certificate, DecodeError>
    requires { 0 < view }
    ensures ok { IfOk result (λ c. IsRead (parse_votes phases view) f.old f.new c) }
    ensures bad { (at : ℕ) → result ≡ Err (DecodeError.BadField at) → IsUnreadable (parse_votes phases view) f.old at }
{
    let phase = read_phase(phases, f)?;
    let digest = f.read_digest()?;
    let count = f.read_u8()?;
    let votes = read_signers(alloc, count, f)?;
    Ok(Certificate::Votes {
        view,
        phase,
        digest,
        votes,
    })
}

/// Reads a certificate of a protocol with this many phases. `BadField` has the position of the first bad field.
pub fn read_certificate(
    alloc: Global,
    phases: u8,
    f: &mut Fields,
) -> Result<Certificate, DecodeError>
    ensures ok { IfOk result (λ c. IsRead (parse_certificate phases) f.old f.new c) }
    ensures bad { (at : ℕ) → result ≡ Err (DecodeError.BadField at) → IsUnreadable (parse_certificate phases) f.old at }
{
    let view = f.read_u32()?;
    if view == 0 {
        return Ok(Certificate::Root);
    }
    read_votes(alloc, phases, view, f)
}
