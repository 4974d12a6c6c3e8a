//! Stable checkpoint certificates in bytes: the body of a packet that names the epoch, or the end of a longer one.
ghost use Rattle.std.specs.Prelude.{◌≡◌, ◌<◌, ℕ, length, IfOk, OnOk, Err};
ghost use Rattle.iss_request.specs.Fields.{IsRead, IsUnreadable, and_bytes};
ghost use Rattle.iss_checkpoint.specs.Certificates.{cert_fits, cert_row, parse_cert, spell_cert};

use crate::votes::Cert;
use iss_request::{DecodeError, Epoch, Fields, NoMemory, Writer};
use iss_sb::{are_signers, put_signers, read_signers};
use std::alloc::Global;

// Written for a certificate without an encoding: its one signature has height 1, so it decodes to no certificate.
const NO_CERT: [u8; 43] = [1; 43];

// ---- encoding

fn has_spelling(cert: &Cert) -> bool
    ensures { result ≡ cert_fits cert.now }
{
    // Names the value, so that the proof sees its range.
    let _requests = cert.requests;
    cert.signers.len() < 256 && are_signers(0, cert.signers.as_slice())
}

fn put_row(cert: &Cert, out: &mut Writer) -> Result<(), NoMemory>
    requires { length cert.now.signers < 256 }
    ensures { OnOk result (out.new ≡ and_bytes out.old (cert_row cert.now)) }
{
    out.put_bytes(&cert.chain)?;
    out.put_u64(cert.requests)?;
    out.put_u8(cert.signers.len() as u8)?;
    put_signers(cert.signers.as_slice(), out)
}

/// Appends a certificate's encoding. One without an encoding is written as bytes that no reader accepts.
// rule: Checkpoints: A certificate has one encoding: chain, count, signers with their signatures
pub fn write_cert(cert: &Cert, out: &mut Writer) -> Result<(), NoMemory>
    ensures { OnOk result (out.new ≡ and_bytes out.old (spell_cert cert.now)) }
{
    if !has_spelling(cert) {
        return out.put_bytes(&NO_CERT);
    }
    put_row(cert, out)
}

// Decodes a certificate of an epoch. `BadField` names the first field that does not fit.

/// Reads a certificate of an epoch. `BadField` names the first field that does not fit.
pub fn read_cert(alloc: Global, epoch: Epoch, f: &mut Fields) -> Result<Cert, DecodeError>
    ensures ok { IfOk result (λ c. IsRead (parse_cert epoch.0) f.old f.new c) }
    ensures bad { (at : ℕ) → result ≡ Err (DecodeError.BadField at) → IsUnreadable (parse_cert epoch.0) f.old at }
{
    let chain = f.read_digest()?;
    let requests = f.read_u64()?;
    let count = f.read_u8()?;
    let signers = read_signers(alloc, count, f)?;
    Ok(Cert {
        epoch,
        chain,
        requests,
        signers,
    })
}
