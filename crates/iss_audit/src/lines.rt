//! The lines of an export after its header.
ghost use Rattle.std.specs.Prelude.{◌≡◌, ℕ, [], IfOk, Err};
ghost use Rattle.hex.specs.Hex.{IsBytes};
ghost use Rattle.iss_checkpoint.specs.Certificates.{parse_cert};
ghost use Rattle.iss_request.specs.Fields.{Bad, Good};
ghost use Rattle.iss_request.specs.Parsing.{all_of};
ghost use Rattle.iss_schedule.specs.Reads.{Reads};
ghost use Rattle.iss_schedule.specs.Words.{Lacks};
ghost use Rattle.iss_audit.specs.Exports.{IsCertOf, IsValue, cert_line, hex_line, value_line};

use crate::digits::bytes_in;
use iss_checkpoint::{Cert, read_cert};
use iss_request::{Bytes, DecodeError, Epoch, Fields, NoMemory, Value, decode_value};
use iss_schedule::behind;
use std::alloc::Global;

// The bytes in hexadecimal after a name and a space.
fn bytes_behind(alloc: Global, line: &[u8], name: &[u8]) -> Result<Option<Bytes>, NoMemory>
    requires { Lacks 32 name.now }
    ensures { IfOk result (Reads (hex_line name.now) IsBytes line.now) }
{
    let Some(word) = behind(line, name) else {
        return Ok(None);
    };
    bytes_in(alloc, word)
}

/// The value in a line.
pub fn value_in(alloc: Global, version: u8, line: &[u8]) -> Result<Option<Value>, NoMemory>
    ensures { IfOk result (Reads (value_line version) (IsValue version) line.now) }
{
    let Some(bytes) = bytes_behind(alloc, line, b"value")? else {
        return Ok(None);
    };
    match decode_value(alloc, version, bytes.as_slice()) {
        Ok(value) => Ok(Some(value)),
        Err(DecodeError::BadField { .. }) => Ok(None),
        Err(DecodeError::NoMemory) => Err(NoMemory),
    }
}

// The certificate of an epoch with exactly these bytes.
fn decode_cert(alloc: Global, epoch: Epoch, bytes: &[u8]) -> Result<Cert, DecodeError>
    ensures ok { IfOk result (λ c. parse_cert epoch.0 bytes.now ≡ Good c []) }
    ensures bad { (at : ℕ) → result ≡ Err (DecodeError.BadField at) → all_of (parse_cert epoch.0) bytes.now ≡ Bad at }
{
    // The version plays no role.
    let mut f = Fields::over(1, bytes);
    let cert = read_cert(alloc, epoch, &mut f)?;
    if !f.is_done() {
        return Err(f.bad_field());
    }
    Ok(cert)
}

/// The certificate of an epoch in a line.
pub fn cert_in(alloc: Global, epoch: Epoch, line: &[u8]) -> Result<Option<Cert>, NoMemory>
    ensures { IfOk result (Reads cert_line (IsCertOf epoch.0) line.now) }
{
    let Some(bytes) = bytes_behind(alloc, line, b"cert")? else {
        return Ok(None);
    };
    match decode_cert(alloc, epoch, bytes.as_slice()) {
        Ok(cert) => Ok(Some(cert)),
        Err(DecodeError::BadField { .. }) => Ok(None),
        Err(DecodeError::NoMemory) => Err(NoMemory),
    }
}
