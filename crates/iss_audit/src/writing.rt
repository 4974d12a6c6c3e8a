//! Writing the lines of an export. Its header is that of a schedule.
ghost use Rattle.std.specs.Prelude.{◌≡◌, ◌∷◌, ◌++◌, [], IfOk, OnOk, map};
ghost use Rattle.hex.specs.Hex.{IsBytes};
ghost use Rattle.iss_checkpoint.specs.Certificates.{spell_cert};
ghost use Rattle.iss_request.specs.Formats.{spell_value};
ghost use Rattle.iss_schedule.specs.Words.{ended};
ghost use Rattle.iss_audit.specs.Exports.{AreBytes, IsRangedCert, cert_line, hex_line, lines_of, value_line};

use iss_checkpoint::{Cert, write_cert};
use iss_request::{Bytes, NoMemory, Value, Writer, encode_value};
use iss_schedule::{put, put_bytes};
use std::alloc::Global;

// Appends a line: a name, and bytes in hexadecimal.
fn put_hex(alloc: Global, out: &mut Vec<u8>, name: &[u8], bytes: &[u8]) -> Result<(), NoMemory>
    ensures line { OnOk result (out.new.items ≡ out.old.items ++ hex_line name.now bytes.now ++ 10 ∷ []) }
    ensures bytes { IsBytes bytes.now }
{
    put(out, name)?;
    put_bytes(alloc, out, bytes)?;
    put(out, b"\n")
}

// Appends the line of a value.
fn put_value(alloc: Global, out: &mut Vec<u8>, version: u8, value: &Value) -> Result<(), NoMemory>
    ensures line { OnOk result (out.new.items ≡ out.old.items ++ value_line version value.now ++ 10 ∷ []) }
    ensures bytes { OnOk result (IsBytes (spell_value version value.now)) }
{
    let bytes = encode_value(alloc, version, value)?;
    put_hex(alloc, out, b"value", bytes.as_slice())
}

// The encoding of a certificate. All versions are the same here.
fn encode_cert(alloc: Global, cert: &Cert) -> Result<Bytes, NoMemory>
    ensures { IfOk result (λ bytes. bytes ≡ spell_cert cert.now) }
{
    let mut out = Writer::new(alloc, 1);
    write_cert(cert, &mut out)?;
    Ok(out.into_bytes())
}

// Appends the line of a certificate.
fn put_cert(alloc: Global, out: &mut Vec<u8>, cert: &Cert) -> Result<(), NoMemory>
    ensures line { OnOk result (out.new.items ≡ out.old.items ++ cert_line cert.now ++ 10 ∷ []) }
    ensures range { OnOk result (IsRangedCert cert.now) }
{
    // Names the value, so that the proof sees its range.
    let _requests = cert.requests;
    let bytes = encode_cert(alloc, cert)?;
    put_hex(alloc, out, b"cert", bytes.as_slice())
}

// Appends the lines of an epoch's values.
fn put_values(
    alloc: Global,
    out: &mut Vec<u8>,
    version: u8,
    values: &[Value],
) -> Result<(), NoMemory>
    ensures lines { OnOk result (out.new.items ≡ out.old.items ++ ended (map (value_line version) values.now)) }
    ensures bytes { OnOk result (AreBytes version values.now) }
{
    for value in values {
        put_value(alloc, out, version, value)?;
    }
    Ok(())
}

/// Appends the lines of an epoch: its values and its certificate. The values and the certificate of a program are in
/// the ranges of their types (`bytes`, `range`). The only error is out of memory.
pub fn put_epoch(
    alloc: Global,
    out: &mut Vec<u8>,
    version: u8,
    values: &[Value],
    cert: &Cert,
) -> Result<(), NoMemory>
    ensures lines { OnOk result (out.new.items ≡ out.old.items ++ ended (lines_of version values.now cert.now)) }
    ensures bytes { OnOk result (AreBytes version values.now) }
    ensures range { OnOk result (IsRangedCert cert.now) }
{
    put_values(alloc, out, version, values)?;
    put_cert(alloc, out, cert)?;
    Ok(())
}
