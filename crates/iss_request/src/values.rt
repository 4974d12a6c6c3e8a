//! The encoding of requests and values in bytes, and their digests. `specs/Formats.antt` has the table. A reader and a
//! writer carry their version; a digest is given it.
ghost use Rattle.std.specs.Prelude.{◌≡◌, ℕ, List, [], ◌∷◌, ◌++◌, ◌≤◌, length, ◌↔◌, IfOk, OnOk, Ok, Err};
ghost use Rattle.std.specs.List.{flat_map};
ghost use Rattle.sha2.specs.Hashers.{Holds256};
ghost use Rattle.sha2.specs.Sha256.{sha256};
ghost use Rattle.iss_request.specs.Fields.{and_bytes, IsRead, IsUnreadable, IsGrammar, Good, Bad};
ghost use Rattle.iss_request.specs.Parsing.{all_of, such_that, times};
ghost use Rattle.iss_request.specs.Formats.{requests_most, IsSpelledRequest, IsSpelledValue, is_batch, is_signature, has_spelling};
ghost use Rattle.iss_request.specs.Formats.{request_bytes, spell_request, spell_count, spell_batch, spell_value, value_string};
ghost use Rattle.iss_request.specs.Formats.{parse_payload, parse_signature, parse_request, count_field, parse_count, parse_batch, parse_rest, parse_value};
ghost use Rattle.iss_request.specs.declared.requests.Request.{Request};
ghost use Rattle.iss_request.specs.declared.requests.Value.{Value};

use crate::bytes::Bytes;
use crate::errors::{DecodeError, NoMemory};
use crate::fields::{Fields, Writer};
use crate::ids::ReqId;
use crate::requests::{Batch, Request, Value};
use crate::versions::{is_second, requests_most, version_byte};
use iss_base::heights::{digests_of_height, is_height};
use sha2::{Digest, Sha256};
use std::alloc::Global;

// The maximal length of a payload, in bytes.
const PAYLOAD_MAX: u16 = 256;

// What is written for a request without an encoding: a length that is too large, and nothing after it.
const NO_REQUEST: [u8; 7] = [0, 0, 0, 0, 0, 255, 255];

// The byte before a value that is hashed.
const VALUE: u8 = 0x40;

// What is written for a batch without an encoding: a count that is too large in either version, and nothing after it.
const NO_BATCH: [u8; 2] = [255, 255];

/// Whether bytes have the shape of a signature: a height, a leaf, and the digests of a key of this height. It is not
/// verified here.
// rule: Formats: A signature begins with its key's height, which fixes its length
pub fn has_shape(sig: &[u8]) -> bool
    ensures { result ≡ is_signature sig.now }
{
    match sig {
        [] => false,
        [height, rest @ ..] => {
            let digests = digests_of_height(*height);
            is_height(*height) && rest.len() == 4 + 32 * digests
        }
    }
}

/// Whether a request has an encoding: its payload is not too long, and its signature has the shape of one.
pub fn is_spellable(request: &Request) -> bool
    ensures { result ≡ has_spelling request.now }
{
    // Its range is part of the result.
    let _number = request.id.number;
    request.payload.len() <= PAYLOAD_MAX as usize && has_shape(request.sig.as_slice())
}

/// Writes a request. A request without an encoding is written as bytes that no reader accepts.
// rule: Formats: A request has one encoding: client, number, a payload of at most 256 bytes, signature
pub fn write_request(request: &Request, out: &mut Writer) -> Result<(), NoMemory>
    ensures { OnOk result (out.new ≡ and_bytes out.old (spell_request request.now)) }
{
    if is_spellable(request) {
        put_request(request, out)
    } else {
        out.put_bytes(&NO_REQUEST)
    }
}

fn put_request(request: &Request, out: &mut Writer) -> Result<(), NoMemory>
    requires { length request.now.payload ≤ 256 }
    ensures { OnOk result (out.new ≡ and_bytes out.old (request_bytes request.now)) }
{
    out.put_u8(request.id.client)?;
    out.put_u32(request.id.number)?;
    out.put_u16(request.payload.len() as u16)?;
    out.put_bytes(request.payload.as_slice())?;
    out.put_bytes(request.sig.as_slice())?;
    Ok(())
}

/// Writes a batch as in a value, after the byte that says that the value is a batch. A batch without an encoding is
/// written as bytes that no reader accepts.
pub fn write_batch(batch: &Batch, out: &mut Writer) -> Result<(), NoMemory>
    ensures { OnOk result (out.new ≡ and_bytes out.old (spell_batch out.old.version batch.now)) }
{
    if batch.len() > requests_most(out.version()) as usize {
        return out.put_bytes(&NO_BATCH);
    }
    put_count(batch.len() as u16, out)?;
    write_requests(batch.as_slice(), out)
}

fn put_count(count: u16, out: &mut Writer) -> Result<(), NoMemory>
    requires { count ≤ requests_most out.old.version }
    ensures { OnOk result (out.new ≡ and_bytes out.old (spell_count out.old.version count)) }
{
    if is_second(out.version()) {
        out.put_u16(count)
    } else {
        out.put_u8(count as u8)
    }
}

fn write_requests(requests: &[Request], out: &mut Writer) -> Result<(), NoMemory>
    ensures { OnOk result (out.new ≡ and_bytes out.old (flat_map spell_request requests.now)) }
{
    for request in requests {
        write_request(request, out)?;
    }
    Ok(())
}

/// Writes a batch as a value: the byte of the version, then the batch.
pub fn write_batch_value(batch: &Batch, out: &mut Writer) -> Result<(), NoMemory>
    ensures { OnOk result (out.new ≡ and_bytes out.old (spell_value out.old.version (Value.Batch batch.now))) }
{
    let first = version_byte(out.version());
    out.put_u8(first)?;
    write_batch(batch, out)
}

/// Writes a value. A value without an encoding is written as bytes that no reader accepts.
// rule: Formats: A value has one encoding a version: nil, or a batch after a version byte and a count
pub fn write_value(value: &Value, out: &mut Writer) -> Result<(), NoMemory>
    ensures { OnOk result (out.new ≡ and_bytes out.old (spell_value out.old.version value.now)) }
{
    match value {
        Value::Nil => out.put_u8(0),
        Value::Batch(batch) => write_batch_value(batch, out),
    }
}

fn read_payload(alloc: Global, f: &mut Fields) -> Result<Bytes, DecodeError>
    ensures ok { IfOk result (λ b. IsRead parse_payload f.old f.new b) }
    ensures bad { (at : ℕ) → result ≡ Err (DecodeError.BadField at) → IsUnreadable parse_payload f.old at }
{
    let too_long = f.bad_field();
    let size = f.read_u16()?;
    if size > PAYLOAD_MAX {
        return Err(too_long);
    }
    let first = f.at();
    let _payload = f.read_bytes(size as usize)?;
    Ok(f.since(alloc, first)?)
}

/// Reads a signature of any height that a key may have. It is not verified here.
pub fn read_signature(alloc: Global, f: &mut Fields) -> Result<Bytes, DecodeError>
    ensures ok { IfOk result (λ b. IsRead parse_signature f.old f.new b) }
    ensures bad { (at : ℕ) → result ≡ Err (DecodeError.BadField at) → IsUnreadable parse_signature f.old at }
{
    let no_height = f.bad_field();
    let first = f.at();
    let height = f.read_u8()?;
    if !is_height(height) {
        return Err(no_height);
    }
    let _leaf = f.read_bytes(4)?;
    let _digests = f.read_digests(digests_of_height(height))?;
    Ok(f.since(alloc, first)?)
}

/// Reads the next request. `BadField` has the offset of the first field that does not fit.
pub fn read_request(alloc: Global, f: &mut Fields) -> Result<Request, DecodeError>
    ensures ok { IfOk result (λ r. IsRead parse_request f.old f.new r) }
    ensures bad { (at : ℕ) → result ≡ Err (DecodeError.BadField at) → IsUnreadable parse_request f.old at }
{
    let client = f.read_u8()?;
    let number = f.read_u32()?;
    let payload = read_payload(alloc, f)?;
    let sig = read_signature(alloc, f)?;
    Ok(Request {
        id: ReqId { client, number },
        payload,
        sig,
    })
}

fn read_batch(alloc: Global, f: &mut Fields) -> Result<Batch, DecodeError>
    ensures ok { IfOk result (λ b. IsRead (parse_batch f.old.version) f.old f.new b) }
    ensures bad { (at : ℕ) → result ≡ Err (DecodeError.BadField at) →
        IsUnreadable (parse_batch f.old.version) f.old at }
{
    let count = read_count(f)?;
    let batch = read_requests(alloc, count, f)?;
    Ok(batch)
}

fn read_count(f: &mut Fields) -> Result<u16, DecodeError>
    ensures ok { IfOk result (λ n. IsRead (parse_count f.old.version) f.old f.new n) }
    ensures bad { (at : ℕ) → result ≡ Err (DecodeError.BadField at) →
        IsUnreadable (parse_count f.old.version) f.old at }
{
    let too_many = f.bad_field();
    let most = requests_most(f.version());
    let count = read_any_count(f)?;
    if count > most {
        return Err(too_many);
    }
    Ok(count)
}

fn read_any_count(f: &mut Fields) -> Result<u16, DecodeError>
    ensures ok { IfOk result (λ n. IsRead (count_field f.old.version) f.old f.new n) }
    ensures bad { (at : ℕ) → result ≡ Err (DecodeError.BadField at) →
        IsUnreadable (count_field f.old.version) f.old at }
{
    if is_second(f.version()) {
        return f.read_u16();
    }
    let count = f.read_u8()?;
    Ok(count as u16)
}

fn read_requests(alloc: Global, count: u16, f: &mut Fields) -> Result<Batch, DecodeError>
    ensures ok { IfOk result (λ b. IsRead (times count parse_request) f.old f.new b) }
    ensures bad { (at : ℕ) → result ≡ Err (DecodeError.BadField at) →
        IsUnreadable (times count parse_request) f.old at }
{
    let mut batch = Batch::new(alloc);
    for _ in 0..count {
        let request = read_request(alloc, f)?;
        batch.push(request)?;
    }
    Ok(batch)
}

/// Reads the next value. `BadField` has the offset of the first field that does not fit.
pub fn read_value(alloc: Global, f: &mut Fields) -> Result<Value, DecodeError>
    ensures ok { IfOk result (λ v. IsRead (parse_value f.old.version) f.old f.new v) }
    ensures bad { (at : ℕ) → result ≡ Err (DecodeError.BadField at) →
        IsUnreadable (parse_value f.old.version) f.old at }
{
    let no_value = f.bad_field();
    let batch_byte = version_byte(f.version());
    let first = f.read_u8()?;
    if first == 0 {
        return Ok(Value::Nil);
    }
    if first != batch_byte {
        return Err(no_value);
    }
    let batch = read_batch(alloc, f)?;
    Ok(Value::Batch(batch))
}

/// Reads a value that must be a batch. `BadField` has the offset of the first field that does not fit; for nil that is
/// the value itself.
pub fn read_batch_value(alloc: Global, f: &mut Fields) -> Result<Batch, DecodeError>
    ensures ok { IfOk result (λ b.
        IsRead (such_that is_batch (parse_value f.old.version)) f.old f.new (Value.Batch b)) }
    ensures bad { (at : ℕ) → result ≡ Err (DecodeError.BadField at) →
        IsUnreadable (such_that is_batch (parse_value f.old.version)) f.old at }
{
    let no_batch = f.bad_field();
    match read_value(alloc, f)? {
        Value::Batch(batch) => Ok(batch),
        Value::Nil => Err(no_batch),
    }
}

/// The bytes of a value. A value without an encoding gives bytes that decode to nothing.
pub fn encode_value(alloc: Global, version: u8, value: &Value) -> Result<Bytes, NoMemory>
    ensures { IfOk result (λ bytes. bytes ≡ spell_value version value.now) }
{
    let mut out = Writer::new(alloc, version);
    write_value(value, &mut out)?;
    Ok(out.into_bytes())
}

/// The value with exactly these bytes. `BadField` has the offset of the first field that does not fit. If bytes follow
/// the value, that is the first of them.
pub fn decode_value(alloc: Global, version: u8, bytes: &[u8]) -> Result<Value, DecodeError>
    ensures ok { IfOk result (λ v. parse_value version bytes.now ≡ Good v []) }
    ensures bad { (at : ℕ) → result ≡ Err (DecodeError.BadField at) → all_of (parse_value version) bytes.now ≡ Bad at }
{
    let mut f = Fields::over(version, bytes);
    let value = read_value(alloc, &mut f)?;
    if !f.is_done() {
        return Err(f.bad_field());
    }
    Ok(value)
}

// Adds a request's encoding to the hashed string.
fn hash_request(request: &Request, hasher: &mut Sha256)
    ensures { (m : List ℕ) → Holds256 hasher.old m → Holds256 hasher.new (m ++ spell_request request.now) }
{
    if is_spellable(request) {
        hash_parts(request, hasher);
    } else {
        hasher.update(NO_REQUEST);
    }
}

fn hash_parts(request: &Request, hasher: &mut Sha256)
    requires { length request.now.payload ≤ 256 }
    ensures { (m : List ℕ) → Holds256 hasher.old m → Holds256 hasher.new (m ++ request_bytes request.now) }
{
    hasher.update([request.id.client]);
    hasher.update(request.id.number.to_be_bytes());
    hasher.update((request.payload.len() as u16).to_be_bytes());
    hasher.update(request.payload.as_slice());
    hasher.update(request.sig.as_slice());
}

// Adds a batch's encoding to the hashed string.
fn hash_batch(version: u8, batch: &Batch, hasher: &mut Sha256)
    ensures { (m : List ℕ) → Holds256 hasher.old m → Holds256 hasher.new (m ++ spell_batch version batch.now) }
{
    if batch.len() > requests_most(version) as usize {
        hasher.update(NO_BATCH);
        return;
    }
    hash_count(version, batch.len() as u16, hasher);
    hash_requests(batch.as_slice(), hasher);
}

fn hash_count(version: u8, count: u16, hasher: &mut Sha256)
    requires { count ≤ requests_most version }
    ensures { (m : List ℕ) → Holds256 hasher.old m → Holds256 hasher.new (m ++ spell_count version count) }
{
    if is_second(version) {
        hasher.update(count.to_be_bytes());
    } else {
        hasher.update([count as u8]);
    }
}

fn hash_requests(requests: &[Request], hasher: &mut Sha256)
    ensures { (m : List ℕ) → Holds256 hasher.old m → Holds256 hasher.new (m ++ flat_map spell_request requests.now) }
{
    for request in requests {
        hash_request(request, hasher);
    }
}

/// The string hashed for a value's digest.
pub fn value_string(alloc: Global, version: u8, value: &Value) -> Result<Bytes, NoMemory>
    ensures { IfOk result (λ s. s ≡ value_string version value.now) }
{
    let mut out = Writer::new(alloc, version);
    out.put_u8(VALUE)?;
    write_value(value, &mut out)?;
    Ok(out.into_bytes())
}

/// The string hashed for the digest of a batch as a value.
pub fn batch_string(alloc: Global, version: u8, batch: &Batch) -> Result<Bytes, NoMemory>
    ensures { IfOk result (λ s. s ≡ value_string version (Value.Batch batch.now)) }
{
    let mut out = Writer::new(alloc, version);
    out.put_u8(VALUE)?;
    write_batch_value(batch, &mut out)?;
    Ok(out.into_bytes())
}

/// The digest of a batch as a value. The string is not built in memory.
pub fn batch_digest(version: u8, batch: &Batch) -> [u8; 32]
    ensures { result ≡ sha256 (value_string version (Value.Batch batch.now)) }
{
    let mut hasher = Sha256::new();
    hasher.update([VALUE]);
    hasher.update([version_byte(version)]);
    hash_batch(version, batch, &mut hasher);
    hasher.finalize()
}

/// The digest of a value. The string is not built in memory.
// rule: Formats: A value's digest is the hash of its encoding after a byte of its own
pub fn digest_of(version: u8, value: &Value) -> [u8; 32]
    ensures { result ≡ sha256 (value_string version value.now) }
{
    match value {
        Value::Nil => Sha256::digest([VALUE, 0]),
        Value::Batch(batch) => batch_digest(version, batch),
    }
}

/// In each version, a request or value has at most one encoding, and no encoding is a prefix of another. What has no
/// encoding is written as bytes that decode to nothing, whatever follows.
pub fn formats_are_exact()
    ensures request { IsGrammar spell_request parse_request }
    ensures value { (version : ℕ) → IsGrammar (spell_value version) (parse_value version) }
    // What is decoded from exactly these bytes is what the table relates to them.
    ensures request_table { (r : Request) (bytes : List ℕ) →
        (parse_request bytes ≡ Good r []) ↔ IsSpelledRequest r bytes }
    ensures value_table { (version : ℕ) (v : Value) (bytes : List ℕ) →
        (parse_value version bytes ≡ Good v []) ↔ IsSpelledValue version v bytes }
{}
