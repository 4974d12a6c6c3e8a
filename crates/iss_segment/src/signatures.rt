//! The signatures of clients on requests.
ghost use Rattle.std.specs.Prelude.{◌≡◌, ◌+◌, ◌^◌, ◌<◌, ◌≤◌, IfOk, length, take};
ghost use Rattle.iss_keys.specs.Signatures.{signature_of};
ghost use Rattle.iss_rules.specs.Concrete.{is_signed_by, request_statement};

use iss_keys::{Directory, Keys};
use iss_request::{Bytes, NoMemory, ReqId, Request};

/// The longest payload, in bytes.
const PAYLOAD_MOST: usize = 256;

const HEAD: usize = 8;

// The first byte of a client's statement.
const REQUEST: u8 = 0x30;

/// Whether the request's client signed it. Allocates nothing.
// rule: Signatures: A request is signed if its signature verifies under its client's key
pub fn is_signed(directory: &Directory, request: &Request) -> bool
    ensures { result ≡ is_signed_by directory.now request.now }
{
    // The proof needs that the number fits into 32 bits.
    let _number = request.id.number;
    let payload = request.payload.as_slice();
    if payload.len() > PAYLOAD_MOST {
        return false;
    }
    let mut buffer = [0u8; HEAD + PAYLOAD_MOST];
    put_statement(request.id, payload, &mut buffer);
    let statement = front(&buffer, HEAD + payload.len());
    directory.verify_client(request.id.client, statement, request.sig.as_slice())
}

/// The client's signature of a request, by the leaf whose index is the request's number. The only error is out of
/// memory.
pub fn sign_request(keys: &mut Keys, id: ReqId, payload: &[u8]) -> Result<Bytes, NoMemory>
    requires leaf { id.number < 2 ^ keys.old.height }
    requires payload { length payload.now ≤ 256 }
    ensures signed { IfOk result (λ sig. sig ≡ signature_of keys.old.secret keys.old.height id.number
        (request_statement id payload.now)) }
    ensures same { keys.new ≡ keys.old }
{
    let mut buffer = [0u8; HEAD + PAYLOAD_MOST];
    put_statement(id, payload, &mut buffer);
    let statement = front(&buffer, HEAD + payload.len());
    match keys.sign_at(id.number, statement) {
        Ok(sig) => Ok(Bytes::of(sig)),
        Err(_) => Err(NoMemory),
    }
}

// Writes the statement that a client signs to the beginning of a buffer.
// rule: Signatures: A client signs its number, the request's number, and the payload after its length
fn put_statement(id: ReqId, payload: &[u8], buffer: &mut [u8])
    requires payload { length payload.now ≤ 256 }
    requires room { 8 + length payload.now ≤ length buffer.old }
    ensures { take (8 + length payload.now) buffer.new ≡ request_statement id payload.now }
{
    let [n0, n1, n2, n3] = id.number.to_be_bytes();
    let [l0, l1] = (payload.len() as u16).to_be_bytes();
    buffer[..8].copy_from_slice(&[REQUEST, id.client, n0, n1, n2, n3, l0, l1]);
    buffer[8..8 + payload.len()].copy_from_slice(payload);
}

// The first `count` bytes of a buffer.
fn front(buffer: &[u8], count: usize) -> &[u8]
    requires { count ≤ length buffer.now }
    ensures { result.now ≡ take count buffer.now }
{
    &buffer[..count]
}
