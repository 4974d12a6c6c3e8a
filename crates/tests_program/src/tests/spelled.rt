//! What the nodes sign and send, encoded field by field here, independently of the code under test.
ghost use Rattle.std.specs.Prelude.{◌≤◌};
ghost use Rattle.iss_base.specs.Heights.{IsHeight};

use iss_keys::Keys;
use sha2::{Digest, Sha256};
use std::alloc::{AllocError, Global};
use std::test::Fail;

/// For keys with sixteen leaves: how many bytes of a signature follow its height.
pub const BEHIND_HEIGHT: usize = 2149 + 32 * 4 - 1;

/// The number of the leader's message, and that of an echo.
pub const SAY: u8 = 1;

pub const ECHO: u8 = 2;

// A key with no leaf used.
fn fresh(alloc: Global, secret: [u8; 32], height: u8) -> Result<Keys, Fail>
    requires height { IsHeight height }
{
    Ok(Keys::make(alloc, secret, height)?)
}

// The key of a node (kind 0x20) or client (kind 0x21).
fn key(alloc: Global, owner: u8, number: u8) -> Result<Keys, Fail> {
    fresh(alloc, Sha256::digest([owner, number]), 4)
}

// A key's signature with this leaf; empty if there is no such leaf.
fn sign(alloc: Global, keys: &mut Keys, leaf: u32, statement: &[u8]) -> Result<Vec<u8>, Fail> {
    if leaf >= keys.left() {
        return Ok(Vec::new(alloc));
    }
    Ok(keys.sign_at(leaf, statement)?)
}

// The signature of a node or client, with this leaf.
fn sign_as(
    alloc: Global,
    owner: u8,
    number: u8,
    leaf: u32,
    statement: &[u8],
) -> Result<Vec<u8>, Fail> {
    let mut keys = key(alloc, owner, number)?;
    sign(alloc, &mut keys, leaf, statement)
}

// These pieces, one behind the other.
fn joined(alloc: Global, pieces: &[&[u8]]) -> Result<Vec<u8>, AllocError> {
    let mut all = Vec::new(alloc);
    for piece in pieces {
        all.extend_from_slice(piece)?;
    }
    Ok(all)
}

// The digest of a value with this encoding.
fn digest_of(value: &[u8]) -> [u8; 32] {
    let mut hasher = Sha256::new();
    hasher.update([0x40u8]);
    hasher.update(value);
    hasher.finalize()
}

// What a message of this kind states about a value in its leader's slot of the first epoch: the cluster's tag, epoch,
// leader, module, kind, slot, digest.
fn statement(alloc: Global, leader: u8, kind: u8, value: &[u8]) -> Result<Vec<u8>, AllocError> {
    let slot = u64::from(leader).to_be_bytes();
    let digest = digest_of(value);
    joined(
        alloc,
        &[&[7; 32], &[0; 8], &[leader, 6, kind], &slot, &digest],
    )
}

// A node's signature of a message of this kind in a leader's instance, with this leaf.
fn signature(
    alloc: Global,
    node: u8,
    leaf: u32,
    as_what: (u8, u8),
    value: &[u8],
) -> Result<Vec<u8>, Fail> {
    let (leader, kind) = as_what;
    let statement = statement(alloc, leader, kind, value)?;
    sign_as(alloc, 0x20, node, leaf, &statement)
}

// A packet of this kind in the first epoch.
fn packet(
    alloc: Global,
    kind: u8,
    from: u8,
    leader: u8,
    body: &[u8],
) -> Result<Vec<u8>, AllocError> {
    let length = u32::try_from(body.len()).unwrap_or(u32::MAX).to_be_bytes();
    joined(
        alloc,
        &[&[1, kind, from], &[0; 8], &[leader], &length, body],
    )
}

// A message of a leader about its slot in the first epoch: its number, the slot, the batch or its digest, then the
// signature.
fn message(
    alloc: Global,
    node: u8,
    kind: u8,
    said: &[u8],
    sig: &[u8],
) -> Result<Vec<u8>, AllocError> {
    let slot = u64::from(node).to_be_bytes();
    let body = joined(alloc, &[&[kind], &slot, said, sig])?;
    packet(alloc, 1, node, node, &body)
}

/// A node's message on a value in its own slot of the first epoch, signed with this leaf.
pub(crate) fn word(alloc: Global, node: u8, leaf: u32, value: &[u8]) -> Result<Vec<u8>, Fail> {
    let sig = signature(alloc, node, leaf, (node, SAY), value)?;
    Ok(message(alloc, node, SAY, value, &sig)?)
}

/// The same message, but signed as a message of another kind or of another leader's instance.
pub(crate) fn word_signed_as(
    alloc: Global,
    node: u8,
    as_what: (u8, u8),
    value: &[u8],
) -> Result<Vec<u8>, Fail> {
    let sig = signature(alloc, node, 0, as_what, value)?;
    Ok(message(alloc, node, SAY, value, &sig)?)
}

/// A node's echo of its own message, signed with this leaf.
pub(crate) fn echo(alloc: Global, node: u8, leaf: u32, value: &[u8]) -> Result<Vec<u8>, Fail> {
    let sig = signature(alloc, node, leaf, (node, ECHO), value)?;
    Ok(message(alloc, node, ECHO, &digest_of(value), &sig)?)
}

// The fields of a request with three bytes.
fn fields(alloc: Global, client: u8, number: u32) -> Result<Vec<u8>, AllocError> {
    joined(alloc, &[&[client], &number.to_be_bytes(), b"\0\x03abc"])
}

// The client's signature of a request, with the leaf of its number. It signs a first byte, then the fields.
fn signed(alloc: Global, client: u8, number: u32, fields: &[u8]) -> Result<Vec<u8>, Fail> {
    let statement = joined(alloc, &[&[0x30], fields])?;
    sign_as(alloc, 0x21, client, number, &statement)
}

/// A client's request with three bytes, signed with the leaf of its number.
pub(crate) fn request(alloc: Global, client: u8, number: u32) -> Result<Vec<u8>, Fail> {
    let fields = fields(alloc, client, number)?;
    let sig = signed(alloc, client, number, &fields)?;
    Ok(joined(alloc, &[&fields, &sig])?)
}

/// The packet of a request.
pub(crate) fn request_packet(alloc: Global, request: &[u8]) -> Result<Vec<u8>, AllocError> {
    packet(alloc, 5, 255, 0, request)
}

/// The batch with one request, as a value.
pub(crate) fn batch(alloc: Global, request: &[u8]) -> Result<Vec<u8>, AllocError> {
    joined(alloc, &[&[1, 1], request])
}
